ghost use Rattle.std.specs.Prelude.{◌≡◌, ◌<◌, ◌^◌, ◌∷◌, [], codes, length, true, IfOk, IsSome};
ghost use Rattle.ct_base.specs.Outside.{Puts, PutsEach};
ghost use Rattle.ct_history.specs.Plan.{test_at};
ghost use Rattle.ct_history.specs.Verdicts.{are_all_final, verdict_of_test};
ghost use Rattle.ct_report.specs.Report.{header_line, project_line, summary_lines, test_line, text_of};

use crate::puts::put_lines;
use crate::summaries::summary_lines;
use crate::test_lines::test_line;
use ct_base::{Blob, Name, NoMemory, Sink, SinkFault};
use ct_history::{History, Plan, PlanParts};
use std::alloc::Global;

/// Puts the first line of a report, which names the folder.
///
/// Source: CMake manual, ctest(1), Description. The wording is this project's choice.
pub fn header<S: Sink>(alloc: Global, sink: &mut S, plan: &Plan) -> Result<(), SinkFault>
    ensures text { Puts (header_line plan.now) (S.tells sink.old) (S.tells sink.new) result }
    ensures each { PutsEach (header_line plan.now ∷ []) (S.tells sink.old) (S.tells sink.new) result }
{
    let header = header_line(alloc, plan.parts())?;
    sink.put(header.bytes())
}

/// Puts the line of a test, which is the `place`-th to become final, from 1.
/// It stands for callers of the library: no program calls it.
///
/// Source: CMake manual, ctest(1), Description. The wording is this project's choice.
pub fn line<S: Sink>(
    alloc: Global,
    sink: &mut S,
    plan: &Plan,
    history: &History,
    test: u32,
    place: u32,
) -> Result<(), SinkFault>
    requires { IsSome (verdict_of_test plan.now history.now.entries.items test) }
    ensures text { Puts (test_line plan.now history.now.entries.items place (test_at plan.now.tests test)) (S.tells sink.old) (S.tells sink.new) result }
    ensures each { PutsEach (test_line plan.now history.now.entries.items place (test_at plan.now.tests test) ∷ []) (S.tells sink.old) (S.tells sink.new) result }
{
    let line = test_line(alloc, plan.parts(), history.entries.as_slice(), place, test)?;
    sink.put(line.bytes())
}

/// Puts the summary of a run in which each test is final. It has the counts and, where there are
/// any, the labels, the tests that did not run, and the tests that failed.
///
/// Source: CMake manual, ctest(1), Description. The wording is this project's choice.
pub fn summary<S: Sink>(
    alloc: Global,
    sink: &mut S,
    plan: &Plan,
    history: &History,
) -> Result<(), SinkFault>
    requires ended { are_all_final plan.now history.now.entries.items ≡ true }
    ensures text { Puts (text_of (summary_lines plan.now history.now.entries.items)) (S.tells sink.old) (S.tells sink.new) result }
    ensures each { PutsEach (summary_lines plan.now history.now.entries.items) (S.tells sink.old) (S.tells sink.new) result }
{
    let lines = summary_lines(alloc, plan.parts(), history.entries.as_slice())?;
    put_lines(sink, lines.as_slice())
}

/// Puts the line that says that no tests were found.
///
/// Source: CMake manual, ctest(1), --no-tests. The wording is ctest's.
pub fn no_tests<S: Sink>(sink: &mut S) -> Result<(), SinkFault>
    ensures text { Puts (codes "No tests were found!!!\n") (S.tells sink.old) (S.tells sink.new) result }
    ensures each { PutsEach (codes "No tests were found!!!\n" ∷ []) (S.tells sink.old) (S.tells sink.new) result }
{
    sink.put(b"No tests were found!!!\n")?;
    Ok(())
}

fn header_line(alloc: Global, plan: &PlanParts) -> Result<Blob, NoMemory>
    ensures { IfOk result (λ text. text ≡ header_line plan.now) }
{
    project_line(alloc, &plan.dir)
}

/// Writes the line that names the folder of the tests.
pub(crate) fn project_line(alloc: Global, dir: &Name) -> Result<Blob, NoMemory>
    ensures { IfOk result (λ text. text ≡ project_line dir.now) }
{
    let mut text = Blob::of(alloc, b"Test project ")?;
    text.append(dir.bytes())?;
    text.append(b"\n")?;
    Ok(text)
}
