ghost use Rattle.std.specs.Prelude.{◌≡◌, ◌∷◌, [], IfOk, IfErr};
ghost use Rattle.ct_report.specs.PutLines.{PutsLines};
ghost use Rattle.ct_app.specs.declared.outcome.Outcome.TheVariants as AppCause;
ghost use Rattle.ct_app.specs.Calls.{Tries};
ghost use Rattle.ct_app.specs.Outcome.{fault_line};
ghost use Rattle.ct_journal.specs.CheckSteps.{IsUnended};
ghost use Rattle.ct_journal.specs.File.{too_long_line};
ghost use Rattle.ct_explain.specs.Found.{finding_lines, refusal_line, story_lines};
ghost use Rattle.ct_explain.specs.Steps.{IsCutBehind, IsExplainOf, SaysSo, SaysNot, ReportsFound, ReportsNone, SaysFound};

use crate::explain::ExplainOutcome;
use crate::find::{Finding, Found};
use crate::picture::put_picture;
use crate::report::put_report;
use crate::story::Story;
use crate::texts::append_why;
use crate::why::Why;
use ct_app::{Outcome, Unplanned, report_outcome};
use ct_base::{Blob, NoMemory, Sink, SinkFault};
use ct_history::Plan;
use std::alloc::Global;

/// Puts what was found, or why nothing was found. Returns the outcome and the exit status.
pub(crate) fn report_found<S: Sink>(
    alloc: Global,
    sink: &mut S,
    picture: bool,
    found: Result<Found, Unplanned>,
) -> (ExplainOutcome, u8)
    requires unended { IfErr found (λ why. IsUnended why.outcome) }
    ensures { ReportsFound picture found result.0 result.1 (S.tells sink.old) (S.tells sink.new) }
{
    match found {
        Ok(it) => report_it(alloc, sink, picture, it),
        Err(why) => report_why(alloc, sink, why),
    }
}

fn report_it<S: Sink>(alloc: Global, sink: &mut S, picture: bool, it: Found) -> (ExplainOutcome, u8)
    ensures { SaysFound picture it.plan it.finding result.0 result.1 (S.tells sink.old) (S.tells sink.new) }
{
    let Found { plan, finding } = it;
    report_finding(alloc, sink, picture, &plan, finding)
}

#[tactic(auto, using(ct_journal::proofs::CheckStepLemmas::reported_unended))]
fn report_why<S: Sink>(alloc: Global, sink: &mut S, why: Unplanned) -> (ExplainOutcome, u8)
    requires unended { IsUnended why.outcome }
    ensures { ReportsNone why result.0 result.1 (S.tells sink.old) (S.tells sink.new) }
{
    let Unplanned { outcome, names } = why;
    let (reported, status) = report_outcome(alloc, sink, names.as_slice(), outcome);
    (explain_outcome(reported), status)
}

fn explain_outcome(reported: Outcome) -> ExplainOutcome
    requires { IsUnended reported }
    ensures { IsExplainOf reported result }
{
    match reported {
        Outcome::Completed | Outcome::Listed => unreachable!(),
        Outcome::Usage { word, kind } => ExplainOutcome::Usage { word, kind },
        Outcome::Refused(refusal) => ExplainOutcome::Refused(refusal),
        Outcome::FilesFault { path } => ExplainOutcome::FilesFault { path },
        Outcome::OutputFault => ExplainOutcome::OutputFault,
        Outcome::Memory => ExplainOutcome::Memory,
    }
}

#[tactic(auto, using(crate::proofs::StepLemmas::said_lines, crate::proofs::StepLemmas::unsaid_lines, crate::proofs::StepLemmas::short_lines))]
fn report_finding<S: Sink>(
    alloc: Global,
    sink: &mut S,
    picture: bool,
    plan: &Plan,
    finding: Finding,
) -> (ExplainOutcome, u8)
    ensures { SaysFound picture plan.now finding result.0 result.1 (S.tells sink.old) (S.tells sink.new) }
{
    match put_finding(alloc, sink, picture, plan, &finding) {
        Ok(()) => said(&finding),
        Err(SinkFault::Failed) => unsaid(&finding),
        Err(SinkFault::NoMemory) => {
            report_memory(alloc, sink, &finding);
            (ExplainOutcome::Memory, 5)
        }
    }
}

fn put_finding<S: Sink>(
    alloc: Global,
    sink: &mut S,
    picture: bool,
    plan: &Plan,
    finding: &Finding,
) -> Result<(), SinkFault>
    ensures { PutsLines (finding_lines picture plan.now finding.now)
        (S.tells sink.old) (S.tells sink.new) result }
{
    match finding {
        Finding::Told(story) => put_story(alloc, sink, picture, plan, story),
        Finding::Refused { line, why } => put_refused(alloc, sink, plan, *line, why),
        Finding::TooLong => put_too_long(sink),
    }
}

fn put_story<S: Sink>(
    alloc: Global,
    sink: &mut S,
    picture: bool,
    plan: &Plan,
    story: &Story,
) -> Result<(), SinkFault>
    ensures { PutsLines (story_lines picture plan.now story.now)
        (S.tells sink.old) (S.tells sink.new) result }
{
    if picture {
        put_picture(alloc, sink, plan, story)
    } else {
        put_report(alloc, sink, plan, story)
    }
}

fn put_refused<S: Sink>(
    alloc: Global,
    sink: &mut S,
    plan: &Plan,
    line: u32,
    why: &Why,
) -> Result<(), SinkFault>
    ensures { PutsLines (refusal_line plan.now line why.now ∷ [])
        (S.tells sink.old) (S.tells sink.new) result }
{
    let text = refusal_line(alloc, plan, line, why)?;
    sink.put(text.bytes())?;
    Ok(())
}

fn refusal_line(alloc: Global, plan: &Plan, line: u32, why: &Why) -> Result<Blob, NoMemory>
    ensures { IfOk result (λ text. text ≡ refusal_line plan.now line why.now) }
{
    let mut text = Blob::of(alloc, b"journal refused at line ")?;
    text.append_number(alloc, u128::from(line))?;
    text.append(b": ")?;
    append_why(alloc, &mut text, plan, why)?;
    text.append(b"\n")?;
    Ok(text)
}

fn put_too_long<S: Sink>(sink: &mut S) -> Result<(), SinkFault>
    ensures { PutsLines (too_long_line ∷ []) (S.tells sink.old) (S.tells sink.new) result }
{
    sink.put(b"ctest: journal: too long\n")?;
    Ok(())
}

/// Gives the outcome and the exit status where all lines of what was found were put.
fn said(finding: &Finding) -> (ExplainOutcome, u8)
    ensures { SaysSo finding.now result.0 result.1 }
{
    match finding {
        Finding::Told(_) => (ExplainOutcome::Explained, 0),
        Finding::Refused { line, .. } => (ExplainOutcome::No { line: *line }, 9),
        Finding::TooLong => (ExplainOutcome::TooLong, 2),
    }
}

/// Gives the outcome and the exit status where the put of a line failed.
fn unsaid(finding: &Finding) -> (ExplainOutcome, u8)
    ensures { SaysNot finding.now result.0 result.1 }
{
    match finding {
        Finding::Told(_) | Finding::Refused { .. } => (ExplainOutcome::OutputFault, 4),
        Finding::TooLong => (ExplainOutcome::TooLong, 2),
    }
}

/// Reports want of memory where it came at a printed line.
fn report_memory<S: Sink>(alloc: Global, sink: &mut S, finding: &Finding)
    ensures { IsCutBehind finding.now (S.tells sink.old) (S.tells sink.new) }
{
    match finding {
        Finding::Told(_) => try_memory(alloc, sink),
        Finding::Refused { .. } => try_memory(alloc, sink),
        Finding::TooLong => {}
    }
}

/// Tries the line of want of memory.
#[tactic(auto, using(ct_journal::proofs::CheckStepLemmas::memory_tries))]
fn try_memory<S: Sink>(alloc: Global, sink: &mut S)
    ensures { Tries (fault_line [] AppCause.Memory) (S.tells sink.old) (S.tells sink.new) }
{
    let _ = report_outcome(alloc, sink, &[], Outcome::Memory);
}
