ghost use Rattle.std.specs.Prelude.{◌≡◌, ◌∷◌, [], IfOk, Some, length, map};
ghost use Rattle.ct_base.specs.Outside.{Puts, PutsEach};
ghost use Rattle.ct_history.specs.Plan.{IsAscendingFrom, test_at};
ghost use Rattle.ct_history.specs.Verdicts.{verdict_of_test};
ghost use Rattle.ct_report.specs.Report.{test_line};
ghost use Rattle.ct_report.specs.RunLines.{KnowsLines, NotesEntry};

use crate::test_lines::{LineNumbers, MOST_MICROS, numbered_line};
use crate::totals::count_enabled;
use ct_base::{Blob, NoMemory, Sink, SinkFault};
use ct_history::{Entry, History, Plan, PlanTest, expect_place, place_of};
use ct_verdict::Verdict;
use std::alloc::Global;

/// Puts the lines of the tests of a run, each without a pass over its history.
///
/// It keeps what the lines need of the history so far, and reads each entry once.
#[derive(Drop)]
pub struct TestLines {
    /// How many tests are not disabled.
    enabled: usize,
    /// For each test, by its place in the plan, the microseconds
    /// of its Ends among the entries read.
    micros: Vec<u64>,
    /// How many entries were read.
    read: usize,
}

impl TestLines {
    /// Makes the lines of a run that has no entries yet.
    pub fn new(alloc: Global, plan: &Plan) -> Result<TestLines, NoMemory>
        ensures { IfOk result (λ lines. KnowsLines plan.now [] lines) }
    {
        let tests = plan.parts().tests.as_slice();
        Ok(TestLines {
            enabled: count_enabled(tests),
            micros: tests.iter().map(|_| 0).collect(alloc)?,
            read: 0,
        })
    }

    /// Puts the line of a test with this verdict, which is the `place`-th to become final, from 1.
    ///
    /// It is the same line as `line` puts. Source: CMake manual, ctest(1), Description. The wording
    /// is this project's choice.
    pub fn put<S: Sink>(
        &mut self,
        alloc: Global,
        sink: &mut S,
        plan: &Plan,
        history: &History,
        test: u32,
        place: u32,
        verdict: Verdict,
    ) -> Result<(), SinkFault>
        requires knows { KnowsLines plan.now history.now.entries.items self.old }
        requires given { verdict_of_test plan.now history.now.entries.items test ≡ Some verdict }
        ensures text { Puts (test_line plan.now history.now.entries.items place (test_at plan.now.tests test)) (S.tells sink.old) (S.tells sink.new) result }
        ensures each { PutsEach (test_line plan.now history.now.entries.items place (test_at plan.now.tests test) ∷ []) (S.tells sink.old) (S.tells sink.new) result }
        ensures knows { KnowsLines plan.now history.now.entries.items self.new }
    {
        let line = self.line(alloc, plan, history, test, place, verdict)?;
        sink.put(line.bytes())
    }

    /// Writes the line of a test with this verdict.
    fn line(
        &mut self,
        alloc: Global,
        plan: &Plan,
        history: &History,
        test: u32,
        place: u32,
        verdict: Verdict,
    ) -> Result<Blob, NoMemory>
        requires knows { KnowsLines plan.now history.now.entries.items self.old }
        requires given { verdict_of_test plan.now history.now.entries.items test ≡ Some verdict }
        ensures text { IfOk result (λ text. text ≡ test_line plan.now history.now.entries.items place (test_at plan.now.tests test)) }
        ensures knows { KnowsLines plan.now history.now.entries.items self.new }
    {
        self.read(plan, history);
        let tests = plan.parts().tests.as_slice();
        let at = expect_place(tests, test);
        let numbers = LineNumbers {
            place,
            enabled: self.enabled,
            micros: self.micros[at],
        };
        numbered_line(alloc, tests, &tests[at], verdict, numbers)
    }

    /// Reads the entries that were added to the history since the last call.
    fn read(&mut self, plan: &Plan, history: &History)
        requires { KnowsLines plan.now history.now.entries.items self.old }
        ensures knows { KnowsLines plan.now history.now.entries.items self.new }
        ensures all { self.new.read ≡ length history.now.entries.items }
    {
        let tests = plan.parts().tests.as_slice();
        let entries = history.entries.as_slice();
        for at in self.read..entries.len() {
            note(&mut self.micros, tests, &entries[at]);
        }
        self.read = entries.len();
    }
}

/// Adds the microseconds of an End to those of its test. A greater sum counts as `MOST_MICROS`.
fn note(micros: &mut Vec<u64>, tests: &[PlanTest], entry: &Entry)
    requires ascends { IsAscendingFrom 1 (map (λ t. t.number) tests.now) }
    requires paired { length micros.old.items ≡ length tests.now }
    ensures { NotesEntry tests.now entry.now micros.old.items micros.new.items }
{
    let Entry::End { test, seen, .. } = entry else {
        return;
    };
    let Some(place) = place_of(tests, *test) else {
        return;
    };
    micros[place] = micros[place].saturating_add(seen.micros).min(MOST_MICROS);
}
