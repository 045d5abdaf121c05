ghost use Rattle.std.specs.Prelude.{◌≡◌, IsSome};
ghost use Rattle.ct_history.specs.Plan.{test_at as planned_test};
ghost use Rattle.ct_history.specs.Verdicts.{is_failing_in, verdict_in, verdict_of_test};

use crate::course::{course_in, verdict_of_course};
use crate::opened::is_open;
use crate::plan::test_at;
use crate::{Entry, History, Plan, PlanParts, PlanTest};
use ct_verdict::{Repeat, Verdict};

/// Returns a test's verdict: Disabled, else NotRun with the cause that settled it,
/// else the verdict of its last attempt.
///
/// It is `None` as long as the test is not final.
/// It stands for callers of the library: no program calls it.
pub fn final_verdict(plan: &Plan, history: &History, test: u32) -> Option<Verdict>
    requires { IsSome (planned_test plan.now.tests test) }
    ensures { result ≡ verdict_of_test plan.now history.now.entries.items test }
{
    verdict_of(plan.parts(), history.entries.as_slice(), test)
}

/// Returns the verdict of the test with this number, if there is one and it is final.
pub fn verdict_of(plan: &PlanParts, entries: &[Entry], number: u32) -> Option<Verdict>
    ensures { result ≡ verdict_of_test plan.now entries.now number }
{
    match test_at(plan.tests.as_slice(), number) {
        Some(test) => verdict(&plan.repeat, test, entries),
        None => None,
    }
}

/// Returns whether a test with this verdict makes the run fail. A test without a verdict does not.
pub fn is_failing(verdict: Option<Verdict>) -> bool
    ensures { result ≡ is_failing_in verdict }
{
    match verdict {
        Some(verdict) => verdict.is_failing(),
        None => false,
    }
}

/// Returns the verdict of a test of the plan, if it is final.
pub fn verdict(repeat: &Repeat, test: &PlanTest, entries: &[Entry]) -> Option<Verdict>
    ensures { result ≡ verdict_in repeat.now test.now entries.now }
{
    let _times = repeat.times;
    let is_open = is_open(entries, test.number);
    verdict_of_course(repeat, test, is_open, course_in(entries, test.number))
}
