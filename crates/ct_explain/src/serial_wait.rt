ghost use Rattle.std.specs.Prelude.{◌≡◌};
ghost use Rattle.ct_history.specs.Plan.{test_at};
ghost use Rattle.ct_history.specs.Rules as Rules;
ghost use Rattle.ct_history.specs.Course.{runs};
ghost use Rattle.ct_explain.specs.Waits as Waits;

use ct_history::{OpenStart, Plan, PlanTest, planned_test};

/// Returns the least test of these starts such that it or this test runs alone.
pub(crate) fn open_serial(plan: &Plan, test: &PlanTest, starts: &[OpenStart]) -> Option<u32>
    ensures { result ≡ Waits.open_serial plan.now.tests test.now (runs starts.now) }
{
    let mut least = None;
    for at in 0..starts.len() {
        let number = starts[at].test;
        if test.serial || is_serial(plan, number) {
            least = lesser(least, number);
        }
    }
    least
}

/// Returns whether the test with this number runs alone.
fn is_serial(plan: &Plan, number: u32) -> bool
    ensures { result ≡ Rules.is_serial (test_at plan.now.tests number) }
{
    match planned_test(plan, number) {
        Some(test) => test.serial,
        None => false,
    }
}

/// Returns the lesser one of two numbers, where there is a first one.
pub(crate) fn lesser(least: Option<u32>, number: u32) -> Option<u32>
    ensures { result ≡ Waits.lesser least number }
{
    match least {
        Some(other) => Some(other.min(number)),
        None => Some(number),
    }
}
