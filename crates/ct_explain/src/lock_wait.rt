ghost use Rattle.std.specs.Prelude.{◌≡◌, Some, IfOk, filter, fold};
ghost use Rattle.std.specs.Option.{option_copied};
ghost use Rattle.ct_history.specs.Plan.{test_at};
ghost use Rattle.ct_history.specs.Course.{runs};
ghost use Rattle.ct_explain.specs.Waits as Waits;

use crate::serial_wait::lesser;
use crate::wait::Wait;
use ct_base::{Name, NoMemory, is_among};
use ct_history::{OpenStart, Plan, PlanTest, planned_test};
use std::alloc::Global;

/// Returns the least lock, in byte order, on which this test and one of these starts exclude each other, and
/// the least test that does so.
pub(crate) fn lock_wait(
    alloc: Global,
    plan: &Plan,
    test: &PlanTest,
    starts: &[OpenStart],
) -> Result<Option<Wait>, NoMemory>
    ensures { IfOk result (λ wait. wait ≡ Waits.lock_wait plan.now.tests test.now (runs starts.now)) }
{
    match least_lock(plan, test, starts) {
        Some(lock) => lock_wait_on(alloc, plan, test, starts, lock),
        None => Ok(None),
    }
}

fn lock_wait_on(
    alloc: Global,
    plan: &Plan,
    test: &PlanTest,
    starts: &[OpenStart],
    lock: &Name,
) -> Result<Option<Wait>, NoMemory>
    ensures { IfOk result
        (λ wait. wait ≡ Waits.lock_wait_on plan.now.tests test.now (runs starts.now) lock.now) }
{
    match least_on(plan, test, starts, lock) {
        Some(number) => Ok(Some(Wait::Lock {
            name: lock.copy(alloc)?,
            test: number,
        })),
        None => Ok(None),
    }
}

/// Returns the least of the test's locks on which one of these starts excludes it.
fn least_lock<'a>(plan: &Plan, test: &'a PlanTest, starts: &[OpenStart]) -> Option<&'a Name>
    ensures { option_copied result ≡ Waits.least_lock plan.now.tests test.now (runs starts.now) }
{
    let least = least_of(plan, test, starts, test.locks.as_slice(), None);
    least_of(plan, test, starts, test.shared.as_slice(), least)
}

/// Returns the least of these locks on which one of these starts excludes the test, if it is less than
/// `least`.
fn least_of<'a>(
    plan: &Plan,
    test: &PlanTest,
    starts: &[OpenStart],
    locks: &'a [Name],
    least: Option<&'a Name>,
) -> Option<&'a Name>
    ensures { option_copied result ≡ fold Waits.lesser_name (option_copied least.entry)
        (filter (Waits.is_excluded_on plan.now.tests test.now (runs starts.now)) locks.now) }
{
    let mut least = least;
    for at in 0..locks.len() {
        let lock = &locks[at];
        if is_excluded_on(plan, test, starts, lock) {
            least = lesser_name(least, lock);
        }
    }
    least
}

/// Returns the lesser one of two names, in byte order, where there is a first one.
fn lesser_name<'a>(least: Option<&'a Name>, name: &'a Name) -> Option<&'a Name>
    ensures { option_copied result ≡ Waits.lesser_name (option_copied least.entry) name.now }
{
    match least {
        Some(other) => {
            if name.bytes().cmp(&other.bytes()).is_lt() {
                Some(name)
            } else {
                Some(other)
            }
        }
        None => Some(name),
    }
}

/// Returns whether one of these starts excludes the test on a lock.
fn is_excluded_on(plan: &Plan, test: &PlanTest, starts: &[OpenStart], lock: &Name) -> bool
    ensures { result ≡ Waits.is_excluded_on plan.now.tests test.now (runs starts.now) lock.now }
{
    for at in 0..starts.len() {
        if excludes_on(plan, test, starts[at].test, lock) {
            return true;
        }
    }
    false
}

/// Returns the least test of these starts that excludes the test on a lock.
fn least_on(plan: &Plan, test: &PlanTest, starts: &[OpenStart], lock: &Name) -> Option<u32>
    ensures { result ≡ Waits.least_open
        (λ x. Waits.exclude_on lock.now (Some test.now) (test_at plan.now.tests x)) (runs starts.now) }
{
    let mut least = None;
    for at in 0..starts.len() {
        let number = starts[at].test;
        if excludes_on(plan, test, number, lock) {
            least = lesser(least, number);
        }
    }
    least
}

/// Returns whether the test with this number excludes a test on a lock.
fn excludes_on(plan: &Plan, test: &PlanTest, number: u32, lock: &Name) -> bool
    ensures { result ≡ Waits.exclude_on lock.now (Some test.now) (test_at plan.now.tests number) }
{
    match planned_test(plan, number) {
        Some(other) => exclude_on(lock, test, other),
        None => false,
    }
}

/// Returns whether two tests exclude each other on a lock: both name it, and one of them holds it alone.
fn exclude_on(lock: &Name, test: &PlanTest, other: &PlanTest) -> bool
    ensures { result ≡ Waits.exclude_on lock.now (Some test.now) (Some other.now) }
{
    (holds(test, lock) && names(other, lock)) || (names(test, lock) && holds(other, lock))
}

/// Returns whether a test holds a lock alone.
fn holds(test: &PlanTest, lock: &Name) -> bool
    ensures { result ≡ Waits.holds_lock lock.now (Some test.now) }
{
    is_among(lock, test.locks.as_slice())
}

/// Returns whether a test holds a lock alone, or shares it.
fn names(test: &PlanTest, lock: &Name) -> bool
    ensures { result ≡ Waits.names lock.now (Some test.now) }
{
    holds(test, lock) || is_among(lock, test.shared.as_slice())
}
