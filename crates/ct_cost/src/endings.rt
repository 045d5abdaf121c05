ghost use Rattle.std.specs.Prelude.{◌≡◌};
ghost use Rattle.ct_cost.specs.After.{counted_micros};
ghost use Rattle.ct_cost.specs.Endings.{passed_micros as passed_for, fails_by as failed_for};

use ct_base::MOST_MICROS;
use ct_history::{Course, PlanTest, verdict_by};
use ct_verdict::{Seen, Verdict};

/// Returns the microseconds that a test counts for, if it passed.
pub(crate) fn passed_micros(test: &PlanTest, course: Course) -> Option<u64>
    ensures { result ≡ passed_for test.now course }
{
    match verdict_by(test, course) {
        Some(Verdict::Passed) => Some(counted_micros(course.last())),
        _ => None,
    }
}

fn counted_micros(last: Option<Seen>) -> u64
    ensures { result ≡ counted_micros last }
{
    match last {
        Some(seen) => seen.micros.min(MOST_MICROS),
        None => 0,
    }
}

/// Returns whether a test that is final is of the failing class.
pub(crate) fn fails_by(test: &PlanTest, course: Course) -> bool
    ensures { result ≡ failed_for test.now course }
{
    match verdict_by(test, course) {
        Some(verdict) => verdict.is_failing(),
        None => false,
    }
}
