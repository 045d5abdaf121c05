ghost use Rattle.std.specs.Prelude.{◌≡◌, Some};
ghost use Rattle.ct_base.specs.Names as Among;
ghost use Rattle.ct_history.specs.Rules as Rules;

use crate::PlanTest;
use ct_base::{Name, is_among};

/// Returns whether two tests exclude each other: one locks the other out, or one of them is serial.
///
/// Source: CMake manual, cmake-properties(7), RESOURCE_LOCK, RUN_SERIAL.
#[tactic(auto, unfolding(crate::specs::Rules::exclude))]
pub(crate) fn exclude(test: &PlanTest, other: &PlanTest) -> bool
    ensures { result ≡ Rules.exclude (Some test.now) (Some other.now) }
{
    locks_out(test, other) || locks_out(other, test) || test.serial || other.serial
}

/// Returns whether a lock that the test holds alone is one that the other test holds or shares.
fn locks_out(test: &PlanTest, other: &PlanTest) -> bool
    ensures { result ≡ Rules.locks_out (Some test.now) (Some other.now) }
{
    let locks = test.locks.as_slice();
    shares_name(locks, other.locks.as_slice()) || shares_name(locks, other.shared.as_slice())
}

fn shares_name(names: &[Name], others: &[Name]) -> bool
    ensures { result ≡ Among.shares_name names.now others.now }
{
    names.iter().any(|name| is_among(name, others))
}
