ghost use Rattle.std.specs.Prelude.{◌≡◌};
ghost use Rattle.ct_times.specs.Bounds.{greater_of};

use crate::bounds::Bound;

/// Returns the greater of two bounds, and the first one where they are equal.
pub(crate) fn greater(one: Bound, other: Bound) -> Bound
    ensures { result ≡ greater_of one other }
{
    if one.micros < other.micros {
        other
    } else {
        one
    }
}
