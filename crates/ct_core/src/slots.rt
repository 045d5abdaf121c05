ghost use Rattle.std.specs.Prelude.{IfOk};
ghost use Rattle.std.specs.Option.{option_copied};
ghost use Rattle.ct_core.specs.Slots.{IsPlaceFor};

use ct_alloc::{Free, Placement};
use ct_base::{List, Need, NoMemory};
use std::alloc::Global;

/// The answer to where the needs of a test are met now.
#[derive(Drop)]
pub(crate) enum Place {
    /// No placement for the needs fits beside what is used.
    Nowhere,
    /// This placement meets the needs; `None` if the test wants no placement.
    Here(Option<Placement>),
}

/// Places the needs of a test on what is free, if resources are given and the test has needs.
pub(crate) fn place_for(
    alloc: Global,
    free: Option<&Free>,
    needs: &List<Need>,
) -> Result<Place, NoMemory>
    ensures { IfOk result (λ place. IsPlaceFor (option_copied free.entry) needs.now place) }
{
    let Some(free) = free else {
        return Ok(Place::Here(None));
    };
    if needs.is_empty() {
        return Ok(Place::Here(None));
    }
    match free.place(alloc, needs)? {
        Some(placement) => Ok(Place::Here(Some(placement))),
        None => Ok(Place::Nowhere),
    }
}
