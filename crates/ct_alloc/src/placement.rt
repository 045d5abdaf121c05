ghost use Rattle.std.specs.Prelude.{◌≡◌, IfOk};
ghost use Rattle.std.specs.Option.{option_copied};

use ct_base::{List, Name, NoMemory};
use std::alloc::Global;

/// One need of a test, met by one resource.
///
/// Source: CMake manual, ctest(1), Resource Allocation.
#[derive(Debug, Drop)]
pub struct Pick {
    /// The resource group of the need, from 0.
    pub group: u32,
    pub kind: Name,
    /// The id that the specification gives to the resource.
    pub id: Name,
    pub slots: u32,
    /// The place of the resource in the list of resources, from 0.
    pub resource: u32,
}

/// Where the needs of one start are met: one pick for each need, in order.
///
/// Source: CMake manual, ctest(1), Resource Allocation.
#[derive(Debug, Drop)]
pub struct Placement {
    pub picks: List<Pick>,
}

/// Copies a placement, if there is one.
pub fn copy_placement(
    alloc: Global,
    placement: Option<&Placement>,
) -> Result<Option<Placement>, NoMemory>
    ensures { IfOk result (λ copy. copy ≡ option_copied placement.entry) }
{
    match placement {
        Some(placement) => Ok(Some(Placement {
            picks: copy_picks(alloc, placement.picks.as_slice())?,
        })),
        None => Ok(None),
    }
}

fn copy_picks(alloc: Global, picks: &[Pick]) -> Result<List<Pick>, NoMemory>
    ensures { IfOk result (λ copies. copies ≡ picks.now) }
{
    let mut copies = List::new(alloc);
    for pick in picks {
        copies.push(Pick {
            group: pick.group,
            kind: pick.kind.copy(alloc)?,
            id: pick.id.copy(alloc)?,
            slots: pick.slots,
            resource: pick.resource,
        })?;
    }
    Ok(copies)
}
