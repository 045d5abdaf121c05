ghost use Rattle.std.specs.Prelude.{◌≡◌, List, ℕ, option_map};
ghost use Rattle.serde_json.specs.View.{view};
ghost use Rattle.ct_spec.specs.Entry.{checked_slots as slots_by, id_in as id_said, is_id as is_id_text, resource_in as resource_said, slots_in as slots_of};
ghost use Rattle.ct_spec.specs.Ids.{AreIds};
ghost use Rattle.ct_spec.specs.Read.{ReadsResources};

use crate::SpecFault;
use crate::ids::Ids;
use ct_base::{MOST_SLOTS, Name, Resource, has_name_bytes};
use serde_json::Value;
use std::alloc::Global;

/// Reads the entry at a place of a kind, behind entries with these ids.
pub(crate) fn resource_in(
    alloc: Global,
    kind: &[u8],
    place: usize,
    ids: &Ids,
    entry: &Value,
) -> Result<Resource, SpecFault>
    ensures { (taken : List (List ℕ)) → AreIds ids.now taken
        → ReadsResources result (resource_said kind.now place taken (view entry.now)) }
{
    // There is no memory for an array of so many entries.
    let Ok(number) = u32::try_from(place) else {
        return Err(SpecFault::NoMemory);
    };
    let Some(id) = id_in(entry) else {
        return Err(SpecFault::BadId {
            kind: Name::of(alloc, kind)?,
            entry: number,
        });
    };
    if ids.has(id) {
        return Err(SpecFault::TwiceId {
            kind: Name::of(alloc, kind)?,
            entry: number,
        });
    }
    let Some(slots) = slots_in(entry) else {
        return Err(SpecFault::BadSlots {
            kind: Name::of(alloc, kind)?,
            entry: number,
        });
    };
    Ok(Resource {
        kind: Name::of(alloc, kind)?,
        id: Name::of(alloc, id)?,
        slots,
    })
}

/// Lends the id of an entry, if it has a valid one.
fn id_in(entry: &Value) -> Option<&[u8]>
    ensures { option_map (λ id. id.now) result ≡ id_said (view entry.now) }
{
    let id = entry.get("id")?.as_str()?.as_bytes();
    if is_id(id) { Some(id) } else { None }
}

fn slots_in(entry: &Value) -> Option<u32>
    ensures { result ≡ slots_of (view entry.now) }
{
    match entry.get("slots") {
        Some(value) => checked_slots(value.as_u64()?),
        None => Some(1),
    }
}

fn checked_slots(slots: u64) -> Option<u32>
    ensures { result ≡ slots_by slots }
{
    if slots <= MOST_SLOTS {
        Some(slots as u32)
    } else {
        None
    }
}

fn is_id(text: &[u8]) -> bool
    ensures { result ≡ is_id_text text.now }
{
    !text.is_empty() && has_name_bytes(text)
}
