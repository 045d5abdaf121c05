ghost use Rattle.std.specs.Prelude.{◌≡◌, IfOk, option_map, slice_get};
ghost use Rattle.ct_journal_text.specs.Completed.{IsPlacementAt, of_picks, pick_by, picks_by};

use ct_alloc::{Pick, Placement};
use ct_base::{List, Need, NoMemory, Resource};
use std::alloc::Global;

/// Completes the places of a start to its placement, by the needs of its test and the resources of the plan.
///
/// There is none where the places are too few or too many, or one has no resource of the kind that is needed.
///
/// Source: this project's choice.
pub fn placement_at(
    alloc: Global,
    resources: &[Resource],
    needs: &[Need],
    places: &[u32],
) -> Result<Option<Placement>, NoMemory>
    ensures { IfOk result (λ found. IsPlacementAt resources.now needs.now places.now found) }
{
    Ok(placement_of(alloc, resources, needs, places)?)
}

fn placement_of(
    alloc: Global,
    resources: &[Resource],
    needs: &[Need],
    places: &[u32],
) -> Result<Option<Placement>, NoMemory>
    ensures { IfOk result (λ found. found ≡ option_map of_picks (picks_by resources.now needs.now places.now)) }
{
    match picks_at(alloc, resources, needs, places)? {
        None => Ok(None),
        Some(picks) => Ok(Some(Placement { picks })),
    }
}

fn picks_at(
    alloc: Global,
    resources: &[Resource],
    needs: &[Need],
    places: &[u32],
) -> Result<Option<List<Pick>>, NoMemory>
    ensures { IfOk result (λ found. found ≡ picks_by resources.now needs.now places.now) }
{
    if needs.len() != places.len() {
        return Ok(None);
    }
    let mut picks = List::new(alloc);
    for at in 0..needs.len() {
        match pick_at(alloc, &needs[at], places[at], resources)? {
            None => return Ok(None),
            Some(pick) => picks.push(pick)?,
        }
    }
    Ok(Some(picks))
}

fn pick_at(
    alloc: Global,
    need: &Need,
    place: u32,
    resources: &[Resource],
) -> Result<Option<Pick>, NoMemory>
    ensures { IfOk result (λ pick. pick ≡ pick_by need.now place (slice_get resources.now place)) }
{
    match resources.get(place as usize) {
        None => Ok(None),
        Some(resource) => {
            if !need.kind.is(&resource.kind) {
                return Ok(None);
            }
            Ok(Some(pick_of(alloc, need, place, resource)?))
        }
    }
}

/// Makes the pick that meets a need with a resource, which has this place.
fn pick_of(alloc: Global, need: &Need, place: u32, resource: &Resource) -> Result<Pick, NoMemory>
    ensures { IfOk result (λ pick. pick ≡ record { group = need.now.group; kind = need.now.kind; id = resource.now.id; slots = need.now.slots; resource = place }) }
{
    let kind = need.kind.copy(alloc)?;
    Ok(Pick {
        group: need.group,
        kind,
        id: resource.id.copy(alloc)?,
        slots: need.slots,
        resource: place,
    })
}
