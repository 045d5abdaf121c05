ghost use Rattle.std.specs.Prelude.{◌≡◌, ◌+◌, ◌-◌, ◌^◌, min, nat_le, Some};
ghost use Rattle.std.specs.Option.{option_copied};
ghost use Rattle.ct_alloc.specs.Placement as Placing;
ghost use Rattle.ct_history.specs.Course.{runs};
ghost use Rattle.ct_history.specs.History.{placed_slots};
ghost use Rattle.ct_history.specs.Rules as Rules;
ghost use Rattle.ct_history.specs.Seen.{slots_used};

use crate::open_start::{OpenStart, used_slots};
use crate::{PlanParts, PlanTest};
use ct_alloc::{Pick, Placement};
use ct_base::{Need, Resource};

/// Returns whether a placement is right for a test, beside the slots that the open starts use.
pub(crate) fn is_placed(
    plan: &PlanParts,
    test: &PlanTest,
    placement: Option<&Placement>,
    running: &[OpenStart],
) -> bool
    ensures { result ≡ Rules.is_placed plan.now.resources test.now.needs
        (slots_used (runs running.now)) (option_copied placement.entry) }
{
    match &plan.resources {
        Some(resources) => {
            is_placed_on(
                resources.as_slice(),
                test.needs.as_slice(),
                placement,
                running,
            )
        }
        None => placement.is_none(),
    }
}

fn is_placed_on(
    resources: &[Resource],
    needs: &[Need],
    placement: Option<&Placement>,
    running: &[OpenStart],
) -> bool
    ensures { result ≡ Rules.is_placed (Some resources.now) needs.now
        (slots_used (runs running.now)) (option_copied placement.entry) }
{
    if needs.is_empty() {
        return placement.is_none();
    }
    match placement {
        Some(placement) => {
            let picks = placement.picks.as_slice();
            is_placement(resources, needs, picks) && fits_beside(resources, running, picks)
        }
        None => false,
    }
}

/// Returns whether picks are a placement for the needs on these resources.
///
/// Source: CMake manual, ctest(1), Resource Allocation.
fn is_placement(resources: &[Resource], needs: &[Need], picks: &[Pick]) -> bool
    ensures { result ≡ Placing.is_placement resources.now needs.now picks.now }
{
    if needs.len() != picks.len() {
        return false;
    }
    for at in 0..needs.len() {
        if !meets(resources, &needs[at], &picks[at]) {
            return false;
        }
    }
    true
}

fn meets(resources: &[Resource], need: &Need, pick: &Pick) -> bool
    ensures { result ≡ Placing.meets resources.now need.now pick.now }
{
    need.group == pick.group
        && need.kind.is(&pick.kind)
        && need.slots == pick.slots
        && names_resource(pick, resources.get(pick.resource as usize))
}

fn names_resource(pick: &Pick, resource: Option<&Resource>) -> bool
    ensures { result ≡ Placing.names_resource pick.now (option_copied resource.entry) }
{
    match resource {
        Some(resource) => resource.kind.is(&pick.kind) && resource.id.is(&pick.id),
        None => false,
    }
}

fn fits_beside(resources: &[Resource], running: &[OpenStart], picks: &[Pick]) -> bool
    ensures { result ≡ Placing.fits_beside resources.now (slots_used (runs running.now)) picks.now }
{
    for place in 0..resources.len() {
        if !has_slots(&resources[place], place, running, picks) {
            return false;
        }
    }
    true
}

/// Returns whether a resource, counted from 0, has slots for picks beside what the open starts use.
fn has_slots(resource: &Resource, place: usize, running: &[OpenStart], picks: &[Pick]) -> bool
    ensures { result ≡
        nat_le (slots_used (runs running.now) place + Placing.slots_at place picks.now) resource.now.slots }
{
    let used = used_slots(running, place);
    let slots = u64::from(resource.slots);
    used <= slots && slots_at(place, picks) <= slots - used
}

/// Adds up the slots that a placement takes of a resource. A greater sum counts as 2^64 - 1.
pub(crate) fn slots_of(place: usize, placement: Option<&Placement>) -> u64
    ensures { result ≡ min (placed_slots place (option_copied placement.entry)) (2 ^ 64 - 1) }
{
    match placement {
        Some(placement) => slots_at(place, placement.picks.as_slice()),
        None => 0,
    }
}

/// Adds up the slots that picks take of a resource. A greater sum counts as 2^64 - 1.
fn slots_at(place: usize, picks: &[Pick]) -> u64
    ensures { result ≡ min (Placing.slots_at place picks.now) (2 ^ 64 - 1) }
{
    let mut slots: u64 = 0;
    for pick in picks {
        if pick.resource as usize == place {
            slots = slots.saturating_add(u64::from(pick.slots));
        }
    }
    slots
}
