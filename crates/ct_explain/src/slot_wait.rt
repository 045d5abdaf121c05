ghost use Rattle.std.specs.Prelude.{◌≡◌, ◌+◌, ◌-◌, ◌^◌, min, nat_le};
ghost use Rattle.std.specs.Option.{option_copied};
ghost use Rattle.ct_alloc.specs.Placement as Placing;
ghost use Rattle.ct_history.specs.Course.{runs};
ghost use Rattle.ct_history.specs.Seen.{slots_used};
ghost use Rattle.ct_explain.specs.Waits as Waits;

use ct_alloc::{Pick, Placement};
use ct_base::Resource;
use ct_history::{OpenStart, Plan, used_slots};

/// Returns the least place of a resource where a placement does not fit beside what these starts use.
pub(crate) fn full_place(
    plan: &Plan,
    starts: &[OpenStart],
    placement: Option<&Placement>,
) -> Option<usize>
    ensures { result ≡ Waits.full_place plan.now.resources (slots_used (runs starts.now))
        (option_copied placement.entry) }
{
    match (&plan.parts().resources, placement) {
        (Some(resources), Some(placement)) => {
            full_place_of(resources.as_slice(), starts, placement.picks.as_slice())
        }
        _ => None,
    }
}

fn full_place_of(resources: &[Resource], starts: &[OpenStart], picks: &[Pick]) -> Option<usize>
    ensures { result ≡ Waits.full_from 0 resources.now (slots_used (runs starts.now)) picks.now }
{
    for place in 0..resources.len() {
        if !has_slots(&resources[place], place, starts, picks) {
            return Some(place);
        }
    }
    None
}

/// Returns whether a resource, counted from 0, has slots for picks beside what these starts use.
fn has_slots(resource: &Resource, place: usize, starts: &[OpenStart], picks: &[Pick]) -> bool
    ensures { result ≡
        nat_le (slots_used (runs starts.now) place + Placing.slots_at place picks.now) resource.now.slots }
{
    let used = used_slots(starts, place);
    let slots = u64::from(resource.slots);
    used <= slots && slots_at(place, picks) <= slots - used
}

/// Adds up the slots that picks take of a resource. A greater sum counts as 2^64 - 1.
fn slots_at(place: usize, picks: &[Pick]) -> u64
    ensures { result ≡ min (Placing.slots_at place picks.now) (2 ^ 64 - 1) }
{
    let mut slots: u64 = 0;
    for pick in picks {
        if pick.resource as usize == place {
            slots = slots.saturating_add(u64::from(pick.slots));
        }
    }
    slots
}
