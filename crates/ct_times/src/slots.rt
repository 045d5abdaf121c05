ghost use Rattle.std.specs.Prelude.{◌≡◌, ◌≤◌, ◌<◌, [], ◌∷◌, ◌++◌, IfOk, OnOk, filter, flat_map, get_or, length, map};
ghost use Rattle.ct_history.specs.declared.plan.PlanTest.{PlanTest};
ghost use Rattle.ct_times.specs.Amounts.{blocks};
ghost use Rattle.ct_times.specs.Bounds as Bounds;
ghost use Rattle.ct_times.specs.Bounds.{IsMeasured, done_by};
ghost use Rattle.ct_times.specs.First as First;
ghost use Rattle.ct_times.specs.First.{AreSortedOnce, Covers, CoversSlots, compare_slots, has_block, slot_capacity};
ghost use Rattle.ct_times.specs.Asked.{as_slots, slots_of_test};

use crate::amounts::{blocks_in, bound_by};
use crate::bounds::{Bound, Capacity};
use crate::greatest::greater;
use crate::works::Works;
use ct_base::{Name, Need, NoMemory, Resource};
use ct_history::{PlanParts, PlanTest};
use std::alloc::Global;

/// A kind of resources, and a count of slots that may be a block of them.
#[derive(Clone, Copy, PartialEq, Eq, PartialOrd, Ord)]
pub(crate) struct Asked<'a> {
    kind: &'a [u8],
    block: u32,
}

/// Takes the slots of a kind, in blocks, in place of this bound, if they have a greater one: the first kind
/// by its bytes, then the least block.
pub(crate) fn or_slots(
    alloc: Global,
    plan: &PlanParts,
    works: &Works,
    bound: Bound,
) -> Result<Bound, NoMemory>
    requires { IsMeasured plan.now (done_by works.now) bound }
    ensures measured { IfOk result (IsMeasured plan.now (done_by works.now)) }
    ensures grew { IfOk result (λ greater. bound.micros ≤ greater.micros) }
    ensures first { IfOk result (CoversSlots plan.now (done_by works.now) bound) }
{
    let asked = in_order(alloc, plan)?;
    let bound = or_each(alloc, plan, works, asked.as_slice(), bound)?;
    Ok(bound)
}

/// Takes the first of these kinds and counts with the greatest bound in place of this one, if that is
/// greater.
fn or_each(
    alloc: Global,
    plan: &PlanParts,
    works: &Works,
    asked: &[Asked<'_>],
    bound: Bound,
) -> Result<Bound, NoMemory>
    requires { IsMeasured plan.now (done_by works.now) bound }
    ensures measured { IfOk result (IsMeasured plan.now (done_by works.now)) }
    ensures grew { IfOk result (λ greater. bound.micros ≤ greater.micros) }
    ensures first { IfOk result (Covers plan.now (done_by works.now) bound
        (map slot_capacity (filter (has_block plan.now) (map as_slots asked.now)))) }
{
    let mut most = bound;
    for at in 0..asked.len() {
        most = or_block(alloc, plan, works, asked_at(asked, at), most)?;
    }
    Ok(most)
}

/// Lends the kind and count at a place.
fn asked_at<'b, 'a>(asked: &'b [Asked<'a>], at: usize) -> &'b Asked<'a>
    requires { at < length asked.now }
    ensures { result.now ≡ get_or asked.now at result.now }
{
    &asked[at]
}

/// Takes the blocks of a kind in place of this bound, if there are some, and they have a greater one.
fn or_block(
    alloc: Global,
    plan: &PlanParts,
    works: &Works,
    slots: &Asked<'_>,
    bound: Bound,
) -> Result<Bound, NoMemory>
    requires { IsMeasured plan.now (done_by works.now) bound }
    ensures measured { IfOk result (IsMeasured plan.now (done_by works.now)) }
    ensures grew { IfOk result (λ greater. bound.micros ≤ greater.micros) }
    ensures first { IfOk result (Covers plan.now (done_by works.now) bound
        (map slot_capacity (filter (has_block plan.now) (as_slots slots.now ∷ [])))) }
{
    let size = blocks_of_kind(resources_of(plan), slots)?;
    if slots.block == 0 || size == 0 {
        return Ok(bound);
    }
    let capacity = Capacity::Slots {
        kind: Name::of(alloc, slots.kind)?,
        block: slots.block,
    };
    Ok(greater(bound, bound_by(plan, works, capacity, size)))
}

/// Lends the resources of a plan.
fn resources_of(plan: &PlanParts) -> &[Resource]
    ensures { result.now ≡ Bounds.plan_resources plan.now }
{
    match &plan.resources {
        Some(resources) => resources.as_slice(),
        None => &[],
    }
}

/// Returns how many blocks of a kind these resources hold. A count above 64 bits is of more resources than
/// memory holds.
fn blocks_of_kind(resources: &[Resource], slots: &Asked<'_>) -> Result<u64, NoMemory>
    ensures { IfOk result (λ size. size ≡ blocks slots.now.kind.now slots.now.block resources.now) }
{
    let mut blocks: u64 = 0;
    for resource in resources {
        let Some(more) = blocks.checked_add(blocks_held(slots, resource)) else {
            return Err(NoMemory);
        };
        blocks = more;
    }
    Ok(blocks)
}

/// Returns how many blocks of a kind a resource holds.
fn blocks_held(slots: &Asked<'_>, resource: &Resource) -> u64
    ensures { result ≡ Bounds.blocks_held slots.now.kind.now slots.now.block resource.now }
{
    if resource.kind.bytes() == slots.kind {
        u64::from(blocks_in(resource.slots, slots.block))
    } else {
        0
    }
}

/// Lists the kinds with the counts of slots that may be blocks, in order, each once.
fn in_order(alloc: Global, plan: &PlanParts) -> Result<Vec<Asked<'_>>, NoMemory>
    ensures { IfOk result
        (λ asked. AreSortedOnce compare_slots (First.counts_asked plan.now) (map as_slots asked.items)) }
{
    let mut asked = Vec::new(alloc);
    ask_kinds(&mut asked, resources_of(plan))?;
    ask_tests(&mut asked, plan.tests.as_slice())?;
    asked.sort_unstable();
    asked.dedup();
    Ok(asked)
}

/// Adds the kind of each of these resources, in blocks of 1.
fn ask_kinds<'a>(asked: &mut Vec<Asked<'a>>, resources: &'a [Resource]) -> Result<(), NoMemory>
    ensures { OnOk result
        (map as_slots asked.new.items ≡ map as_slots asked.old.items ++ map First.slot_of resources.now) }
{
    for resource in resources {
        let kind = resource.kind.bytes();
        asked.push(Asked { kind, block: 1 })?;
    }
    Ok(())
}

/// Adds what these tests need.
fn ask_tests<'a>(asked: &mut Vec<Asked<'a>>, tests: &'a [PlanTest]) -> Result<(), NoMemory>
    ensures { OnOk result
        (map as_slots asked.new.items ≡ map as_slots asked.old.items ++ flat_map slots_of_test tests.now) }
{
    for test in tests {
        ask_needs(asked, test.needs.as_slice())?;
    }
    Ok(())
}

/// Adds these needs.
fn ask_needs<'a>(asked: &mut Vec<Asked<'a>>, needs: &'a [Need]) -> Result<(), NoMemory>
    ensures { OnOk result
        (map as_slots asked.new.items ≡ map as_slots asked.old.items ++ map First.slots_of needs.now) }
{
    for need in needs {
        let kind = need.kind.bytes();
        asked.push(Asked {
            kind,
            block: need.slots,
        })?;
    }
    Ok(())
}
