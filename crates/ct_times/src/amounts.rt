ghost use Rattle.std.specs.Prelude.{◌≡◌, ◌-◌, ◌/◌, ◌^◌, ◌≤◌, min, nat_lt};
ghost use Rattle.ct_times.specs.Amounts as Amounts;
ghost use Rattle.ct_times.specs.Bounds as Bounds;
ghost use Rattle.ct_times.specs.Bounds.{IsShare, done_by, work_by};
ghost use Rattle.ct_times.specs.Capacity.{over_up};

use crate::bounds::{Bound, Capacity};
use crate::path::is_on_path;
use crate::share::{Share, no_share, rounded_up, share_more};
use crate::works::{Works, ran, work_at};
use ct_base::{Name, Need, is_among};
use ct_history::{PlanParts, PlanTest};

/// Returns whether a test counts for a bound: it ran, and takes some of the bound's capacity.
///
/// Source: this project's own.
pub fn counts_for(plan: &PlanParts, works: &Works, bound: &Bound, test: &PlanTest) -> bool
    ensures { result ≡ nat_lt 0
        (Bounds.amount_by plan.now.level (done_by works.now) bound.now.capacity bound.now.size test.now) }
{
    let capacity = &bound.capacity;
    amount_of(plan.level, works, capacity, bound.size, test) > 0
}

/// Measures the bound of a capacity: the work of each test times its amount, together, over the size.
pub(crate) fn bound_by(plan: &PlanParts, works: &Works, capacity: Capacity, size: u64) -> Bound
    requires { 1 ≤ size }
    ensures capacity { result.capacity ≡ capacity }
    ensures size { result.size ≡ size }
    ensures micros { result.micros
        ≡ min (over_up (work_by plan.now.level (done_by works.now) capacity size plan.now.tests) size)
        (2 ^ 128 - 1) }
{
    let tests = plan.tests.as_slice();
    let share = shared_by(plan.level, tests, works, &capacity, size);
    let micros = rounded_up(share);
    Bound {
        capacity,
        size,
        micros,
    }
}

/// Adds up the work of each of these tests times its amount, over the size.
fn shared_by(level: u32, tests: &[PlanTest], works: &Works, capacity: &Capacity, size: u64) -> Share
    requires { 1 ≤ size }
    ensures { IsShare result size (work_by level (done_by works.now) capacity.now size tests.now) }
{
    let mut share = no_share();
    for test in tests {
        let amount = amount_of(level, works, capacity, size, test);
        share = share_more(share, work_at(works, test.number), amount, size);
    }
    share
}

/// Returns what a test takes of a capacity of this size: nothing where it did not run, all where it is lone.
fn amount_of(level: u32, works: &Works, capacity: &Capacity, size: u64, test: &PlanTest) -> u64
    ensures { result ≡ Bounds.amount_by level (done_by works.now) capacity.now size test.now }
{
    if !ran(works, test.number) {
        return 0;
    }
    if is_lone(level, test) {
        return size;
    }
    amount_taken(level, capacity, test).min(size)
}

/// Returns whether a test runs alone: it is serial, or takes all processors.
pub(crate) fn is_lone(level: u32, test: &PlanTest) -> bool
    ensures { result ≡ Amounts.is_lone level test.now }
{
    test.serial || level <= test.processors
}

/// Returns whether a test ran, and is not lone.
pub(crate) fn ran_beside(level: u32, works: &Works, test: &PlanTest) -> bool
    ensures { result ≡ Bounds.ran_beside level (done_by works.now) test.now }
{
    ran(works, test.number) && !is_lone(level, test)
}

/// Returns what a test takes of a capacity beside others, at most the greatest number of 64 bits.
fn amount_taken(level: u32, capacity: &Capacity, test: &PlanTest) -> u64
    ensures { result ≡ min (Bounds.amount_taken level capacity.now test.now) (2 ^ 64 - 1) }
{
    match capacity {
        Capacity::Path(path) => one_of(is_on_path(path, test)),
        Capacity::Processors => u64::from(test.processors),
        Capacity::Wide => one_of(is_wide(level, test)),
        Capacity::Lock { name, sharer } => one_of(takes_lock(name, *sharer, test)),
        Capacity::Slots { kind, block } => blocks_taken(kind, *block, test.needs.as_slice()),
    }
}

/// Returns 1 where it holds, else 0.
fn one_of(holds: bool) -> u64
    ensures { result ≡ Amounts.amount_if holds }
{
    if holds { 1 } else { 0 }
}

/// Returns whether a test takes more than half of the processors.
pub(crate) fn is_wide(level: u32, test: &PlanTest) -> bool
    ensures { result ≡ Bounds.is_wide level test.now }
{
    u64::from(level) < 2 * u64::from(test.processors)
}

/// Returns whether a test holds a lock alone, or is the one that shares it.
fn takes_lock(lock: &Name, sharer: Option<u32>, test: &PlanTest) -> bool
    ensures { result ≡ Bounds.takes_lock lock.now sharer test.now }
{
    let number = sharer.unwrap_or(0);
    is_among(lock, test.locks.as_slice())
        || test.number == number && is_among(lock, test.shared.as_slice())
}

/// Returns how many blocks of slots of a kind these needs take, at most the greatest number of 64 bits.
fn blocks_taken(kind: &Name, block: u32, needs: &[Need]) -> u64
    ensures { result ≡ min (Bounds.blocks_taken kind.now block needs.now) (2 ^ 64 - 1) }
{
    let mut blocks: u64 = 0;
    for need in needs {
        blocks = blocks.saturating_add(blocks_needed(kind, block, need));
    }
    blocks
}

/// Returns how many blocks of slots of a kind a need takes.
fn blocks_needed(kind: &Name, block: u32, need: &Need) -> u64
    ensures { result ≡ Bounds.blocks_needed kind.now block need.now }
{
    if need.kind.is(kind) {
        u64::from(blocks_in(need.slots, block))
    } else {
        0
    }
}

/// Returns how many blocks this many slots hold.
pub(crate) fn blocks_in(slots: u32, block: u32) -> u32
    ensures { result ≡ slots / block }
{
    if block == 0 { 0 } else { slots / block }
}
