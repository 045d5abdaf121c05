ghost use Rattle.std.specs.Prelude.{◌≡◌, ◌≤◌, IfOk, List};
ghost use Rattle.ct_history.specs.declared.history.Entry.{Entry};
ghost use Rattle.ct_history.specs.Plan.{IsSound};
ghost use Rattle.ct_times.specs.Bounds as Bounds;
ghost use Rattle.ct_times.specs.Bounds.{CoversProcessors, CoversWide, HasThoseThatRan, IsExact, IsMeasured, NoneIsShorter, done_by};
ghost use Rattle.ct_times.specs.First.{Covers, IsFirstOfAll, IsOfHeaviestPath, processor_capacities, wide_capacities};
ghost use Rattle.ct_times.specs.Works.{AreWorks};

use crate::amounts::{bound_by, is_wide, ran_beside};
use crate::greatest::greater;
use crate::locks::or_lock;
use crate::path::{Path, heaviest_path};
use crate::slots::or_slots;
use crate::works::Works;
use ct_base::{Name, NoMemory};
use ct_history::{Plan, PlanParts};
use std::alloc::Global;

/// What the open tests of a run never take more than the size of.
#[derive(Drop)]
pub enum Capacity {
    /// Tests one after the other: these, from the last one back, and the lone tests.
    Path(Path),
    /// The processors of the level.
    Processors,
    /// Tests that take more than half of the processors.
    Wide,
    /// A lock: the tests that hold it alone, and one of those that share it.
    Lock { name: Name, sharer: Option<u32> },
    /// The slots of a kind, in blocks of this many.
    Slots { kind: Name, block: u32 },
}

/// How long the tests of a run take at least, whatever their order.
#[derive(Drop)]
pub struct Bound {
    pub capacity: Capacity,
    pub size: u64,
    pub micros: u128,
}

/// Returns the greatest bound of a run in which the tests of a plan took this work, and its capacity; the
/// first one in the order path, processors, wide tests, locks, slots.
///
/// Source: this project's own.
pub fn bound_of(alloc: Global, plan: &Plan, works: &Works) -> Result<Bound, NoMemory>
    ensures measured { IfOk result (IsMeasured plan.now (done_by works.now)) }
    ensures first { IfOk result (λ bound. IsFirstOfAll plan.now (done_by works.now) bound.capacity) }
    ensures processors { IfOk result (CoversProcessors plan.now (done_by works.now)) }
    ensures wide { IfOk result (CoversWide plan.now (done_by works.now)) }
    ensures exact { IfOk result (λ bound. (recorded : List Entry) → AreWorks works.now recorded →
        HasThoseThatRan works.now recorded → IsExact plan.now recorded bound) }
    ensures shortest { IfOk result (λ bound. (recorded : List Entry) → AreWorks works.now recorded →
        HasThoseThatRan works.now recorded → NoneIsShorter plan.now recorded bound) }
{
    let parts = plan.parts();
    let path = path_bound(alloc, parts, works)?;
    let processors = or_processors(parts, works, path);
    let wide = or_wide(parts, works, processors);
    let lock = or_lock(alloc, parts, works, wide)?;
    let bound = or_slots(alloc, parts, works, lock)?;
    Ok(bound)
}

/// Measures the heaviest path.
fn path_bound(alloc: Global, plan: &PlanParts, works: &Works) -> Result<Bound, NoMemory>
    requires { IsSound plan.now }
    ensures measured { IfOk result (IsMeasured plan.now (done_by works.now)) }
    ensures heaviest { IfOk result (λ bound. IsOfHeaviestPath plan.now (done_by works.now) bound.capacity) }
{
    let path = heaviest_path(alloc, plan, works)?;
    Ok(bound_by(plan, works, Capacity::Path(path), 1))
}

/// Takes the processors in place of this bound, if they have a greater one.
fn or_processors(plan: &PlanParts, works: &Works, bound: Bound) -> Bound
    requires { IsMeasured plan.now (done_by works.now) bound }
    ensures measured { IsMeasured plan.now (done_by works.now) result }
    ensures grew { bound.micros ≤ result.micros }
    ensures covers { CoversProcessors plan.now (done_by works.now) result }
    ensures first { Covers plan.now (done_by works.now) bound (processor_capacities plan.now) result }
{
    if plan.level == 0 {
        return bound;
    }
    let size = u64::from(plan.level);
    greater(bound, bound_by(plan, works, Capacity::Processors, size))
}

/// Takes the wide tests in place of this bound, if there are some that ran, and they have a greater one.
fn or_wide(plan: &PlanParts, works: &Works, bound: Bound) -> Bound
    requires { IsMeasured plan.now (done_by works.now) bound }
    ensures measured { IsMeasured plan.now (done_by works.now) result }
    ensures grew { bound.micros ≤ result.micros }
    ensures covers { CoversWide plan.now (done_by works.now) result }
    ensures first { Covers plan.now (done_by works.now) bound
        (wide_capacities plan.now (done_by works.now)) result }
{
    if !has_wide(plan, works) {
        return bound;
    }
    greater(bound, bound_by(plan, works, Capacity::Wide, 1))
}

/// Returns whether some test that ran and is not lone takes more than half of the processors.
fn has_wide(plan: &PlanParts, works: &Works) -> bool
    ensures { result ≡ Bounds.has_wide plan.now (done_by works.now) }
{
    let level = plan.level;
    let mut tests = plan.tests.as_slice().iter();
    tests.any(|test| ran_beside(level, works, test) && is_wide(level, test))
}
