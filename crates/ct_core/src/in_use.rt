ghost use Rattle.std.specs.Prelude.{◌≡◌, ℕ, ◌+◌, ◌-◌, ◌||◌, [], IfOk, nat_le};
ghost use Rattle.std.specs.List.{list_any};
ghost use Rattle.std.specs.Option.{option_copied};
ghost use Rattle.ct_history.specs.History.{placed_slots};
ghost use Rattle.ct_alloc.specs.Lent.{lent};
ghost use Rattle.ct_core.specs.Slots.{used_of};
ghost use Rattle.ct_core.specs.InUse.{CanGive, CanTake, GivesBack, HasFreeFor, HasTaken, IsInUse, Takes, has_room_beside, is_closed, is_excluded_beside, is_locked};

use crate::both::both;
use crate::locks::{Locks, none_held};
use crate::sharers::{Sharers, none_share};
use ct_alloc::{Free, Placement};
use ct_base::{Name, NoMemory};
use ct_history::{PlanParts, PlanTest};
use std::alloc::Global;

/// What the open starts of a run use together.
///
/// Source: CMake manual, cmake-properties(7), PROCESSORS,
/// RESOURCE_LOCK, RUN_SERIAL; ctest(1), Resource Allocation.
#[derive(Drop)]
pub(crate) struct InUse {
    pub(crate) processors: u64,
    pub(crate) open_count: usize,
    /// Whether a serial test is open.
    pub(crate) serial: bool,
    /// The locks, and which of them an open test holds alone.
    pub(crate) locks: Locks,
    pub(crate) sharers: Sharers,
    /// What is free of the plan's resources, if they are given.
    pub(crate) free: Option<Free>,
}

/// Makes the value of a run in which nothing is in use yet.
pub(crate) fn nothing(alloc: Global, plan: &PlanParts) -> Result<InUse, NoMemory>
    ensures { IfOk result (λ in_use. IsInUse plan.now [] in_use) }
{
    let locks = none_held(alloc, plan.tests.as_slice())?;
    let known = both(locks, none_share(alloc, plan.tests.as_slice()))?;
    let ((locks, sharers), free) = both(known, all_free(alloc, plan))?;
    Ok(InUse {
        processors: 0,
        open_count: 0,
        serial: false,
        locks,
        sharers,
        free,
    })
}

/// Copies the plan's resources, if there are any. It also returns
/// `NoMemory` if there are more resources than 32-bit places can name.
fn all_free(alloc: Global, plan: &PlanParts) -> Result<Option<Free>, NoMemory>
    ensures whole { IfOk result (λ free. lent free ≡ plan.now.resources) }
    ensures unused { IfOk result (λ free. (place : ℕ) → used_of free place ≡ 0) }
{
    let Some(resources) = &plan.resources else {
        return Ok(None);
    };
    if resources.len() >= u32::MAX as usize {
        return Err(NoMemory);
    }
    Ok(Some(Free::all(alloc, resources)?))
}

impl InUse {
    /// Returns whether there are processors for a test, and no open test excludes it.
    pub(crate) fn has_room(&self, level: u32, test: &PlanTest) -> bool
        ensures { result ≡ has_room_beside level self.now test.now }
    {
        self.has_processors(level, test.processors) && !self.excludes(test)
    }

    /// Returns whether no further test can start before an attempt
    /// ends: all processors are in use, or a serial test runs.
    pub(crate) fn is_full(&self, level: u32) -> bool
        ensures { result ≡ (nat_le level self.now.processors || self.now.serial) }
    {
        self.processors >= u64::from(level) || self.serial
    }

    fn has_processors(&self, level: u32, processors: u32) -> bool
        ensures { result ≡ nat_le (processors + self.now.processors) level }
    {
        processors <= level && self.processors <= u64::from(level - processors)
    }

    fn excludes(&self, test: &PlanTest) -> bool
        ensures { result ≡ is_excluded_beside self.now test.now }
    {
        self.serial
            || test.serial && self.open_count > 0
            || self.is_any_taken(test.locks.as_slice())
            || self.locks.is_any_held(test.shared.as_slice())
    }

    fn is_any_taken(&self, locks: &[Name]) -> bool
        ensures { result ≡ list_any (is_locked self.now) locks.now }
    {
        locks.iter().any(|lock| self.is_locked(lock))
    }

    /// Returns whether this lock is closed to a test that is to hold it alone, or else to share it.
    pub(crate) fn is_closed(&self, alone: bool, lock: &Name) -> bool
        ensures { result ≡ is_closed self.now alone lock.now }
    {
        if alone {
            self.is_locked(lock)
        } else {
            self.locks.is_held(lock)
        }
    }

    /// Returns whether an open test holds this lock alone or shares it.
    fn is_locked(&self, lock: &Name) -> bool
        ensures { result ≡ is_locked self.now lock.now }
    {
        self.locks.is_held(lock) || self.sharers.is_shared(lock)
    }

    /// Adds what a test with this placement needs to what is in use.
    pub(crate) fn take(&mut self, test: &PlanTest, placement: Option<&Placement>)
        requires { CanTake test.now (option_copied placement) self.old }
        ensures { Takes test.now (option_copied placement.entry) self.old self.new }
    {
        self.processors += u64::from(test.processors);
        self.open_count += 1;
        self.serial = self.serial || test.serial;
        self.locks.hold(test.locks.as_slice());
        self.sharers.share(test.shared.as_slice());
        take_slots(&mut self.free, placement);
    }

    /// Takes what a test with this placement used away from what is in use.
    pub(crate) fn give(&mut self, test: &PlanTest, placement: Option<&Placement>)
        requires { CanGive test.now (option_copied placement) self.old }
        ensures { GivesBack test.now (option_copied placement.entry) self.old self.new }
    {
        self.processors -= u64::from(test.processors);
        self.open_count -= 1;
        self.serial = self.serial && !test.serial;
        self.locks.release(test.locks.as_slice());
        self.sharers.leave(test.shared.as_slice());
        give_slots(&mut self.free, placement);
    }
}

fn take_slots(free: &mut Option<Free>, placement: Option<&Placement>)
    requires { HasFreeFor free.old (option_copied placement) }
    ensures kept { lent free.new ≡ lent free.old }
    ensures used { (place : ℕ) → used_of free.new place
        ≡ used_of free.old place + placed_slots place (option_copied placement.entry) }
{
    if let Some(free) = free {
        if let Some(placement) = placement {
            free.take(placement);
        }
    }
}

fn give_slots(free: &mut Option<Free>, placement: Option<&Placement>)
    requires { HasTaken free.old (option_copied placement) }
    ensures kept { lent free.new ≡ lent free.old }
    ensures used { (place : ℕ) → used_of free.new place
        ≡ used_of free.old place - placed_slots place (option_copied placement.entry) }
{
    if let Some(free) = free {
        if let Some(placement) = placement {
            free.give(placement);
        }
    }
}
