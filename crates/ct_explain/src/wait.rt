ghost use Rattle.std.specs.Prelude.{◌≡◌, ◌≤◌, ◌<◌, ◌^◌, true, List, IfOk, find, is_none};
ghost use Rattle.std.specs.Option.{option_copied};
ghost use Rattle.ct_history.specs.declared.history.Entry.{Entry};
ghost use Rattle.ct_history.specs.Legal.{is_allowed_so_far};
ghost use Rattle.ct_history.specs.Course.{course_at, runs};
ghost use Rattle.ct_history.specs.Audited.{IsAuditOf};
ghost use Rattle.ct_history.specs.Seen as Seen;
ghost use Rattle.ct_explain.specs.Waits as Waits;

use crate::lock_wait::lock_wait;
use crate::serial_wait::open_serial;
use crate::slot_wait::full_place;
use ct_alloc::Placement;
use ct_base::{Name, NoMemory};
use ct_history::{Audit, OpenStart, Plan, PlanParts, PlanTest, used_processors};
use std::alloc::Global;

/// What a Start waits for.
#[derive(Debug, Drop)]
pub enum Wait {
    /// The attempt of its own test in front of it, by its number.
    Attempt(u32),
    /// A test that has to be final before it, by its number.
    Predecessor(u32),
    /// An open test, by its number: that one or its own runs alone.
    Serial(u32),
    /// The processors that are in use.
    Processors { used: u64 },
    /// A lock that an open test and its own name, and that one of them holds alone.
    Lock { name: Name, test: u32 },
    /// The slots of a resource, which has this place in the plan's list, from 0.
    Resource { place: usize },
    /// Its worker, which has an open start.
    Worker(u32),
    Nothing,
}

/// Returns what a Start of a test of the plan waits for behind the entries that the audit has noted: the
/// first condition of a Start that it does not meet.
///
/// Source: this project's own.
pub(crate) fn wait_of(
    alloc: Global,
    plan: &Plan,
    audit: &Audit,
    test: &PlanTest,
    attempt: u32,
    worker: u32,
    placement: Option<&Placement>,
) -> Result<Wait, NoMemory>
    ensures { (front : List Entry) → IsAuditOf plan.now front audit.now →
        is_allowed_so_far plan.now front ≡ true →
        IfOk result (λ wait. wait
        ≡ Waits.wait_of plan.now front test.now attempt worker (option_copied placement.entry)) }
{
    hand_out_times(plan.parts());
    if !audit.is_next(test.number, attempt) {
        return Ok(Wait::Attempt(attempt.saturating_sub(1)));
    }
    if let Some(number) = unfinished(plan, audit, test) {
        return Ok(Wait::Predecessor(number));
    }
    wait_for_room(alloc, plan, audit.open_starts(), test, worker, placement)
}

/// States in its contract that the most attempts of a test are a number of 32 bits; it changes nothing.
pub(crate) fn hand_out_times(plan: &PlanParts)
    ensures { plan.now.repeat.times < 2 ^ 32 }
{
    let _times = plan.repeat.times;
}

/// Returns the least predecessor of a test that is not final.
fn unfinished(plan: &Plan, audit: &Audit, test: &PlanTest) -> Option<u32>
    ensures { result ≡ find (λ j. is_none (Seen.verdict_by_number plan.now (runs audit.now.running.items)
        (course_at audit.now.courses) j)) test.now.before }
{
    let parts = plan.parts();
    let before = test.before.as_slice();
    before
        .iter()
        .copied()
        .find(|number| audit.verdict_of(parts, *number).is_none())
}

/// Returns what a Start waits for beside these open starts.
fn wait_for_room(
    alloc: Global,
    plan: &Plan,
    starts: &[OpenStart],
    test: &PlanTest,
    worker: u32,
    placement: Option<&Placement>,
) -> Result<Wait, NoMemory>
    ensures { Seen.processors_used plan.now.tests (runs starts.now) ≤ plan.now.level →
        IfOk result (λ wait. wait ≡ Waits.first_wait
        (Waits.waits_beside plan.now (runs starts.now) test.now worker (option_copied placement.entry))) }
{
    if let Some(number) = open_serial(plan, test, starts) {
        return Ok(Wait::Serial(number));
    }
    if let Some(used) = scarce_processors(plan, test, starts) {
        return Ok(Wait::Processors { used });
    }
    if let Some(wait) = lock_wait(alloc, plan, test, starts)? {
        return Ok(wait);
    }
    if let Some(place) = full_place(plan, starts, placement) {
        return Ok(Wait::Resource { place });
    }
    if is_busy(starts, worker) {
        Ok(Wait::Worker(worker))
    } else {
        Ok(Wait::Nothing)
    }
}

/// Returns how many processors these starts use, where the test's own do not suffice beside them.
fn scarce_processors(plan: &Plan, test: &PlanTest, starts: &[OpenStart]) -> Option<u64>
    ensures { Seen.processors_used plan.now.tests (runs starts.now) ≤ plan.now.level →
        result ≡ Waits.scarce_processors plan.now test.now (runs starts.now) }
{
    let parts = plan.parts();
    let used = used_processors(parts.tests.as_slice(), starts);
    let level = u64::from(parts.level);
    if used <= level && u64::from(test.processors) <= level - used {
        None
    } else {
        Some(used)
    }
}

/// Returns whether the worker made one of these starts.
fn is_busy(starts: &[OpenStart], worker: u32) -> bool
    ensures { result ≡ Seen.is_busy_with worker (runs starts.now) }
{
    for at in 0..starts.len() {
        if starts[at].worker == worker {
            return true;
        }
    }
    false
}
