ghost use Rattle.std.specs.Prelude.{◌≡◌, ◌≤◌, ◌<◌, ◌++◌, ◌-◌, ◌^◌, ℕ, List as Bytes, IfOk, OnOk, bytes_eq, get_or, length, map, min, option_map, if◌then◌else◌};
ghost use Rattle.std.specs.Borrow.{Bor};
ghost use Rattle.std.specs.Ordering.{nat_cmp};
ghost use Rattle.std.specs.Cmp.Lexicographic.{slice_cmp};
ghost use Rattle.ct_base.specs.Names.{is_among};
ghost use Rattle.ct_history.specs.declared.plan.PlanTest.{PlanTest};
ghost use Rattle.ct_history.specs.Plan.{IsSound};
ghost use Rattle.ct_times.specs.Bounds.{IsMeasured, done_by};
ghost use Rattle.ct_times.specs.Bounds as Bounds;
ghost use Rattle.ct_times.specs.First as First;
ghost use Rattle.ct_times.specs.First.{AreSortedOnce, Covers, CoversLocks, IsFirstIfAny, lock_with};
ghost use Rattle.ct_times.specs.Locks as Locks;
ghost use Rattle.ct_times.specs.Locks.{IsLockWork, lock_at};

use crate::amounts::{bound_by, is_lone, ran_beside};
use crate::bounds::{Bound, Capacity};
use crate::greatest::greater;
use crate::works::{Works, ran, work_at};
use ct_base::{List, Name, NoMemory};
use ct_history::{PlanParts, PlanTest};
use indexmap::IndexMap;
use std::alloc::Global;

/// The work of each lock, by its bytes.
type LockWorks<'a> = IndexMap<&'a [u8], LockWork>;

/// What the tests beside others take of a lock.
#[derive(Clone, Copy)]
pub(crate) struct LockWork {
    /// The work of those that hold it alone.
    alone: u128,
    /// The last of those, 0 without one.
    holder: u32,
    /// The one with the greatest work that shares it, 0 without one.
    sharer: u32,
    /// The work of that one.
    shared: u128,
    /// What that one adds: its work, unless it holds the lock alone too.
    added: u128,
}

/// Takes the longest lock in place of this bound, if there is one, and it has a greater one: of those that a
/// test beside others holds alone, the first one by its bytes, with the test that shares it.
pub(crate) fn or_lock(
    alloc: Global,
    plan: &PlanParts,
    works: &Works,
    bound: Bound,
) -> Result<Bound, NoMemory>
    requires sound { IsSound plan.now }
    requires measured { IsMeasured plan.now (done_by works.now) bound }
    ensures measured { IfOk result (IsMeasured plan.now (done_by works.now)) }
    ensures grew { IfOk result (λ greater. bound.micros ≤ greater.micros) }
    ensures first { IfOk result (CoversLocks plan.now (done_by works.now) bound) }
{
    let held = locks_held(alloc, plan, works)?;
    let locks = lock_works(alloc, plan, works)?;
    let bound = or_longest(alloc, plan, works, held.as_slice(), &locks, bound)?;
    Ok(bound)
}

/// Takes the first of these locks with the greatest bound in place of this one, if that is greater.
fn or_longest(
    alloc: Global,
    plan: &PlanParts,
    works: &Works,
    held: &[&[u8]],
    locks: &LockWorks<'_>,
    bound: Bound,
) -> Result<Bound, NoMemory>
    requires measured { IsMeasured plan.now (done_by works.now) bound }
    requires locks { (lock : Bytes ℕ) →
        IsLockWork plan.now.level (done_by works.now) lock plan.now.tests (lock_at locks.now lock) }
    ensures measured { IfOk result (IsMeasured plan.now (done_by works.now)) }
    ensures grew { IfOk result (λ greater. bound.micros ≤ greater.micros) }
    ensures first { IfOk result (Covers plan.now (done_by works.now) bound
        (map (lock_with (λ lock. Locks.sharer_in (lock_at locks.now lock)))
        (map (λ (name : Bor (Bytes ℕ)). name.now) held.now))) }
{
    let lone = lone_work(plan.level, works, plan.tests.as_slice());
    let Some(name) = longest(held, locks, lone) else {
        return Ok(bound);
    };
    let capacity = Capacity::Lock {
        name: Name::of(alloc, name)?,
        sharer: sharer_in(work_of(locks, name)),
    };
    Ok(greater(bound, bound_by(plan, works, capacity, 1)))
}

/// Lists the locks that tests beside others hold alone, in order of their bytes, each once.
fn locks_held<'a>(
    alloc: Global,
    plan: &'a PlanParts,
    works: &Works,
) -> Result<Vec<&'a [u8]>, NoMemory>
    ensures { IfOk result
        (λ held. AreSortedOnce (slice_cmp nat_cmp) (First.locks_held plan.now (done_by works.now))
        (map (λ (name : Bor (Bytes ℕ)). name.now) held.items)) }
{
    let mut held = Vec::new(alloc);
    for test in plan.tests.as_slice() {
        if ran_beside(plan.level, works, test) {
            push_names(&mut held, test.locks.as_slice())?;
        }
    }
    held.sort_unstable();
    held.dedup();
    Ok(held)
}

/// Adds the bytes of these names.
fn push_names<'a>(held: &mut Vec<&'a [u8]>, names: &'a [Name]) -> Result<(), NoMemory>
    ensures { OnOk result (map (λ (name : Bor (Bytes ℕ)). name.now) held.new.items
        ≡ map (λ (name : Bor (Bytes ℕ)). name.now) held.old.items ++ names.now) }
{
    for name in names {
        held.push(name.bytes())?;
    }
    Ok(())
}

/// Finds the lock that keeps the tests the longest: the first of these with the greatest bound.
fn longest<'a>(held: &[&'a [u8]], locks: &LockWorks<'_>, lone: u128) -> Option<&'a [u8]>
    ensures { IsFirstIfAny (λ lock. Locks.lock_micros lone (lock_at locks.now lock))
        (map (λ (name : Bor (Bytes ℕ)). name.now) held.now)
        (option_map (λ (name : Bor (Bytes ℕ)). name.now) result) }
{
    let mut found = None;
    let mut most = None;
    for at in 0..held.len() {
        let name = name_at(held, at);
        let micros = lock_micros(lone, work_of(locks, name));
        if is_above(micros, most) {
            found = Some(name);
            most = Some(micros);
        }
    }
    found
}

/// Lends the name at a place.
fn name_at<'a>(names: &[&'a [u8]], at: usize) -> &'a [u8]
    requires { at < length names.now }
    ensures { result ≡ get_or names.now at result }
{
    names[at]
}

/// Returns whether a number is above another one, if there is another one.
fn is_above(number: u128, other: Option<u128>) -> bool
    ensures { result ≡ Locks.is_above number other }
{
    match other {
        Some(other) => other < number,
        None => true,
    }
}

/// Returns how long a lock keeps the tests, beside the work of lone tests.
fn lock_micros(lone: u128, lock: LockWork) -> u128
    ensures { result ≡ Locks.lock_micros lone lock }
{
    lone.saturating_add(lock.alone).saturating_add(lock.added)
}

/// Adds up the work of the lone tests.
fn lone_work(level: u32, works: &Works, tests: &[PlanTest]) -> u128
    ensures { result ≡ min (Locks.lone_work level (done_by works.now) tests.now) (2 ^ 128 - 1) }
{
    let mut lone: u128 = 0;
    for test in tests {
        lone = lone.saturating_add(lone_of(level, works, test));
    }
    lone
}

/// Returns what a test did alone in the plan.
fn lone_of(level: u32, works: &Works, test: &PlanTest) -> u128
    ensures { result ≡ Locks.lone_of level (done_by works.now) test.now }
{
    if ran(works, test.number) && is_lone(level, test) {
        work_at(works, test.number)
    } else {
        0
    }
}

/// Returns the test of those sharing a lock that counts for it.
fn sharer_in(lock: LockWork) -> Option<u32>
    ensures { result ≡ Locks.sharer_in lock }
{
    if lock.sharer == 0 {
        None
    } else {
        Some(lock.sharer)
    }
}

/// Adds up the work of each lock.
fn lock_works<'a>(
    alloc: Global,
    plan: &'a PlanParts,
    works: &Works,
) -> Result<LockWorks<'a>, NoMemory>
    requires { IsSound plan.now }
    ensures { IfOk result (λ locks. (lock : Bytes ℕ) →
        IsLockWork plan.now.level (done_by works.now) lock plan.now.tests (lock_at locks lock)) }
{
    let mut locks: LockWorks<'a> = IndexMap::new(alloc);
    for test in plan.tests.as_slice() {
        add_test(&mut locks, plan.level, works, test)?;
    }
    Ok(locks)
}

/// Adds what a test takes of its locks, if it ran and is not lone.
fn add_test<'a>(
    locks: &mut LockWorks<'a>,
    level: u32,
    works: &Works,
    test: &'a PlanTest,
) -> Result<(), NoMemory>
    ensures { OnOk result ((lock : Bytes ℕ) → lock_at locks.new lock
        ≡ Locks.lock_with_test level (done_by works.now) lock test.now (lock_at locks.old lock)) }
{
    if ran_beside(level, works, test) {
        let work = work_at(works, test.number);
        hold_each(locks, &test.locks, test.number, work)?;
        share_each(locks, &test.shared, test.number, work)?;
    }
    Ok(())
}

/// Adds a test to each of the locks that it holds alone, once to each.
fn hold_each<'a>(
    locks: &mut LockWorks<'a>,
    names: &'a List<Name>,
    test: u32,
    work: u128,
) -> Result<(), NoMemory>
    ensures { OnOk result ((lock : Bytes ℕ) → lock_at locks.new lock
        ≡ Locks.held_if (is_among lock names.now) (lock_at locks.old lock) test work) }
{
    for name in names.as_slice() {
        let lock = name.bytes();
        let held = held_by(work_of(locks, lock), test, work);
        put(locks, lock, held)?;
    }
    Ok(())
}

/// Adds a test that holds a lock alone, unless it is the last one that was added.
fn held_by(lock: LockWork, test: u32, work: u128) -> LockWork
    ensures { result ≡ Locks.held_with lock test work }
{
    if lock.holder == test {
        return lock;
    }
    LockWork {
        alone: lock.alone.saturating_add(work),
        holder: test,
        ..lock
    }
}

/// Offers a test to each of the locks that it shares.
fn share_each<'a>(
    locks: &mut LockWorks<'a>,
    names: &'a List<Name>,
    test: u32,
    work: u128,
) -> Result<(), NoMemory>
    ensures { OnOk result ((lock : Bytes ℕ) → lock_at locks.new lock
        ≡ Locks.shared_if (is_among lock names.now) (lock_at locks.old lock) test work) }
{
    for name in names.as_slice() {
        let lock = name.bytes();
        let shared = shared_by(work_of(locks, lock), test, work);
        put(locks, lock, shared)?;
    }
    Ok(())
}

/// Takes a test as the one that shares a lock, if its work is the greatest so far.
fn shared_by(lock: LockWork, test: u32, work: u128) -> LockWork
    ensures { result ≡ Locks.shared_with lock test work }
{
    if lock.sharer != 0 && work <= lock.shared {
        return lock;
    }
    LockWork {
        sharer: test,
        shared: work,
        added: if lock.holder == test { 0 } else { work },
        ..lock
    }
}

/// Looks up the work of a lock, which is none without an entry.
fn work_of(locks: &LockWorks<'_>, name: &[u8]) -> LockWork
    ensures { result ≡ lock_at locks.now name.now }
{
    match locks.get(name) {
        Some(work) => *work,
        None => LockWork {
            alone: 0,
            holder: 0,
            sharer: 0,
            shared: 0,
            added: 0,
        },
    }
}

/// Notes the work of a lock.
fn put<'a>(locks: &mut LockWorks<'a>, name: &'a [u8], work: LockWork) -> Result<(), NoMemory>
    ensures { OnOk result ((lock : Bytes ℕ) → lock_at locks.new lock
        ≡ (if bytes_eq lock name.now then work else lock_at locks.old lock)) }
{
    locks.insert(name, work)?;
    Ok(())
}
