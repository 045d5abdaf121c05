ghost use Rattle.std.specs.Prelude.{◌≡◌, ◌<◌, ◌^◌, IfOk, IsTrue, None, Some, is_some, length, map, option_map, slice_index_or, true};
ghost use Rattle.std.specs.Option.{option_copied};
ghost use Rattle.ct_core.specs.Bunches.{AreBunchesOf, is_alone, key_at, key_in};
ghost use Rattle.ct_core.specs.Lines.{AreLinesOf, demand_at};
ghost use Rattle.ct_history.specs.Plan.{IsAscendingFrom};

use crate::lines::test_in;
use ct_base::{List, Name, NoMemory};
use ct_history::{PlanParts, PlanTest, place_of};
use indexmap::IndexMap;
use std::alloc::Global;

/// Where the key of a test stands: the place, in its list, of a lock that it holds alone or shares.
#[derive(Clone, Copy)]
pub(crate) enum KeyPlace {
    Alone(u32),
    Shared(u32),
}

/// Chooses the key of each test of the queue: the lock that it waits for together with other tests.
///
/// Any of its locks is right. The chosen one is the lock that the most
/// tests hold alone or share as it does, which keeps bunches few.
pub(crate) fn keys_of(alloc: Global, plan: &PlanParts) -> Result<Vec<Option<KeyPlace>>, NoMemory>
    requires { IsAscendingFrom 1 (map (λ t. t.number) plan.now.tests) }
{
    let mut counts = LockCounts::none(alloc);
    choose_keys(alloc, plan, &mut counts)
}

/// Counts the locks of the plan's tests, and chooses the key of each test of the queue by these counts.
fn choose_keys(
    alloc: Global,
    plan: &PlanParts,
    counts: &mut LockCounts,
) -> Result<Vec<Option<KeyPlace>>, NoMemory>
    requires { IsAscendingFrom 1 (map (λ t. t.number) plan.now.tests) }
{
    counts.add_each(alloc, plan.tests.as_slice())?;
    let mut keys = Vec::new(alloc);
    for number in plan.queue.as_slice() {
        keys.push(key_of(counts, plan.tests.as_slice(), *number))?;
    }
    Ok(keys)
}

/// How many tests hold each lock alone, and how many share it.
#[derive(Drop)]
struct LockCounts {
    alone: IndexMap<Vec<u8>, u32>,
    shared: IndexMap<Vec<u8>, u32>,
}

impl LockCounts {
    /// Makes the counts before any lock is counted.
    fn none(alloc: Global) -> LockCounts {
        LockCounts {
            alone: IndexMap::new(alloc),
            shared: IndexMap::new(alloc),
        }
    }

    /// Adds the locks of these tests.
    fn add_each(&mut self, alloc: Global, tests: &[PlanTest]) -> Result<(), NoMemory> {
        for test in tests {
            self.add(alloc, test)?;
        }
        Ok(())
    }

    /// Adds the locks of one more test.
    fn add(&mut self, alloc: Global, test: &PlanTest) -> Result<(), NoMemory> {
        count_locks(alloc, &mut self.alone, test.locks.as_slice())?;
        count_locks(alloc, &mut self.shared, test.shared.as_slice())
    }
}

/// Chooses one of the locks of the test with this number, if it has any.
fn key_of(counts: &LockCounts, tests: &[PlanTest], number: u32) -> Option<KeyPlace>
    requires { IsAscendingFrom 1 (map (λ t. t.number) tests.now) }
{
    let test = &tests[place_of(tests, number)?];
    let held = most_named(&counts.alone, test.locks.as_slice());
    let joined = most_named(&counts.shared, test.shared.as_slice());
    match (held, joined) {
        (Some((at, most)), Some((_, count))) if most >= count => Some(KeyPlace::Alone(at)),
        (_, Some((at, _))) => Some(KeyPlace::Shared(at)),
        (Some((at, _)), None) => Some(KeyPlace::Alone(at)),
        (None, None) => None,
    }
}

fn count_locks(
    alloc: Global,
    counts: &mut IndexMap<Vec<u8>, u32>,
    locks: &[Name],
) -> Result<(), NoMemory> {
    for lock in locks {
        let count = count_of(counts, lock).saturating_add(1);
        counts.insert(Vec::from_slice(alloc, lock.bytes())?, count)?;
    }
    Ok(())
}

fn count_of(counts: &IndexMap<Vec<u8>, u32>, lock: &Name) -> u32 {
    counts.get(lock.bytes()).copied().unwrap_or(0)
}

/// Finds the position of the lock with the greatest count, and that count, if there is a lock.
fn most_named(counts: &IndexMap<Vec<u8>, u32>, locks: &[Name]) -> Option<(u32, u32)> {
    let mut found = None;
    let mut most = 0;
    for (at, lock) in locks.iter().enumerate() {
        let count = count_of(counts, lock);
        if most < count {
            most = count;
            found = u32::try_from(at).ok().map(|at| (at, count));
        }
    }
    found
}

/// Lends the lock in the key of the test at a place of the queue.
pub(crate) fn lock_at<'a>(
    plan: &'a PlanParts,
    keys: &[Option<KeyPlace>],
    place: u32,
) -> Option<&'a Name>
    requires { IsAscendingFrom 1 (map (λ t. t.number) plan.now.tests) }
    ensures { option_copied result ≡ option_map (λ k. k.lock) (key_at plan.now keys.now place) }
{
    let test = test_in(plan, place)?;
    let at = (*keys.get(place as usize)?)?;
    if test.needs.is_empty() {
        lock_in(test, at)
    } else {
        None
    }
}

fn lock_in(test: &PlanTest, at: KeyPlace) -> Option<&Name>
    ensures { option_copied result ≡ option_map (λ k. k.lock) (key_in test.now at) }
{
    match at {
        KeyPlace::Alone(at) => test.locks.get(at as usize),
        KeyPlace::Shared(at) => test.shared.get(at as usize),
    }
}

/// Returns whether the key of the test at a place of the queue is a lock that the test holds alone.
pub(crate) fn is_alone_at(keys: &[Option<KeyPlace>], place: u32) -> bool
    ensures { result ≡ is_alone (slice_index_or keys.now place None) }
{
    match keys.get(place as usize) {
        Some(Some(KeyPlace::Alone(_))) => true,
        _ => false,
    }
}

/// Lists the bunch of each test of the queue: the place of the first
/// test with the same key, or its line if the test has no key.
pub(crate) fn bunches_of(
    alloc: Global,
    plan: &PlanParts,
    keys: &[Option<KeyPlace>],
    lines: &List<u32>,
) -> Result<List<u32>, NoMemory>
    requires ascends { IsAscendingFrom 1 (map (λ t. t.number) plan.now.tests) }
    requires few { length plan.now.queue < 2 ^ 32 }
    requires lines { AreLinesOf plan.now lines.now }
    ensures { IfOk result (AreBunchesOf plan.now keys.now) }
{
    let mut known = IndexMap::new(alloc);
    list_bunches(alloc, plan, keys, lines, &mut known)
}

/// Lists the bunch of each test of the queue; those with a key become known by it.
fn list_bunches(
    alloc: Global,
    plan: &PlanParts,
    keys: &[Option<KeyPlace>],
    lines: &List<u32>,
    known: &mut IndexMap<Vec<u8>, u32>,
) -> Result<List<u32>, NoMemory>
    requires ascends { IsAscendingFrom 1 (map (λ t. t.number) plan.now.tests) }
    requires few { length plan.now.queue < 2 ^ 32 }
    requires lines { AreLinesOf plan.now lines.now }
    ensures { IfOk result (AreBunchesOf plan.now keys.now) }
{
    let mut bunches = List::new(alloc);
    for (place, line) in lines.as_slice().iter().enumerate() {
        let bunch = bunch_of(alloc, plan, keys, known, *line, place as u32)?;
        bunches.push(bunch)?;
    }
    Ok(bunches)
}

/// Returns the bunch of the test at a place of this line: a bunch that
/// is known by its key, or a new one, which is known from then on.
fn bunch_of(
    alloc: Global,
    plan: &PlanParts,
    keys: &[Option<KeyPlace>],
    known: &mut IndexMap<Vec<u8>, u32>,
    line: u32,
    place: u32,
) -> Result<u32, NoMemory>
    requires ascends { IsAscendingFrom 1 (map (λ t. t.number) plan.now.tests) }
    requires within { place < length plan.now.queue }
    requires line { line < length plan.now.queue }
    requires alike { demand_at plan.now line ≡ demand_at plan.now place }
    ensures within { IfOk result (λ bunch. bunch < length plan.now.queue) }
    ensures locked { IfOk result (λ bunch. key_at plan.now keys.now bunch ≡ key_at plan.now keys.now place) }
    ensures alike { IfOk result (λ bunch. key_at plan.now keys.now place ≡ None → demand_at plan.now bunch ≡ demand_at plan.now place) }
{
    let Some(lock) = lock_at(plan, keys, place) else {
        return Ok(unlocked_bunch(plan, keys, line, place));
    };
    let text = text_of(alloc, lock, is_alone_at(keys, place))?;
    if let Some(bunch) = known.get(text.as_slice()) {
        if have_one_key(plan, keys, *bunch, place) {
            return Ok(*bunch);
        }
    }
    known.insert(text, place)?;
    Ok(place)
}

/// Writes a key as a text, the same text for the same key.
fn text_of(alloc: Global, lock: &Name, alone: bool) -> Result<Vec<u8>, NoMemory> {
    let mut text = Vec::from_slice(alloc, lock.bytes())?;
    text.push(u8::from(alone))?;
    Ok(text)
}

/// Returns the bunch of a test without a key: its line if
/// the test at that place has no key either, else its place.
fn unlocked_bunch(plan: &PlanParts, keys: &[Option<KeyPlace>], line: u32, place: u32) -> u32
    requires ascends { IsAscendingFrom 1 (map (λ t. t.number) plan.now.tests) }
    requires within { place < length plan.now.queue }
    requires line { line < length plan.now.queue }
    requires alike { demand_at plan.now line ≡ demand_at plan.now place }
    requires unlocked { key_at plan.now keys.now place ≡ None }
    ensures within { result < length plan.now.queue }
    ensures unlocked { key_at plan.now keys.now result ≡ None }
    ensures alike { demand_at plan.now result ≡ demand_at plan.now place }
{
    match lock_at(plan, keys, line) {
        Some(_) => place,
        None => line,
    }
}

/// Returns whether the tests at two places of the queue have the same key.
fn have_one_key(plan: &PlanParts, keys: &[Option<KeyPlace>], one: u32, other: u32) -> bool
    requires { IsAscendingFrom 1 (map (λ t. t.number) plan.now.tests) }
    ensures there { IsTrue result → is_some (key_at plan.now keys.now one) ≡ true }
    ensures same { IsTrue result → key_at plan.now keys.now one ≡ key_at plan.now keys.now other }
{
    match (lock_at(plan, keys, one), lock_at(plan, keys, other)) {
        (Some(lock), Some(wanted)) => {
            lock.is(wanted) && is_alone_at(keys, one) == is_alone_at(keys, other)
        }
        _ => false,
    }
}
