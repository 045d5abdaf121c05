ghost use Rattle.std.specs.Prelude.{◌≡◌, ◌≤◌, ◌+◌, ◌-◌, ◌^◌, ℕ, IfOk, OnOk, length, slice_get};
ghost use Rattle.std.specs.Option.{unwrap_or};
ghost use Rattle.ct_times.specs.Times as Times;
ghost use Rattle.ct_times.specs.Works.{kept_at};

use ct_base::{List, NoMemory};
use ct_history::Entry;
use indexmap::IndexMap;
use std::alloc::Global;

/// The moment of the last Start of each test.
type Starts = IndexMap<u32, u128>;

/// Returns the least times of a history, in microseconds: one for each entry.
///
/// Source: this project's own.
pub fn least_times(alloc: Global, entries: &[Entry]) -> Result<List<u128>, NoMemory>
    ensures { IfOk result (λ times. times ≡ Times.least_times entries.now) }
{
    let mut starts: Starts = IndexMap::new(alloc);
    let mut times: List<u128> = List::new(alloc);
    let mut now: u128 = 0;
    for entry in entries {
        now = now.max(over_at(&starts, entry));
        note_start(&mut starts, entry, now)?;
        times.push(now)?;
    }
    Ok(times)
}

/// Returns the length of a history, in microseconds: the last of its least times, 0 without entries.
///
/// Source: this project's own.
pub fn length_of(alloc: Global, entries: &[Entry]) -> Result<u128, NoMemory>
    ensures { IfOk result (λ micros. micros ≡ Times.length_of entries.now) }
{
    let times = least_times(alloc, entries)?;
    Ok(last_of(times.as_slice()))
}

/// Returns the last of these times, 0 without one.
fn last_of(times: &[u128]) -> u128
    ensures { result ≡ unwrap_or (slice_get times.now (length times.now - 1)) 0 }
{
    times.last().copied().unwrap_or(0)
}

/// Returns when the attempt is over that the entry ends, 0 where it ends none.
fn over_at(starts: &Starts, entry: &Entry) -> u128
    requires room { (test : ℕ) → kept_at starts.now test + 2 ^ 64 ≤ 2 ^ 128 }
    ensures is { result ≡ Times.over_by (kept_at starts.now) entry.now }
    ensures small { (most : ℕ) → ((test : ℕ) → kept_at starts.now test ≤ most) → result ≤ most + 2 ^ 64 }
{
    match entry {
        Entry::End { test, seen, .. } => start_of(starts, *test) + u128::from(seen.micros),
        Entry::Start { .. } | Entry::Settle { .. } | Entry::Stop => 0,
    }
}

/// Returns the moment of the last Start of a test, 0 without one.
fn start_of(starts: &Starts, test: u32) -> u128
    ensures { result ≡ kept_at starts.now test }
{
    match starts.get(&test) {
        Some(moment) => *moment,
        None => 0,
    }
}

/// Notes the moment of an entry, if it is a Start.
fn note_start(starts: &mut Starts, entry: &Entry, now: u128) -> Result<(), NoMemory>
    ensures { OnOk result ((test : ℕ) →
        kept_at starts.new test ≡ unwrap_or (Times.start_at test now entry.now) (kept_at starts.old test)) }
{
    if let Entry::Start { test, .. } = entry {
        starts.insert(*test, now)?;
    }
    Ok(())
}
