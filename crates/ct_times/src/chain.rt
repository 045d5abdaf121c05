ghost use Rattle.std.specs.Prelude.{◌≡◌, ◌≤◌, ◌<◌, ◌==◌, All, AllPairs, IfOk, Some, length, map, position, slice_index, take, true};
ghost use Rattle.std.specs.List.{list_any};
ghost use Rattle.std.specs.List.Sorted.{IsNonDecreasing};
ghost use Rattle.ct_times.specs.Times as Times;
ghost use Rattle.ct_times.specs.Chain.{IsChain, ended_at};
ghost use Rattle.ct_times.specs.Links as Links;

use ct_base::{List, NoMemory};
use ct_history::Entry;
use std::alloc::Global;

/// An attempt of a chain: when it started and how long it took, in microseconds.
#[derive(Clone, Copy, Debug)]
pub struct Link {
    pub test: u32,
    pub attempt: u32,
    pub start: u128,
    pub micros: u64,
    /// The place of its Start among the entries, from 0.
    pub begin: usize,
    /// The place of its End among the entries, from 0.
    pub end: usize,
}

/// Returns the chain of a history, in order: the attempts that make it as long as it is.
///
/// `times` are the least times of the entries. It goes back over the entries once.
///
/// Source: this project's own.
pub fn chain_of(alloc: Global, entries: &[Entry], times: &[u128]) -> Result<List<Link>, NoMemory>
    requires legal { Links.IsLegalForSome entries.now }
    requires least { times.now ≡ Times.least_times entries.now }
    ensures chain { IfOk result (λ links. IsChain entries.now (map Links.as_link links)) }
    ensures placed { IfOk result (λ links. All (Links.IsPlaced entries.now) links) }
    ensures ordered { IfOk result (λ links. AllPairs Links.EndsBefore links) }
{
    let mut links: Vec<Link> = Vec::new(alloc);
    let mut place = times.len().saturating_sub(1);
    while moment_at(times, place) > 0 {
        let link = link_at(entries, times, place);
        place = link.begin;
        links.push(link)?;
    }
    links.reverse();
    Ok(List::from_vec(links))
}

/// Returns the moment at a place, 0 where there is none.
fn moment_at(times: &[u128], place: usize) -> u128
    ensures { result ≡ slice_index times.now place }
{
    times.get(place).copied().unwrap_or(0)
}

/// Returns the attempt whose End makes the time rise to the moment at a place.
fn link_at(entries: &[Entry], times: &[u128], place: usize) -> Link
    requires legal { Links.IsLegalForSome entries.now }
    requires least { times.now ≡ Times.least_times entries.now }
    requires later { 0 < slice_index times.now place }
    ensures is { ended_at (slice_index times.now place) (Times.timed entries.now)
        ≡ Some (Links.as_link result) }
    ensures placed { Links.IsPlaced entries.now result }
    ensures back { result.end ≤ place }
{
    let end = first_at(times, place);
    let Entry::End {
        test,
        attempt,
        seen,
        ..
    } = &entries[end]
    else {
        unreachable!()
    };
    let begin = last_start(entries, *test, end);
    Link {
        test: *test,
        attempt: *attempt,
        start: times[begin],
        micros: seen.micros,
        begin,
        end,
    }
}

/// Returns the first place with the moment that stands at a place.
fn first_at(times: &[u128], place: usize) -> usize
    requires inside { place < length times.now }
    requires sorted { IsNonDecreasing times.now }
    ensures first { position (λ moment. moment == slice_index times.now place) times.now
        ≡ Some result }
    ensures back { result ≤ place }
{
    let mut first = place;
    while first > 0 && times[first - 1] == times[first] {
        first -= 1;
    }
    first
}

/// Returns the place of the last Start of a test in front of a place.
fn last_start(entries: &[Entry], test: u32, end: usize) -> usize
    requires inside { end ≤ length entries.now }
    requires there { list_any (Links.is_start_of_test test) (take end entries.now) ≡ true }
    ensures { Links.IsLastStart entries.now test result end }
{
    let mut begin = end - 1;
    while !is_start_of(&entries[begin], test) {
        begin -= 1;
    }
    begin
}

/// Tells whether an entry starts an attempt of a test.
fn is_start_of(entry: &Entry, test: u32) -> bool
    ensures { result ≡ Links.is_start_of_test test entry.now }
{
    match entry {
        Entry::Start { test: started, .. } => *started == test,
        Entry::End { .. } | Entry::Settle { .. } | Entry::Stop => false,
    }
}
