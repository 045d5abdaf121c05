ghost use Rattle.std.specs.Prelude.{◌≡◌, ◌++◌, ℕ, nat_eq, IfOk, OnOk};
ghost use Rattle.std.specs.List.Sorted.{IsNonDecreasing};
ghost use Rattle.std.specs.Option.{option_to_list};
ghost use Rattle.indexmap.specs.IndexMap.{get};
ghost use Rattle.ct_explain.specs.Bars as Drawn;

use ct_base::{List, NoMemory};
use ct_history::Entry;
use ct_times::Link;
use ct_verdict::Seen;
use indexmap::IndexMap;
use std::alloc::Global;
use std::collections::BTreeSet;

/// An attempt that has ended, as a picture shows it.
#[derive(Debug, Drop)]
pub(crate) struct Bar {
    pub(crate) link: Link,
    pub(crate) worker: u32,
    pub(crate) seen: Seen,
}

/// The place of the last Start of each test, by its number.
type Begins = IndexMap<u32, usize>;

/// Returns the workers that have a Start, each once, in ascending order.
pub(crate) fn workers_of(alloc: Global, entries: &[Entry]) -> Result<List<u32>, NoMemory>
    ensures workers { IfOk result (λ workers. workers ≡ Drawn.workers entries.now) }
    ensures ascend { IfOk result IsNonDecreasing }
{
    let mut kept = BTreeSet::new(alloc);
    for entry in entries {
        keep_starter(&mut kept, entry)?;
    }
    listed(alloc, kept)
}

/// Keeps the worker that an entry has start an attempt.
fn keep_starter(kept: &mut BTreeSet<u32>, entry: &Entry) -> Result<(), NoMemory>
    ensures { OnOk result (kept.new.keys ≡ Drawn.keep_starter kept.old.keys entry.now) }
{
    if let Entry::Start { worker, .. } = entry {
        kept.insert(*worker)?;
    }
    Ok(())
}

fn listed(alloc: Global, kept: BTreeSet<u32>) -> Result<List<u32>, NoMemory>
    ensures keys { IfOk result (λ workers. workers ≡ kept.keys) }
    ensures ascend { IfOk result IsNonDecreasing }
{
    let mut workers = List::new(alloc);
    for worker in kept {
        workers.push(worker)?;
    }
    Ok(workers)
}

/// Returns the attempts that have ended, in the order of their Ends, with the least times of the entries.
pub(crate) fn bars_of(
    alloc: Global,
    entries: &[Entry],
    times: &[u128],
) -> Result<List<Bar>, NoMemory>
    ensures { IfOk result (λ bars. bars ≡ Drawn.bars entries.now times.now) }
{
    let mut begins: Begins = IndexMap::new(alloc);
    let mut bars = List::new(alloc);
    for at in 0..entries.len() {
        let entry = &entries[at];
        let bar = bar_at(&begins, times, entry, at);
        push_bar(&mut bars, bar)?;
        note_begin(&mut begins, entry, at)?;
    }
    Ok(bars)
}

/// Adds a bar, if there is one.
fn push_bar(bars: &mut List<Bar>, bar: Option<Bar>) -> Result<(), NoMemory>
    ensures { OnOk result (bars.new ≡ bars.old ++ option_to_list bar) }
{
    if let Some(bar) = bar {
        bars.push(bar)?;
    }
    Ok(())
}

/// Returns the attempt that an entry ends, by the places of the last Starts.
fn bar_at(begins: &Begins, times: &[u128], entry: &Entry, end: usize) -> Option<Bar>
    ensures { result ≡ Drawn.bar_with times.now end (λ test. get nat_eq begins.now test) entry.now }
{
    let Entry::End {
        test,
        attempt,
        worker,
        seen,
    } = entry
    else {
        return None;
    };
    let Some(begin) = begin_of(begins, *test) else {
        return None;
    };
    Some(Bar {
        link: Link {
            test: *test,
            attempt: *attempt,
            start: times.get(begin).copied().unwrap_or(0),
            micros: seen.micros,
            begin,
            end,
        },
        worker: *worker,
        seen: *seen,
    })
}

/// Returns the place of the last Start of a test.
fn begin_of(begins: &Begins, test: u32) -> Option<usize>
    ensures { result ≡ get nat_eq begins.now test }
{
    begins.get(&test).copied()
}

/// Notes the place of an entry, if it is a Start.
fn note_begin(begins: &mut Begins, entry: &Entry, place: usize) -> Result<(), NoMemory>
    ensures { OnOk result ((test : ℕ) →
        get nat_eq begins.new test ≡ Drawn.begin_with test place entry.now (get nat_eq begins.old test)) }
{
    if let Entry::Start { test, .. } = entry {
        begins.insert(*test, place)?;
    }
    Ok(())
}
