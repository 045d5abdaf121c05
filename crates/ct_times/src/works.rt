ghost use Rattle.std.specs.Prelude.{◌≡◌, ◌≤◌, ◌+◌, ◌^◌, ◌||◌, ℕ, IfOk, OnOk};
ghost use Rattle.ct_times.specs.Capacity.{is_end_of_test, work_by};
ghost use Rattle.ct_times.specs.Works as Kept;
ghost use Rattle.ct_times.specs.Bounds.{HasThoseThatRan, has_test};

use ct_base::NoMemory;
use ct_history::Entry;
use indexmap::IndexMap;
use std::alloc::Global;

/// The work of tests by their numbers, in microseconds.
pub type Works = IndexMap<u32, u128>;

/// Adds up how long the attempts of each test took that ended in a history.
///
/// Source: this project's own.
pub fn works_of(alloc: Global, entries: &[Entry]) -> Result<Works, NoMemory>
    ensures are { IfOk result (λ works. Kept.AreWorks works entries.now) }
    ensures those { IfOk result (λ works. HasThoseThatRan works entries.now) }
{
    let mut works: Works = IndexMap::new(alloc);
    for entry in entries {
        note_work(&mut works, entry)?;
    }
    Ok(works)
}

/// Returns the work of a test, in microseconds.
pub fn work_at(works: &Works, test: u32) -> u128
    ensures { result ≡ Kept.kept_at works.now test }
{
    match works.get(&test) {
        Some(work) => *work,
        None => 0,
    }
}

/// Returns whether a test ran: an attempt of it has ended.
///
/// Source: this project's own.
pub fn ran(works: &Works, test: u32) -> bool
    ensures { result ≡ has_test works.now test }
{
    works.get(&test).is_some()
}

/// Adds how long the attempt took that the entry ends.
fn note_work(works: &mut Works, entry: &Entry) -> Result<(), NoMemory>
    requires room { (test : ℕ) → Kept.kept_at works.old test + 2 ^ 64 ≤ 2 ^ 128 }
    ensures noted { OnOk result ((test : ℕ) →
        Kept.kept_at works.new test ≡ Kept.kept_at works.old test + work_by test entry.now) }
    ensures small { OnOk result ((test : ℕ) → work_by test entry.now ≤ 2 ^ 64) }
    ensures those { OnOk result ((test : ℕ) →
        has_test works.new test ≡ (has_test works.old test || is_end_of_test test entry.now)) }
{
    if let Entry::End { test, seen, .. } = entry {
        let work = work_at(works, *test) + u128::from(seen.micros);
        works.insert(*test, work)?;
    }
    Ok(())
}
