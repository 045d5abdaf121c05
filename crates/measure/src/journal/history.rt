//! The plan and the history whose journal is checked.

use ct_base::{List, NoMemory};
use ct_history::{Entry, Plan};
use ct_verdict::{How, Seen};
use std::alloc::Global;
use tests_samples::{Manner, free, parts_of, plan_of as sound_plan};

/// Plans so many tests, each of which takes one of `level` processors.
pub fn plan_of(alloc: Global, tests: u32, level: u32) -> Result<Option<Plan>, NoMemory> {
    let mut planned = List::new(alloc);
    for before in 0..tests {
        planned.push(free(alloc, before.saturating_add(1))?)?;
    }
    sound_plan(alloc, parts_of(alloc, Manner::once(level), planned, None)?)
}

/// Makes the history of a run of so many tests, in which each ends once `others` more have started.
pub fn entries_of(alloc: Global, tests: u32, others: u32) -> Result<Vec<Entry>, NoMemory> {
    let workers = others.saturating_add(1);
    let mut entries = Vec::new(alloc);
    for before in 0..tests {
        entries.push(started(before, before % workers))?;
        if let Some(earlier) = before.checked_sub(others) {
            entries.push(ended(earlier, earlier % workers))?;
        }
    }
    for earlier in tests.saturating_sub(others)..tests {
        entries.push(ended(earlier, earlier % workers))?;
    }
    Ok(entries)
}

/// Starts the test behind `before` others.
fn started(before: u32, worker: u32) -> Entry {
    Entry::Start {
        test: before.saturating_add(1),
        attempt: 1,
        worker,
        placement: None,
    }
}

/// Ends the attempt of the test behind `before` others.
fn ended(before: u32, worker: u32) -> Entry {
    Entry::End {
        test: before.saturating_add(1),
        attempt: 1,
        worker,
        seen: Seen {
            how: How::Exited(0),
            fail_hit: false,
            pass_hit: false,
            skip_hit: false,
            micros: 10_000,
        },
    }
}
