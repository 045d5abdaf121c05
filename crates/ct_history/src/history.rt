ghost use Rattle.std.specs.Prelude.{◌≡◌, IfOk};
ghost use Rattle.std.specs.List.{list_any};
ghost use Rattle.ct_history.specs.History.{is_end_of, is_stop};

use ct_alloc::{Placement, copy_placement};
use ct_base::NoMemory;
use ct_verdict::{Cause, Seen};
use std::alloc::Global;

/// What happened in a run, one entry after the other.
#[derive(Debug, Drop)]
pub enum Entry {
    /// A worker began an attempt of a test; attempts count from 1.
    Start {
        test: u32,
        attempt: u32,
        worker: u32,
        placement: Option<Placement>,
    },
    /// An attempt ended.
    End {
        test: u32,
        attempt: u32,
        worker: u32,
        seen: Seen,
    },
    /// A test got its verdict without an attempt.
    Settle {
        test: u32,
        cause: Cause,
    },
    /// No further test starts.
    Stop,
}

impl Entry {
    /// Copies an entry.
    pub(crate) fn copy(&self, alloc: Global) -> Result<Entry, NoMemory>
        ensures { IfOk result (λ entry. entry ≡ self.now) }
    {
        match self {
            Entry::Start {
                test,
                attempt,
                worker,
                placement,
            } => Ok(Entry::Start {
                test: *test,
                attempt: *attempt,
                worker: *worker,
                placement: copy_placement(alloc, placement.as_ref())?,
            }),
            Entry::End {
                test,
                attempt,
                worker,
                seen,
            } => Ok(Entry::End {
                test: *test,
                attempt: *attempt,
                worker: *worker,
                seen: *seen,
            }),
            Entry::Settle { test, cause } => Ok(Entry::Settle {
                test: *test,
                cause: *cause,
            }),
            Entry::Stop => Ok(Entry::Stop),
        }
    }
}

/// All that happened in a run, in order.
///
/// The entries are a `Vec`, so that clauses can speak of the room that is left in it.
#[derive(Debug, Drop)]
pub struct History {
    pub entries: Vec<Entry>,
}

pub(crate) fn is_ended(behind: &[Entry], test: u32, attempt: u32) -> bool
    ensures { result ≡ list_any (is_end_of test attempt) behind.now }
{
    behind.iter().any(|entry| is_end(entry, test, attempt))
}

fn is_end(entry: &Entry, test: u32, attempt: u32) -> bool
    ensures { result ≡ is_end_of test attempt entry.now }
{
    match entry {
        Entry::End {
            test: t,
            attempt: a,
            ..
        } => *t == test && *a == attempt,
        Entry::Start { .. } | Entry::Settle { .. } | Entry::Stop => false,
    }
}

pub(crate) fn is_stop(entry: &Entry) -> bool
    ensures { result ≡ is_stop entry.now }
{
    matches!(entry, Entry::Stop)
}
