ghost use Rattle.std.specs.Prelude.{◌≡◌, option_map};
ghost use Rattle.ct_history.specs.History as History;
ghost use Rattle.ct_history.specs.History.{is_busy_in, is_open_in, opened as opened_in};

use crate::Entry;
use crate::history::is_ended;

/// A start that no End behind it closes.
#[derive(Clone, Copy)]
struct StillOpen {
    test: u32,
    attempt: u32,
    worker: u32,
}

/// Returns the start that an entry opens, unless an End behind the entry closes it.
fn opened(entry: &Entry, behind: &[Entry]) -> Option<StillOpen>
    ensures { result ≡ option_map (λ r. record { test = r.test; attempt = r.attempt; worker = r.worker })
        (opened_in entry.now behind.now) }
{
    match entry {
        Entry::Start {
            test,
            attempt,
            worker,
            ..
        } => {
            if is_ended(behind, *test, *attempt) {
                None
            } else {
                Some(StillOpen {
                    test: *test,
                    attempt: *attempt,
                    worker: *worker,
                })
            }
        }
        Entry::End { .. } | Entry::Settle { .. } | Entry::Stop => None,
    }
}

/// Returns whether a start of the test is open.
pub(crate) fn is_open(entries: &[Entry], test: u32) -> bool
    ensures { result ≡ is_open_in test entries.now }
{
    for at in 0..entries.len() {
        if let Some(open) = opened(&entries[at], &entries[at + 1..]) {
            if open.test == test {
                return true;
            }
        }
    }
    false
}

/// Returns whether the worker has an open start.
///
/// It stands for callers of the library, who may ask a core only where it has none: no program calls it.
pub fn is_busy(entries: &[Entry], worker: u32) -> bool
    ensures { result ≡ is_busy_in worker entries.now }
{
    for at in 0..entries.len() {
        if let Some(open) = opened(&entries[at], &entries[at + 1..]) {
            if open.worker == worker {
                return true;
            }
        }
    }
    false
}

/// Returns whether this attempt of the test is open, and the worker made it.
///
/// It stands for callers of the library, who may finish only such an attempt: no program calls it.
pub fn holds_start(entries: &[Entry], test: u32, attempt: u32, worker: u32) -> bool
    ensures { result ≡ History.holds_start test attempt worker entries.now }
{
    for at in 0..entries.len() {
        if let Some(open) = opened(&entries[at], &entries[at + 1..]) {
            if open.test == test && open.attempt == attempt && open.worker == worker {
                return true;
            }
        }
    }
    false
}
