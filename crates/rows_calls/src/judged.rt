//! What the judge says of a history, as it is and with its entries moved.

use crate::came::Came;
use ct_base::NoMemory;
use ct_history::{Entry, History, Plan, judge};
use std::alloc::Global;

/// Tells what the judge says of the history of a call as it is, if each test has a worker of its own, and then
/// if the second Start stands in front of the first End. The history keeps these changes.
pub(crate) fn judged(alloc: Global, came: &mut Came) -> Result<String, NoMemory> {
    match (&came.whole, &mut came.history) {
        (Some(whole), Some(history)) => judged_by(alloc, whole, history),
        _ => Ok(String::from_str(alloc, "none")?),
    }
}

fn judged_by(alloc: Global, whole: &Plan, history: &mut History) -> Result<String, NoMemory> {
    let own = word_of(judge(alloc, whole, history)?);
    work_apart(history.entries.as_mut_slice());
    let apart = word_of(judge(alloc, whole, history)?);
    start_both_first(history.entries.as_mut_slice());
    let at_once = word_of(judge(alloc, whole, history)?);
    Ok(format!(in alloc; "as it is {own}\nworkers apart {apart}\nboth started first {at_once}\n")?)
}

fn word_of(is_legal: bool) -> &'static str {
    if is_legal { "legal" } else { "not legal" }
}

/// Gives each test a worker of its own, so that no worker keeps two of them apart.
fn work_apart(entries: &mut [Entry]) {
    for entry in entries {
        match entry {
            Entry::Start { test, worker, .. } => *worker = *test,
            Entry::End { test, worker, .. } => *worker = *test,
            Entry::Settle { .. } | Entry::Stop => {}
        }
    }
}

/// Exchanges the End of the first test with the Start of the second one.
fn start_both_first(entries: &mut [Entry]) {
    if entries.len() > 2 {
        entries.swap(1, 2);
    }
}
