//! The journal of a run of tests that start and end: what its check finds, and how long its writing and its
//! check took.
//!
//! Read first: `history.rt`, then this file.

mod history;

use crate::journal::history::{entries_of, plan_of};
use crate::timing::{now, since};
use crate::words::{count, is_timed, lacks_memory};
use anyhow::bail;
use ct_base::NoMemory;
use ct_history::{Entry, Plan};
use ct_journal_text::{check_text, journal_text};
use std::alloc::Global;
use std::io;
use std::io::Print;
use std::time::{Clock, Duration};

/// The greatest number of entries.
const MOST_ENTRIES: u32 = 4_000_000;

/// Writes and checks the journal of the run that the words ask for.
pub fn measure(rt: &(impl AllocGlobal + Clock + Print), words: &[String]) -> anyhow::Result<()> {
    let [entries, level, shown] = words else {
        bail!("measure journal wants three words: ENTRIES LEVEL times|counts");
    };
    let (entries, level) = (count(entries), count(level));
    if entries > MOST_ENTRIES {
        bail!("the number of entries is at most {MOST_ENTRIES}");
    }
    if level == 0 {
        bail!("the level is at least 1");
    }
    let checked = written_and_checked(rt, rt.alloc(), entries / 2, level).map_err(lacks_memory)?;
    let Some(checked) = checked else {
        bail!("the tests have no plan");
    };
    show(rt, &checked, is_timed(shown))?;
    Ok(())
}

/// Prints what was found, and the times where these are asked for.
fn show(rt: &impl Print, checked: &Checked, is_timed: bool) -> io::Result<()> {
    match checked.found {
        None => println!(rt; "{} entries, accepted", checked.entries)?,
        Some(line) => println!(rt; "{} entries, refused at line {line}", checked.entries)?,
    }
    if is_timed {
        show_times(rt, checked)?;
    }
    Ok(())
}

fn show_times(rt: &impl Print, checked: &Checked) -> io::Result<()> {
    println!(rt;
        "{} bytes, written in {} us, checked in {} us",
        checked.len,
        checked.writing.as_micros(),
        checked.checking.as_micros()
    )?;
    println!(rt; "each entry {} ns", checked.nanos_each())
}

/// What the check found, and how long the journal took.
#[derive(Drop)]
struct Checked {
    entries: usize,
    len: usize,
    found: Option<u64>,
    writing: Duration,
    checking: Duration,
}

impl Checked {
    /// Returns the mean nanoseconds of the check of an entry.
    fn nanos_each(&self) -> u128 {
        self.checking.as_nanos() / (self.entries.max(1) as u128)
    }
}

/// Writes and checks the journal of a run of so many tests; none where they have no plan.
fn written_and_checked(
    rt: &impl Clock,
    alloc: Global,
    tests: u32,
    level: u32,
) -> Result<Option<Checked>, NoMemory> {
    let Some(plan) = plan_of(alloc, tests, level)? else {
        return Ok(None);
    };
    let history = entries_of(alloc, tests, level.saturating_sub(1))?;
    Ok(Some(check(rt, alloc, &plan, &history)?))
}

/// Writes the journal of a history, and checks it against the plan.
fn check(
    rt: &impl Clock,
    alloc: Global,
    plan: &Plan,
    history: &[Entry],
) -> Result<Checked, NoMemory> {
    let start = now(rt);
    let text = journal_text(alloc, history)?;
    let writing = since(rt, start);
    let start = now(rt);
    let found = check_text(alloc, plan, text.bytes())?;
    let checking = since(rt, start);
    Ok(Checked {
        entries: history.len(),
        len: text.bytes().len(),
        found,
        writing,
        checking,
    })
}
