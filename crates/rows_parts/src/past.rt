//! A text that stands for a plan and for what happened in its run.
//!
//! In it `;` stands between the tests. A test is its name, and behind a `:` its labels with a
//! `,` between. Then stand its attempts with a `, ` between: how each ended, and its microseconds.
//! In place of attempts stands why there is none and the number that belongs to it, or `off` for a
//! disabled test.

ghost use Rattle.std.specs.Prelude.{◌≡◌, IfOk, true};
ghost use Rattle.ct_history.specs.Verdicts.{are_all_final};

use crate::row::RowFault;
use ct_base::{List, Name, NoMemory};
use ct_history::{Entry, History, Plan, PlanParts, PlanTest, verdict};
use ct_verdict::{Cause, How, Mode, Repeat, Seen};
use std::alloc::Global;
use tests_samples::{Manner, named, parts_of, plan_of};

/// A plan and what happened in its run.
#[derive(Drop)]
pub(crate) struct Record {
    pub(crate) plan: Plan,
    pub(crate) history: History,
}

/// The tests of a run are tried a second time after a timeout.
const MANNER: Manner = Manner {
    level: 1,
    repeat: Repeat {
        mode: Mode::AfterTimeout,
        times: 2,
    },
    stop_on_failure: false,
};

/// Makes the plan of a run, and its history.
pub(crate) fn record_of(alloc: Global, run: &str) -> Result<Record, RowFault>
    ensures { IfOk result (λ r. are_all_final r.plan r.history.entries.items ≡ true) }
{
    let entries = entries_of(alloc, run)?;
    let parts = parts_of(alloc, MANNER, tests_of(alloc, run)?, None)?;
    match plan_of(alloc, parts)? {
        Some(plan) => ended(plan, entries),
        None => Err(RowFault::Unfit("run")),
    }
}

/// Makes the record of a plan whose tests are all final after these entries.
fn ended(plan: Plan, entries: Vec<Entry>) -> Result<Record, RowFault>
    ensures { IfOk result (λ r. are_all_final r.plan r.history.entries.items ≡ true) }
{
    if !are_all_final(plan.parts(), entries.as_slice()) {
        return Err(RowFault::Unfit("run"));
    }
    Ok(Record {
        plan,
        history: History { entries },
    })
}

/// Returns whether each test of the plan is final.
fn are_all_final(plan: &PlanParts, entries: &[Entry]) -> bool
    ensures { result ≡ are_all_final plan.now entries.now }
{
    plan.tests
        .as_slice()
        .iter()
        .all(|test| verdict(&plan.repeat, test, entries).is_some())
}

fn tests_of(alloc: Global, run: &str) -> Result<List<PlanTest>, NoMemory> {
    let mut tests = List::new(alloc);
    let mut number: u32 = 0;
    for text in run.split_terminator(';') {
        number = number.saturating_add(1);
        tests.push(test_of(alloc, number, text)?)?;
    }
    Ok(tests)
}

fn test_of(alloc: Global, number: u32, text: &str) -> Result<PlanTest, NoMemory> {
    let (name, ends) = text.split_once(' ').unwrap_or((text, ""));
    let (name, labels) = name.split_once(':').unwrap_or((name, ""));
    let mut test = named(alloc, number, name.as_bytes())?;
    test.disabled = ends == "off";
    label(alloc, &mut test.labels, labels)?;
    Ok(test)
}

/// Adds what stands between commas to the labels of a test.
fn label(alloc: Global, labels: &mut List<Name>, text: &str) -> Result<(), NoMemory> {
    for label in text.split_terminator(',') {
        labels.push(Name::of(alloc, label.as_bytes())?)?;
    }
    Ok(())
}

/// Makes the entries of a run, test by test.
fn entries_of(alloc: Global, run: &str) -> Result<Vec<Entry>, NoMemory> {
    let mut entries = Vec::new(alloc);
    let mut number: u32 = 0;
    for text in run.split_terminator(';') {
        number = number.saturating_add(1);
        let (_name, ends) = text.split_once(' ').unwrap_or((text, ""));
        note(&mut entries, number, ends)?;
    }
    Ok(entries)
}

/// Notes how the attempts of a test ended, or why there is none.
fn note(entries: &mut Vec<Entry>, test: u32, ends: &str) -> Result<(), NoMemory> {
    let mut attempt: u32 = 0;
    for end in ends.split(", ") {
        attempt = attempt.saturating_add(1);
        if let Some((word, count)) = end.split_once(' ') {
            entries.push(entry(test, attempt, word, count))?;
        }
    }
    Ok(())
}

fn entry(test: u32, attempt: u32, word: &str, count: &str) -> Entry {
    match cause(word, count.parse().unwrap_or(0)) {
        Some(cause) => Entry::Settle { test, cause },
        None => Entry::End {
            test,
            attempt,
            worker: 0,
            seen: Seen {
                how: how(word),
                fail_hit: false,
                pass_hit: false,
                skip_hit: false,
                micros: count.parse().unwrap_or(0),
            },
        },
    }
}

fn cause(word: &str, number: u32) -> Option<Cause> {
    match word {
        "unavailable" => Some(Cause::NotAvailable),
        "operation" => Some(Cause::BadOperation(number)),
        "fixture" => Some(Cause::Fixture(number)),
        "insufficient" => Some(Cause::Insufficient),
        "stopped" => Some(Cause::Stopped),
        _ => None,
    }
}

fn how(word: &str) -> How {
    match word {
        "timeout" => How::TimedOut,
        "signal" => How::Signalled,
        "unstarted" => How::NotStarted,
        "lacks" => How::Lacks(3),
        "memory" => How::NoMemory,
        code => How::Exited(code.parse().unwrap_or(0)),
    }
}
