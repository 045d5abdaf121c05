//! What is told of a call behind it, each by a word that stands behind `want`.
//!
//! Words: `status`; `outcome`; `run`, which is `none` where there is no plan, no history and no gate that was
//! asked; `open`, whether an attempt is open; `end`, what became of the journal.
//!
//! Numbers, or `none`: `asked`, `unstarted`, how many attempts gates were asked for and did not start; `lines`,
//! how many puts there were; `plans`; `tree`; `entries`, how many the history has; `run-status`, the status of a
//! run that keeps its journal; `check`, the status of the check of that journal; `entry`, the entry of a
//! specification whose id another one has.
//!
//! Texts: `report`, what was put; `puts`, the same with `|` behind each put that is not one line; `summary`,
//! what was put behind the first empty line; `requests`, `attempts`, what gates were sent and asked for;
//! `history`; `left`, the files of the run; `journal`, what the path `journal` holds; `fault`, the path of a
//! fault of the files; `cycle`, the tests of a cycle; `judge`, what the judge says of the history.

use crate::came::Came;
use crate::judged::judged;
use ct_app::{Outcome, Refusal, SpecFault, SpecRefusal};
use ct_base::{MemSink, NoMemory};
use ct_history::{Entry, History, is_busy};
use ct_journal::JournalEnd;
use std::alloc::Global;
use std::str;
use tests_calls::{
    asked_of, entries_of, held_in, is_asked, left_in, requests_of, text_of, written,
};

/// The path of the journal that is told of.
const JOURNAL: &str = "journal";

/// Tells what is asked of a call behind it. `None` where nothing tells that.
pub(crate) fn tell(
    alloc: Global,
    came: &mut Came,
    asked: &str,
) -> Result<Option<String>, NoMemory> {
    if let Some(word) = word_of(came, asked) {
        return Ok(Some(String::from_str(alloc, word)?));
    }
    if let Some(number) = number_of(came, asked) {
        return Ok(Some(number_or_none(alloc, number)?));
    }
    if asked == "judge" {
        return Ok(Some(judged(alloc, came)?));
    }
    text_told(alloc, came, asked)
}

/// Tells a word.
fn word_of(came: &Came, asked: &str) -> Option<&'static str> {
    match asked {
        "outcome" => Some(came.outcome.as_ref().map(name_of).unwrap_or("none")),
        "run" => Some(if has_run(came) { "some" } else { "none" }),
        "open" => Some(open_in(came.history.as_ref())),
        "end" => Some(
            came.journal
                .map(|journal| end_of(journal.end))
                .unwrap_or("none"),
        ),
        _ => None,
    }
}

fn name_of(outcome: &Outcome) -> &'static str {
    match outcome {
        Outcome::Completed => "Completed",
        Outcome::Listed => "Listed",
        Outcome::Usage { .. } => "Usage",
        Outcome::Refused(_) => "Refused",
        Outcome::FilesFault { .. } => "FilesFault",
        Outcome::OutputFault => "OutputFault",
        Outcome::Memory => "Memory",
    }
}

/// Returns whether there is a plan, a history or a gate that was asked.
fn has_run(came: &Came) -> bool {
    came.whole.is_some() || came.history.is_some() || is_asked(came.gates.as_slice())
}

fn open_in(history: Option<&History>) -> &'static str {
    match history {
        Some(history) if is_some_open(history.entries.as_slice()) => "some",
        Some(_) => "none",
        None => "no history",
    }
}

/// Returns whether some attempt has not ended.
fn is_some_open(entries: &[Entry]) -> bool {
    for entry in entries {
        if let Entry::Start { worker, .. } = entry {
            if is_busy(entries, *worker) {
                return true;
            }
        }
    }
    false
}

fn end_of(end: JournalEnd) -> &'static str {
    match end {
        JournalEnd::Written => "Written",
        JournalEnd::NoRun => "NoRun",
        JournalEnd::TooLong => "TooLong",
        JournalEnd::FilesFault => "FilesFault",
        JournalEnd::Memory => "Memory",
    }
}

/// Tells a number, if there is one.
fn number_of(came: &Came, asked: &str) -> Option<Option<u64>> {
    match asked {
        "status" => Some(Some(u64::from(came.status))),
        "asked" => Some(Some(asked_by(came))),
        "unstarted" => Some(Some(unstarted_by(came))),
        "lines" => Some(Some(came.sink.pieces().len() as u64)),
        "plans" => Some(Some(came.plans as u64)),
        "tree" => Some(came.tree.map(u64::from)),
        "entries" => Some(
            came.history
                .as_ref()
                .map(|history| history.entries.len() as u64),
        ),
        "run-status" => Some(came.journal.map(|journal| u64::from(journal.of_run))),
        "check" => Some(
            came.journal
                .and_then(|journal| journal.check)
                .map(u64::from),
        ),
        "entry" => Some(repeated(came.outcome.as_ref())),
        _ => None,
    }
}

fn number_or_none(alloc: Global, number: Option<u64>) -> Result<String, NoMemory> {
    match number {
        Some(number) => Ok(number.to_string(alloc)?),
        None => Ok(String::from_str(alloc, "none")?),
    }
}

/// Counts the attempts that the gates were asked for.
fn asked_by(came: &Came) -> u64 {
    let mut asked = 0u64;
    for gate in &came.gates {
        asked = asked.saturating_add(gate.asked().len() as u64);
    }
    asked
}

/// Counts the attempts that the gates did not start.
fn unstarted_by(came: &Came) -> u64 {
    let mut unstarted = 0u64;
    for gate in &came.gates {
        unstarted = unstarted.saturating_add(gate.faults());
    }
    unstarted
}

/// Returns which entry of its list has the id of another one.
fn repeated(outcome: Option<&Outcome>) -> Option<u64> {
    match outcome {
        Some(
            Outcome::Refused(Refusal::Spec(SpecRefusal::Fault(SpecFault::TwiceId { entry, .. }))),
        ) => Some(u64::from(*entry)),
        _ => None,
    }
}

/// Tells a text. `None` where nothing tells what is asked.
fn text_told(alloc: Global, came: &Came, asked: &str) -> Result<Option<String>, NoMemory> {
    Ok(Some(match asked {
        "report" => String::from_str(alloc, written(&came.sink))?,
        "puts" => puts_of(alloc, &came.sink)?,
        "summary" => summary_of(alloc, &came.sink)?,
        "requests" => requests_of(alloc, came.gates.as_slice())?,
        "attempts" => asked_of(alloc, came.gates.as_slice())?,
        "history" => happened(alloc, came.history.as_ref())?,
        "left" => left_in(alloc, &came.files)?,
        "journal" => held_in(alloc, &came.files, JOURNAL)?,
        "fault" => fault_of(alloc, came.outcome.as_ref())?,
        "cycle" => cycle_of(alloc, came.outcome.as_ref())?,
        _ => return Ok(None),
    }))
}

/// Makes a text of what was put, with a `|` behind each piece that is not one line.
fn puts_of(alloc: Global, sink: &MemSink) -> Result<String, NoMemory> {
    let mut text = String::new(alloc);
    for piece in sink.pieces() {
        let piece = str::from_utf8(piece.bytes()).unwrap_or("?");
        text.push_str(piece)?;
        text.push_str(if is_line(piece) { "" } else { "|" })?;
    }
    Ok(text)
}

/// Returns whether a text is one line with its line feed.
fn is_line(text: &str) -> bool {
    text.ends_with('\n') && text.lines().count() == 1
}

fn summary_of(alloc: Global, sink: &MemSink) -> Result<String, NoMemory> {
    let (_, summary) = written(sink).split_once("\n\n").unwrap_or(("", ""));
    Ok(String::from_str(alloc, summary)?)
}

fn happened(alloc: Global, history: Option<&History>) -> Result<String, NoMemory> {
    match history {
        Some(history) => entries_of(alloc, history.entries.as_slice()),
        None => Ok(String::new(alloc)),
    }
}

fn fault_of(alloc: Global, outcome: Option<&Outcome>) -> Result<String, NoMemory> {
    match outcome {
        Some(Outcome::FilesFault { path }) => Ok(String::from_str(alloc, text_of(path))?),
        _ => Ok(String::from_str(alloc, "none")?),
    }
}

/// Tells the tests of a cycle that was refused, with a space between.
fn cycle_of(alloc: Global, outcome: Option<&Outcome>) -> Result<String, NoMemory> {
    let mut text = String::new(alloc);
    if let Some(Outcome::Refused(Refusal::Cycle(tests))) = outcome {
        for test in tests.as_slice() {
            let between = if text.is_empty() { "" } else { " " };
            text = format!(in alloc; "{text}{between}{test}")?;
        }
    }
    Ok(text)
}
