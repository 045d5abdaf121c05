ghost use Rattle.std.specs.Prelude.{◌≡◌, ◌++◌, [], IfOk, None, OnOk, Some, codes, decimal, flat_map, if◌then◌else◌, length, nat_lt, not, option_map, true};
ghost use Rattle.std.specs.Option.{option_copied};
ghost use Rattle.ct_journal_text.specs.declared.lines.JournalLine.TheVariants as Line;
ghost use Rattle.ct_journal_text.specs.Journal.{attempt_text as front_of_line, not_run_word as cause_written, entry_text as line_of_entry, full_line, journal_of, journal_line_text as written, listed, noted as said, places_of_placement as resources_of, places_text as said_of_places, seen_text as said_of_attempt};

use crate::words::{append_cause, append_how, hits_text};
use crate::{EntryLine, JournalLine};
use ct_alloc::Placement;
use ct_base::{Blob, List, NoMemory};
use ct_history::Entry;
use ct_verdict::{Cause, Seen};
use std::alloc::Global;

/// Writes the journal of a history: its first line, a line for each entry, and its last line.
/// It stands for callers of the library: no program calls it.
///
/// Source: this project's choice.
pub fn journal_text(alloc: Global, entries: &[Entry]) -> Result<Blob, NoMemory>
    ensures { IfOk result (λ text. text ≡ journal_of entries.now) }
{
    let mut text = Blob::new(alloc);
    append_journal(alloc, &mut text, entries)?;
    Ok(text)
}

/// Puts the journal of a history behind the text.
fn append_journal(alloc: Global, text: &mut Blob, entries: &[Entry]) -> Result<(), NoMemory>
    ensures { OnOk result (text.new ≡ text.old ++ journal_of entries.now) }
{
    append_line(alloc, text, &JournalLine::First)?;
    for entry in entries {
        append_noted(alloc, text, entry)?;
    }
    append_line(alloc, text, &JournalLine::Done(entries.len() as u64))
}

/// Writes the journal of a history, or returns `None` where it has more than `most` bytes.
///
/// A journal that is too long is given up at the first line behind the limit.
///
/// Source: this project's choice.
pub fn journal_within(alloc: Global, entries: &[Entry], most: u64) -> Result<Option<Blob>, NoMemory>
    ensures { IfOk result (λ text. text ≡ (if nat_lt most (length (journal_of entries.now)) then None else Some (journal_of entries.now))) }
{
    let mut text = Blob::new(alloc);
    if fill_within(alloc, &mut text, entries, most)? {
        Ok(Some(text))
    } else {
        Ok(None)
    }
}

/// Puts the journal of a history into an empty text, and returns whether it has at most `most` bytes.
///
/// Where it has more, the text may lack lines.
fn fill_within(
    alloc: Global,
    text: &mut Blob,
    entries: &[Entry],
    most: u64,
) -> Result<bool, NoMemory>
    requires empty { text.old ≡ [] }
    ensures fits { IfOk result (λ fits. fits ≡ not (nat_lt most (length (journal_of entries.now)))) }
    ensures filled { IfOk result (λ fits. fits ≡ true → text.new ≡ journal_of entries.now) }
{
    append_line(alloc, text, &JournalLine::First)?;
    for entry in entries {
        if text.bytes().len() as u64 > most {
            return Ok(false);
        }
        append_noted(alloc, text, entry)?;
    }
    append_line(alloc, text, &JournalLine::Done(entries.len() as u64))?;
    Ok(text.bytes().len() as u64 <= most)
}

/// Puts the line of an entry with its line feed behind the text.
fn append_noted(alloc: Global, text: &mut Blob, entry: &Entry) -> Result<(), NoMemory>
    ensures { OnOk result (text.new ≡ text.old ++ full_line (Line.Entry (said entry.now))) }
{
    let line = JournalLine::Entry(noted(alloc, entry)?);
    append_line(alloc, text, &line)
}

/// Puts a line with its line feed behind the text.
fn append_line(alloc: Global, text: &mut Blob, line: &JournalLine) -> Result<(), NoMemory>
    ensures { OnOk result (text.new ≡ text.old ++ full_line line.now) }
{
    append_bare_line(alloc, text, line)?;
    text.append(b"\n")
}

/// Writes a line of a journal, without its line feed.
///
/// Source: this project's choice.
pub fn line_text(alloc: Global, line: &JournalLine) -> Result<Blob, NoMemory>
    ensures { IfOk result (λ text. text ≡ written line.now) }
{
    let mut text = Blob::new(alloc);
    append_bare_line(alloc, &mut text, line)?;
    Ok(text)
}

/// Puts a line without its line feed behind the text.
fn append_bare_line(alloc: Global, text: &mut Blob, line: &JournalLine) -> Result<(), NoMemory>
    ensures { OnOk result (text.new ≡ text.old ++ written line.now) }
{
    match line {
        JournalLine::First => text.append(b"ct-journal 1"),
        JournalLine::Entry(entry) => append_entry(alloc, text, entry),
        JournalLine::Done(count) => append_done(alloc, text, *count),
    }
}

/// Puts the last line of a journal of so many entries behind the text.
fn append_done(alloc: Global, text: &mut Blob, count: u64) -> Result<(), NoMemory>
    ensures { OnOk result (text.new ≡ text.old ++ codes "done " ++ decimal count) }
{
    text.append(b"done ")?;
    text.append_number(alloc, u128::from(count))
}

/// Puts the line of an entry without its line feed behind the text.
fn append_entry(alloc: Global, text: &mut Blob, entry: &EntryLine) -> Result<(), NoMemory>
    ensures { OnOk result (text.new ≡ text.old ++ line_of_entry entry.now) }
{
    match entry {
        EntryLine::Start {
            test,
            attempt,
            worker,
            places,
        } => {
            append_attempt(alloc, text, b"start ", *test, *attempt, *worker)?;
            append_places(alloc, text, places.as_ref())
        }
        EntryLine::End {
            test,
            attempt,
            worker,
            seen,
        } => {
            append_attempt(alloc, text, b"end ", *test, *attempt, *worker)?;
            append_seen(alloc, text, seen)
        }
        EntryLine::Settle { test, cause } => append_settle(alloc, text, *test, *cause),
        EntryLine::Stop => text.append(b"stop"),
    }
}

/// Puts the front of a line that speaks of an attempt behind the text.
fn append_attempt(
    alloc: Global,
    text: &mut Blob,
    name: &[u8],
    test: u32,
    attempt: u32,
    worker: u32,
) -> Result<(), NoMemory>
    ensures { OnOk result (text.new ≡ text.old ++ front_of_line name.now test attempt worker) }
{
    text.append(name)?;
    text.append_number(alloc, u128::from(test))?;
    append_next(alloc, text, u64::from(attempt))?;
    append_next(alloc, text, u64::from(worker))
}

/// Puts a blank and a number in decimal behind the text.
fn append_next(alloc: Global, text: &mut Blob, number: u64) -> Result<(), NoMemory>
    ensures { OnOk result (text.new ≡ text.old ++ codes " " ++ decimal number) }
{
    text.append(b" ")?;
    text.append_number(alloc, u128::from(number))
}

/// Puts what a line says of a placement behind the text.
fn append_places(alloc: Global, text: &mut Blob, places: Option<&List<u32>>) -> Result<(), NoMemory>
    ensures { OnOk result (text.new ≡ text.old ++ said_of_places (option_copied places.entry)) }
{
    match places {
        None => Ok(()),
        Some(places) => {
            text.append(b" at ")?;
            append_list(alloc, text, places.as_slice())
        }
    }
}

/// Puts the places of resources with commas between them behind the text.
fn append_list(alloc: Global, text: &mut Blob, places: &[u32]) -> Result<(), NoMemory>
    ensures { OnOk result (text.new ≡ text.old ++ listed places.now) }
{
    match places {
        [] => Ok(()),
        [first, rest @ ..] => {
            text.append_number(alloc, u128::from(*first))?;
            append_others(alloc, text, rest)
        }
    }
}

fn append_others(alloc: Global, text: &mut Blob, places: &[u32]) -> Result<(), NoMemory>
    ensures { OnOk result (text.new ≡ text.old ++ flat_map (λ other. codes "," ++ decimal other) places.now) }
{
    for place in places {
        text.append(b",")?;
        text.append_number(alloc, u128::from(*place))?;
    }
    Ok(())
}

/// Puts what was seen of an attempt behind the text.
fn append_seen(alloc: Global, text: &mut Blob, seen: &Seen) -> Result<(), NoMemory>
    ensures { OnOk result (text.new ≡ text.old ++ said_of_attempt seen.now) }
{
    text.append(b" ")?;
    append_how(alloc, text, seen.how)?;
    text.append(b" ")?;
    text.append(&hits_text(seen))?;
    append_next(alloc, text, seen.micros)
}

/// Puts what settles a test behind the text.
fn append_settle(alloc: Global, text: &mut Blob, test: u32, cause: Cause) -> Result<(), NoMemory>
    ensures { OnOk result (text.new ≡ text.old ++ codes "settle " ++ decimal test ++ codes " " ++ cause_written cause) }
{
    text.append(b"settle ")?;
    text.append_number(alloc, u128::from(test))?;
    text.append(b" ")?;
    append_cause(alloc, text, cause)
}

/// Gives what a journal says of an entry.
fn noted(alloc: Global, entry: &Entry) -> Result<EntryLine, NoMemory>
    ensures { IfOk result (λ line. line ≡ said entry.now) }
{
    match entry {
        Entry::Start {
            test,
            attempt,
            worker,
            placement,
        } => Ok(EntryLine::Start {
            test: *test,
            attempt: *attempt,
            worker: *worker,
            places: places_of(alloc, placement.as_ref())?,
        }),
        Entry::End {
            test,
            attempt,
            worker,
            seen,
        } => Ok(EntryLine::End {
            test: *test,
            attempt: *attempt,
            worker: *worker,
            seen: *seen,
        }),
        Entry::Settle { test, cause } => Ok(EntryLine::Settle {
            test: *test,
            cause: *cause,
        }),
        Entry::Stop => Ok(EntryLine::Stop),
    }
}

fn places_of(alloc: Global, placement: Option<&Placement>) -> Result<Option<List<u32>>, NoMemory>
    ensures { IfOk result (λ places. places ≡ option_map resources_of (option_copied placement.entry)) }
{
    match placement {
        None => Ok(None),
        Some(placement) => Ok(Some(resources_of(alloc, placement)?)),
    }
}

/// Gathers the places of the resources of a placement.
fn resources_of(alloc: Global, placement: &Placement) -> Result<List<u32>, NoMemory>
    ensures { IfOk result (λ places. places ≡ resources_of placement.now) }
{
    let mut places = List::new(alloc);
    for pick in placement.picks.as_slice() {
        places.push(pick.resource)?;
    }
    Ok(places)
}
