ghost use Rattle.std.specs.Prelude.{◌≡◌, ◌<◌, ◌-◌, ◌+◌, ◌^◌, ◌++◌, true, None, List, [], IfOk, IfSome, length};
ghost use Rattle.std.specs.Option.{option_copied};
ghost use Rattle.ct_history.specs.declared.history.Entry.{Entry};
ghost use Rattle.ct_history.specs.Legal.{is_allowed_so_far};
ghost use Rattle.ct_history.specs.Audited.{IsAuditOf};
ghost use Rattle.ct_journal_text.specs.Journal.{full_line};
ghost use Rattle.ct_journal_text.specs.declared.lines.JournalLine.TheVariants as Line;
ghost use Rattle.ct_journal_text.specs.Found.{LacksFirst};
ghost use Rattle.ct_explain.specs.Reading.{EndsAs, IsDoneAs, IsWhy, NotesAs, ReadsAs, ReadsBehind, TakesAs, TakesEntryAs};

use crate::entries::copy_entry;
use crate::why::{Why, why_not};
use ct_base::{List, NoMemory};
use ct_history::{Audit, Entry, Plan};
use ct_journal_text::{EntryLine, JournalLine, entry_of, read_line};
use std::alloc::Global;

/// The length of the first line of a journal, with its line feed.
const FIRST_LEN: usize = 13;

/// What a text is found to be.
#[derive(Debug, Drop)]
pub(crate) enum Reading {
    /// It is the journal of a complete legal history, with these entries.
    Whole(List<Entry>),
    /// The line with this number, counted from 1, is the first that is not good, for this reason. Where the
    /// text ends too early, it is one more than the number of lines.
    Broken { line: u32, why: Why },
}

/// What a line of a journal does behind the lines in front of it.
#[derive(Debug, Drop)]
enum Taken {
    /// It is the line of this entry, which is allowed.
    GoesOn(Entry),
    /// It is the last line of a complete legal history.
    Ends,
    /// It is not good.
    IsBad,
}

/// Reads a text in one pass: the history whose journal it is, or why it is none of a complete legal history
/// for a plan.
///
/// Source: this project's own.
pub(crate) fn read_run(alloc: Global, plan: &Plan, text: &[u8]) -> Result<Reading, NoMemory>
    requires size { length text.now < 2 ^ 32 - 2 }
    ensures { IfOk result (λ reading. ReadsAs plan.now text.now reading) }
{
    match behind_first(text) {
        Some(rest) => read_lines(alloc, plan, rest),
        None => Ok(Reading::Broken {
            line: 1,
            why: Why::NoLine,
        }),
    }
}

/// Reads the text behind the first line of a journal.
fn read_lines(alloc: Global, plan: &Plan, text: &[u8]) -> Result<Reading, NoMemory>
    requires size { length text.now < 2 ^ 32 - 2 }
    ensures { IfOk result (λ reading. ReadsBehind plan.now text.now reading) }
{
    let mut audit = Audit::new(alloc, plan);
    read_by(alloc, plan, text, &mut audit)
}

/// Reads the same text by an audit that has noted nothing so far.
fn read_by(alloc: Global, plan: &Plan, text: &[u8], audit: &mut Audit) -> Result<Reading, NoMemory>
    requires size { length text.now < 2 ^ 32 - 2 }
    requires fresh { IsAuditOf plan.now [] audit.old }
    ensures { IfOk result (λ reading. ReadsBehind plan.now text.now reading) }
{
    let mut entries: List<Entry> = List::new(alloc);
    let mut count: u32 = 0;
    let mut start = 0;
    for at in 0..text.len() {
        if text[at] == b'\n' {
            match take_line(alloc, plan, audit, count, &text[start..at])? {
                Taken::GoesOn(entry) => {
                    entries.push(entry)?;
                    count += 1;
                    start = at + 1;
                }
                Taken::Ends => {
                    let ends = at + 1 == text.len();
                    let line = &text[start..at];
                    return Ok(end_by(alloc, plan, audit, entries, count, line, ends)?);
                }
                Taken::IsBad => {
                    let why = why_line(alloc, plan, audit, count, &text[start..at])?;
                    return Ok(Reading::Broken {
                        line: count + 2,
                        why,
                    });
                }
            }
        }
    }
    Ok(Reading::Broken {
        line: count + 2,
        why: Why::NoLine,
    })
}

/// Says what a text is found to be whose last line stands behind these entries: that line is refused where
/// the text does not end with it.
fn end_by(
    alloc: Global,
    plan: &Plan,
    audit: &Audit,
    entries: List<Entry>,
    count: u32,
    line: &[u8],
    ends: bool,
) -> Result<Reading, NoMemory>
    requires few { count < 2 ^ 32 - 2 }
    ensures { IsAuditOf plan.now entries audit.now → is_allowed_so_far plan.now entries ≡ true →
        count ≡ length entries → IfOk result (λ reading. EndsAs plan.now entries line.now ends reading) }
{
    if ends {
        return Ok(Reading::Whole(entries));
    }
    Ok(Reading::Broken {
        line: count + 2,
        why: why_line(alloc, plan, audit, count, line)?,
    })
}

/// Returns why a line, without its line feed, is refused behind `count` entries that the audit has noted.
fn why_line(
    alloc: Global,
    plan: &Plan,
    audit: &Audit,
    count: u32,
    line: &[u8],
) -> Result<Why, NoMemory>
    ensures { (front : List Entry) → IsAuditOf plan.now front audit.now →
        is_allowed_so_far plan.now front ≡ true →
        count ≡ length front → IfOk result (λ why. IsWhy plan.now front line.now why) }
{
    let said = read_line(alloc, line)?;
    Ok(why_not(alloc, plan, audit, u64::from(count), said)?)
}

/// Takes a line of a journal, without its line feed, behind `count` entries that the audit has noted.
fn take_line(
    alloc: Global,
    plan: &Plan,
    audit: &mut Audit,
    count: u32,
    line: &[u8],
) -> Result<Taken, NoMemory>
    ensures { (front : List Entry) → IsAuditOf plan.now front audit.old → count ≡ length front →
        IfOk result (λ taken. TakesAs plan.now front line.now taken audit.new) }
{
    match read_line(alloc, line)? {
        Some(JournalLine::Entry(said)) => Ok(take_entry(alloc, plan, audit, said)?),
        Some(JournalLine::Done(entries)) => Ok(take_done(plan, audit, count, entries)),
        Some(JournalLine::First) => Ok(Taken::IsBad),
        None => Ok(Taken::IsBad),
    }
}

fn take_done(plan: &Plan, audit: &Audit, count: u32, entries: u64) -> Taken
    ensures { (front : List Entry) → IsAuditOf plan.now front audit.now → count ≡ length front →
        IsDoneAs plan.now front entries result }
{
    let ends = audit.is_at_end(plan);
    if entries == u64::from(count) && ends {
        Taken::Ends
    } else {
        Taken::IsBad
    }
}

fn take_entry(
    alloc: Global,
    plan: &Plan,
    audit: &mut Audit,
    line: EntryLine,
) -> Result<Taken, NoMemory>
    ensures { (front : List Entry) → IsAuditOf plan.now front audit.old →
        IfOk result (λ taken. TakesEntryAs plan.now front line taken audit.new) }
{
    match entry_of(alloc, plan, line)? {
        Some(entry) => Ok(note_entry(alloc, plan, audit, entry)?),
        None => Ok(Taken::IsBad),
    }
}

/// Notes an entry, and keeps it besides.
fn note_entry(
    alloc: Global,
    plan: &Plan,
    audit: &mut Audit,
    entry: Entry,
) -> Result<Taken, NoMemory>
    ensures { (front : List Entry) → IsAuditOf plan.now front audit.old →
        IfOk result (λ taken. NotesAs plan.now front entry taken audit.new) }
{
    if audit.allows(plan, &entry) {
        audit.note(plan, copy_entry(alloc, &entry)?)?;
        Ok(Taken::GoesOn(entry))
    } else {
        Ok(Taken::IsBad)
    }
}

/// Lends the text behind the first line of a journal and its line feed, where it begins with these.
fn behind_first(text: &[u8]) -> Option<&[u8]>
    ensures some { IfSome (option_copied result) (λ rest. text.now ≡ full_line Line.First ++ rest) }
    ensures none { option_copied result ≡ None → LacksFirst text.now }
{
    if text.len() < FIRST_LEN {
        return None;
    }
    if &text[..FIRST_LEN] == b"ct-journal 1\n".as_slice() {
        Some(&text[FIRST_LEN..])
    } else {
        None
    }
}
