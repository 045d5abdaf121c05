ghost use Rattle.std.specs.Prelude.{◌≡◌, IfOk, List, length};
ghost use Rattle.ct_history.specs.declared.history.Entry.{Entry};
ghost use Rattle.ct_history.specs.Plan.{test_at};
ghost use Rattle.ct_history.specs.Audited.{IsAuditOf};
ghost use Rattle.ct_journal_text.specs.Checked.{FindsEntry, FindsPlacement, IsDoneLine, NotesLine, TakesLine, TakesEntryOr};

use crate::placements::placement_at;
use crate::reader::read_line;
use crate::{EntryLine, JournalLine};
use ct_alloc::Placement;
use ct_base::{List, NoMemory};
use ct_history::{Audit, Entry, Plan, planned_test};
use std::alloc::Global;

/// What a line of a journal does behind the lines in front of it.
#[derive(Clone, Copy, Debug)]
pub enum Step {
    /// It is the line of an entry that is allowed.
    GoesOn,
    /// It is the last line of a complete legal history.
    Ends,
    /// It is not good.
    IsBad,
}

/// Takes a line of a journal, without its line feed, behind `count` entries that the audit has noted.
///
/// Source: this project's choice.
pub fn take_line(
    alloc: Global,
    plan: &Plan,
    audit: &mut Audit,
    count: u64,
    line: &[u8],
) -> Result<Step, NoMemory>
    ensures { (front : List Entry) → IsAuditOf plan.now front audit.old → count ≡ length front → IfOk result (λ step. TakesLine plan.now front line.now step audit.new) }
{
    match read_line(alloc, line)? {
        Some(JournalLine::Entry(said)) => Ok(take_entry(alloc, plan, audit, said)?),
        Some(JournalLine::Done(entries)) => Ok(done_step(plan, audit, count, entries)),
        Some(JournalLine::First) => Ok(Step::IsBad),
        None => Ok(Step::IsBad),
    }
}

fn done_step(plan: &Plan, audit: &Audit, count: u64, entries: u64) -> Step
    ensures { (front : List Entry) → IsAuditOf plan.now front audit.now → count ≡ length front → IsDoneLine plan.now front entries result }
{
    let ends = audit.is_at_end(plan);
    if entries == count && ends {
        Step::Ends
    } else {
        Step::IsBad
    }
}

fn take_entry(
    alloc: Global,
    plan: &Plan,
    audit: &mut Audit,
    line: EntryLine,
) -> Result<Step, NoMemory>
    ensures { (front : List Entry) → IsAuditOf plan.now front audit.old → IfOk result (λ step. TakesEntryOr plan.now front line step audit.new) }
{
    match entry_of(alloc, plan, line)? {
        Some(entry) => Ok(note_entry(plan, audit, entry)?),
        None => Ok(Step::IsBad),
    }
}

fn note_entry(plan: &Plan, audit: &mut Audit, entry: Entry) -> Result<Step, NoMemory>
    ensures { (front : List Entry) → IsAuditOf plan.now front audit.old → IfOk result (λ step. NotesLine plan.now front entry step audit.new) }
{
    if audit.allows(plan, &entry) {
        audit.note(plan, entry)?;
        Ok(Step::GoesOn)
    } else {
        Ok(Step::IsBad)
    }
}

/// Completes the line of an entry to the entry.
///
/// Source: this project's choice.
pub fn entry_of(alloc: Global, plan: &Plan, line: EntryLine) -> Result<Option<Entry>, NoMemory>
    ensures { IfOk result (λ found. FindsEntry plan.now line found) }
{
    match line {
        EntryLine::Start {
            test,
            attempt,
            worker,
            places: Some(places),
        } => match placement_of(alloc, plan, test, &places)? {
            Some(placement) => Ok(Some(Entry::Start {
                test,
                attempt,
                worker,
                placement: Some(placement),
            })),
            None => Ok(None),
        },
        EntryLine::Start {
            test,
            attempt,
            worker,
            places: None,
        } => Ok(Some(Entry::Start {
            test,
            attempt,
            worker,
            placement: None,
        })),
        EntryLine::End {
            test,
            attempt,
            worker,
            seen,
        } => Ok(Some(Entry::End {
            test,
            attempt,
            worker,
            seen,
        })),
        EntryLine::Settle { test, cause } => Ok(Some(Entry::Settle { test, cause })),
        EntryLine::Stop => Ok(Some(Entry::Stop)),
    }
}

/// Completes the places of a start of a test to its placement, where the plan has resources and the test.
fn placement_of(
    alloc: Global,
    plan: &Plan,
    test: u32,
    places: &List<u32>,
) -> Result<Option<Placement>, NoMemory>
    ensures { IfOk result (λ found. FindsPlacement plan.now.resources (test_at plan.now.tests test) places.now found) }
{
    let Some(resources) = &plan.parts().resources else {
        return Ok(None);
    };
    match planned_test(plan, test) {
        Some(test) => Ok(placement_at(
            alloc,
            resources.as_slice(),
            test.needs.as_slice(),
            places.as_slice(),
        )?),
        None => Ok(None),
    }
}
