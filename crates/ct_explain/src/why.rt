ghost use Rattle.std.specs.Prelude.{◌≡◌, true, List, IfOk, length, option_map};
ghost use Rattle.ct_history.specs.declared.history.Entry.{Entry};
ghost use Rattle.ct_history.specs.Legal.{is_allowed_so_far};
ghost use Rattle.ct_history.specs.Audited.{IsAuditOf};
ghost use Rattle.ct_journal_text.specs.Completed.{of_picks, picks_by};
ghost use Rattle.ct_explain.specs.Reasons as Reasons;

use crate::wait::{Wait, hand_out_times, wait_of};
use ct_alloc::Placement;
use ct_base::{List, NoMemory, Resource};
use ct_history::{Audit, Plan, PlanTest, planned_test};
use ct_journal_text::{EntryLine, JournalLine, placement_at};
use std::alloc::Global;

/// Why a line of a journal is refused.
#[derive(Debug, Drop)]
pub enum Why {
    /// It is not a line of a journal.
    NoLine,
    StopIsDue,
    NoStopIsDue,
    /// The plan has no test with this number.
    NoTest(u32),
    /// The test with this number is final.
    IsFinal(u32),
    /// The Start of a test waited for something.
    Waited { test: u32, wait: Wait },
    /// The test with this number may not start.
    MayNotStart(u32),
    /// The attempt that ends is not open.
    NoSuchStart,
    /// The test with this number may not be settled so.
    MayNotBeSettled(u32),
    /// A test is not final, or something is open.
    IsNotComplete,
    /// The last line tells another number of entries.
    NotThisManyEntries,
}

/// Returns why a line is refused behind `count` entries that the audit has noted: the first reason that
/// holds.
///
/// A last line that is good by itself is refused where text stands behind it: this is no line of a journal.
///
/// Source: this project's own.
pub(crate) fn why_not(
    alloc: Global,
    plan: &Plan,
    audit: &Audit,
    count: u64,
    line: Option<JournalLine>,
) -> Result<Why, NoMemory>
    ensures { (front : List Entry) → IsAuditOf plan.now front audit.now →
        is_allowed_so_far plan.now front ≡ true →
        count ≡ length front → IfOk result (λ why. why ≡ Reasons.first_reason plan.now front line) }
{
    match line {
        Some(JournalLine::Entry(line)) => why_not_entry(alloc, plan, audit, line),
        Some(JournalLine::Done(entries)) => Ok(why_not_done(plan, audit, count, entries)),
        Some(JournalLine::First) => Ok(Why::NoLine),
        None => Ok(Why::NoLine),
    }
}

/// Returns why a last line that tells this number of entries is refused.
fn why_not_done(plan: &Plan, audit: &Audit, count: u64, entries: u64) -> Why
    ensures { (front : List Entry) → IsAuditOf plan.now front audit.now → count ≡ length front →
        result ≡ Reasons.why_not_done plan.now front entries }
{
    if audit.is_stop_due() {
        Why::StopIsDue
    } else if !audit.is_at_end(plan) {
        Why::IsNotComplete
    } else if entries != count {
        Why::NotThisManyEntries
    } else {
        Why::NoLine
    }
}

/// Returns why the line of an entry is refused.
fn why_not_entry(
    alloc: Global,
    plan: &Plan,
    audit: &Audit,
    line: EntryLine,
) -> Result<Why, NoMemory>
    ensures { (front : List Entry) → IsAuditOf plan.now front audit.now →
        is_allowed_so_far plan.now front ≡ true →
        IfOk result (λ why. why ≡ Reasons.why_not_by plan.now front line (Reasons.line_test line)) }
{
    let Some(number) = test_of(&line) else {
        return Ok(Why::NoStopIsDue);
    };
    if audit.is_stop_due() {
        return Ok(Why::StopIsDue);
    }
    let Some(test) = planned_test(plan, number) else {
        return Ok(Why::NoTest(number));
    };
    let parts = plan.parts();
    hand_out_times(parts);
    if audit.verdict_of(parts, number).is_some() {
        return Ok(Why::IsFinal(number));
    }
    why_not_of(alloc, plan, audit, test, line)
}

/// Returns the number of the test that the line of an entry speaks of, if it speaks of one.
fn test_of(line: &EntryLine) -> Option<u32>
    ensures { result ≡ Reasons.line_test line.now }
{
    match line {
        EntryLine::Start { test, .. }
        | EntryLine::End { test, .. }
        | EntryLine::Settle { test, .. } => Some(*test),
        EntryLine::Stop => None,
    }
}

/// Returns why the line of an entry is refused that speaks of this test, which is not final.
fn why_not_of(
    alloc: Global,
    plan: &Plan,
    audit: &Audit,
    test: &PlanTest,
    line: EntryLine,
) -> Result<Why, NoMemory>
    ensures { (front : List Entry) → IsAuditOf plan.now front audit.now →
        is_allowed_so_far plan.now front ≡ true →
        IfOk result (λ why. why ≡ Reasons.why_not_of plan.now front test.now line) }
{
    match line {
        EntryLine::Start {
            attempt,
            worker,
            places,
            ..
        } => {
            let placement = placement_in(alloc, plan, test, places)?;
            let wait = wait_of(
                alloc,
                plan,
                audit,
                test,
                attempt,
                worker,
                placement.as_ref(),
            )?;
            Ok(why_not_start(test.number, wait))
        }
        EntryLine::End { .. } => Ok(Why::NoSuchStart),
        EntryLine::Settle { .. } => Ok(Why::MayNotBeSettled(test.number)),
        EntryLine::Stop => Ok(Why::NoStopIsDue),
    }
}

/// Completes the places of a Start to its placement, where it has places and the plan has resources.
fn placement_in(
    alloc: Global,
    plan: &Plan,
    test: &PlanTest,
    places: Option<List<u32>>,
) -> Result<Option<Placement>, NoMemory>
    ensures { IfOk result (λ found. found ≡ Reasons.start_placement plan.now.resources test.now places) }
{
    match (&plan.parts().resources, places) {
        (Some(resources), Some(places)) => {
            placement_on(alloc, resources.as_slice(), test, places.as_slice())
        }
        _ => Ok(None),
    }
}

fn placement_on(
    alloc: Global,
    resources: &[Resource],
    test: &PlanTest,
    places: &[u32],
) -> Result<Option<Placement>, NoMemory>
    ensures { IfOk result
        (λ found. found ≡ option_map of_picks (picks_by resources.now test.now.needs places.now)) }
{
    Ok(placement_at(alloc, resources, test.needs.as_slice(), places)?)
}

/// Returns why a Start is refused that waited for this.
fn why_not_start(test: u32, wait: Wait) -> Why
    ensures { result ≡ Reasons.why_not_start test wait }
{
    match wait {
        Wait::Nothing => Why::MayNotStart(test),
        wait => Why::Waited { test, wait },
    }
}
