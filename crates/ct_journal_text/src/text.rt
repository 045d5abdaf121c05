ghost use Rattle.std.specs.Prelude.{◌≡◌, [], ◌<◌, ◌+◌, ◌-◌, ◌^◌, ◌++◌, None, Some, IfOk, IfSome, if◌then◌else◌};
ghost use Rattle.std.specs.Option.{option_copied};
ghost use Rattle.ct_history.specs.Audited.{IsAuditOf};
ghost use Rattle.ct_journal_text.specs.Journal.{full_line};
ghost use Rattle.ct_journal_text.specs.declared.lines.JournalLine.TheVariants as Line;
ghost use Rattle.ct_journal_text.specs.Found.{Finds, FindsBehind, IsSoleFinding, LacksFirst};

use crate::check::{Step, take_line};
use ct_base::NoMemory;
use ct_history::{Audit, Plan};
use std::alloc::Global;

/// The length of the first line of a journal, with its line feed.
const FIRST_LEN: usize = 13;

/// Checks a text in one pass: whether it is the journal of a complete legal history for a plan.
///
/// Returns the number of the first line that is not good, from 1. Where the text ends too early,
/// this is one more than the number of its lines. Returns `None` exactly where the text is accepted.
///
/// Source: this project's choice.
pub fn check_text(alloc: Global, plan: &Plan, text: &[u8]) -> Result<Option<u64>, NoMemory>
    ensures found { IfOk result (λ found. Finds plan.now text.now found) }
    ensures sole { IfOk result (λ found. IsSoleFinding plan.now text.now found) }
{
    Ok(find_in(alloc, plan, text)?)
}

fn find_in(alloc: Global, plan: &Plan, text: &[u8]) -> Result<Option<u64>, NoMemory>
    ensures { IfOk result (λ found. Finds plan.now text.now found) }
{
    match behind_first(text) {
        Some(rest) => check_lines(alloc, plan, rest),
        None => Ok(Some(1)),
    }
}

/// Checks the text behind the first line of a journal.
fn check_lines(alloc: Global, plan: &Plan, text: &[u8]) -> Result<Option<u64>, NoMemory>
    ensures { IfOk result (λ found. FindsBehind plan.now text.now found) }
{
    let mut audit = Audit::new(alloc, plan);
    check_by(alloc, plan, text, &mut audit)
}

/// Checks the same text by an audit that has noted nothing so far.
fn check_by(
    alloc: Global,
    plan: &Plan,
    text: &[u8],
    audit: &mut Audit,
) -> Result<Option<u64>, NoMemory>
    requires fresh { IsAuditOf plan.now [] audit.old }
    ensures { IfOk result (λ found. FindsBehind plan.now text.now found) }
{
    let mut count: u64 = 0;
    let mut start = 0;
    for at in 0..text.len() {
        if text[at] == b'\n' {
            match take_line(alloc, plan, audit, count, &text[start..at])? {
                Step::GoesOn => {
                    count += 1;
                    start = at + 1;
                }
                Step::Ends => return Ok(behind_last(at + 1 == text.len(), count)),
                Step::IsBad => return Ok(Some(count + 2)),
            }
        }
    }
    Ok(Some(count + 2))
}

/// Gives the answer for a last line of `count` entries: it is good where the text ends behind it.
fn behind_last(ends: bool, count: u64) -> Option<u64>
    requires { count < 2 ^ 64 - 2 }
    ensures { result ≡ (if ends then None else Some (count + 2)) }
{
    if ends { None } else { Some(count + 2) }
}

/// Lends the text behind the first line of a journal and its line feed, where it begins with these.
fn behind_first(text: &[u8]) -> Option<&[u8]>
    ensures some { IfSome (option_copied result) (λ rest. text.now ≡ full_line Line.First ++ rest) }
    ensures none { option_copied result ≡ None → LacksFirst text.now }
{
    if text.len() < FIRST_LEN {
        return None;
    }
    if &text[..FIRST_LEN] == b"ct-journal 1\n".as_slice() {
        Some(&text[FIRST_LEN..])
    } else {
        None
    }
}
