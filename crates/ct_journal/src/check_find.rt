ghost use Rattle.std.specs.Prelude.{◌≡◌, ◌∷◌, ◌<◌, ◌-◌, ◌^◌, Some, IfOk, IfErr, length};
ghost use Rattle.ct_journal.specs.File.{HasJournalSize};
ghost use Rattle.ct_journal.specs.CheckFound.{IsFinding};
ghost use Rattle.ct_journal.specs.CheckSteps.{IsFoundAt, IsUnfound, LeadsTo};

use crate::limit::MOST_JOURNAL_BYTES;
use ct_app::{Outcome, Unplanned, plan_words, unread};
use ct_base::{Blob, Files, FilesFault, Name, NoMemory};
use ct_history::Plan;
use ct_journal_text::check_text;
use std::alloc::Global;

/// What is found of a journal.
#[derive(Clone, Copy, Debug)]
pub(crate) enum Finding {
    /// It is the journal of a complete legal history.
    Accepted,
    /// The line with this number, counted from 1, is the first that is not good.
    Refused { line: u32 },
    /// It has more than 256 MiB.
    TooLong,
}

/// Makes the plan of the words, and finds whether the file at a path is a journal for it.
#[tactic(auto, using(crate::proofs::CheckStepLemmas::found_then, crate::proofs::CheckStepLemmas::unfound_then))]
pub(crate) fn find_for<F: Files>(
    alloc: Global,
    path: &Name,
    words: &[Name],
    files: &mut F,
) -> Result<Finding, Unplanned>
    requires few { length words.now < 2 ^ 32 - 1 }
    ensures { LeadsTo (path.now ∷ words.now) (F.tells files.old) (F.tells files.new) result }
{
    let plan = plan_words(alloc, words, files)?;
    match find_at(alloc, path, &plan, files) {
        Ok(finding) => Ok(finding),
        Err(outcome) => Err(unread(alloc, outcome)),
    }
}

/// Finds whether the file at a path is a journal for a plan.
#[tactic(auto, using(crate::proofs::CheckStepLemmas::found_at, crate::proofs::CheckStepLemmas::unread_at, crate::proofs::CheckStepLemmas::short_before, crate::proofs::CheckStepLemmas::short_in, crate::proofs::CheckStepLemmas::short_behind))]
fn find_at<F: Files>(
    alloc: Global,
    path: &Name,
    plan: &Plan,
    files: &mut F,
) -> Result<Finding, Outcome>
    ensures ok { IfOk result (IsFoundAt path.now plan.now (F.tells files.old) (F.tells files.new)) }
    ensures err { IfErr result (IsUnfound path.now (F.tells files.old) (F.tells files.new)) }
{
    let path = path.copy(alloc)?;
    match files.read(alloc, &path, MOST_JOURNAL_BYTES) {
        Ok(held) => Ok(find(alloc, plan, held)?),
        Err(FilesFault::Failed) => Err(Outcome::FilesFault { path }),
        Err(FilesFault::NoMemory) => Err(Outcome::Memory),
    }
}

/// Finds whether what was read of a file, at most one byte more than the limit, is a journal for a plan.
fn find(alloc: Global, plan: &Plan, held: Option<Blob>) -> Result<Finding, NoMemory>
    ensures { IfOk result (IsFinding plan.now held) }
{
    match held {
        None => Ok(Finding::Refused { line: 1 }),
        Some(text) if text.bytes().len() as u64 > MOST_JOURNAL_BYTES => Ok(Finding::TooLong),
        Some(text) => find_in(alloc, plan, text.bytes()),
    }
}

#[tactic(auto, using(crate::proofs::CheckFoundLemmas::line_fits))]
fn find_in(alloc: Global, plan: &Plan, text: &[u8]) -> Result<Finding, NoMemory>
    requires size { HasJournalSize text.now }
    ensures { IfOk result (IsFinding plan.now (Some text.now)) }
{
    match check_text(alloc, plan, text)? {
        None => Ok(Finding::Accepted),
        Some(line) => Ok(Finding::Refused { line: line as u32 }),
    }
}
