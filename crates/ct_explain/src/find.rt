ghost use Rattle.std.specs.Prelude.{◌≡◌, ◌∷◌, ◌<◌, ◌-◌, ◌^◌, Some, IfOk, IfErr, length};
ghost use Rattle.ct_journal.specs.File.{HasJournalSize};
ghost use Rattle.ct_journal.specs.CheckSteps.{IsUnfound};
ghost use Rattle.ct_explain.specs.Found.{IsFoundOf};
ghost use Rattle.ct_explain.specs.Steps.{FindsAt, ExplainLeadsTo};

use crate::reading::{Reading, read_run};
use crate::story::{Story, story_of};
use crate::why::Why;
use ct_app::{Outcome, Unplanned, plan_words, unread};
use ct_base::{Blob, Files, FilesFault, Name, NoMemory};
use ct_history::Plan;
use ct_journal::MOST_JOURNAL_BYTES;
use std::alloc::Global;

/// What is found of a journal.
#[derive(Drop)]
pub(crate) enum Finding {
    /// It is the journal of a complete legal history, which tells this.
    Told(Story),
    /// The line with this number, counted from 1, is the first that is not good, for this reason.
    Refused { line: u32, why: Why },
    /// It has more than 256 MiB.
    TooLong,
}

/// What is found of a journal for the plan of the words.
#[derive(Drop)]
pub(crate) struct Found {
    pub(crate) plan: Plan,
    pub(crate) finding: Finding,
}

/// Makes the plan of the words, and finds what the journal at a path tells of it.
#[tactic(auto, using(crate::proofs::StepLemmas::found_then))]
pub(crate) fn find_for<F: Files>(
    alloc: Global,
    path: &Name,
    words: &[Name],
    files: &mut F,
) -> Result<Found, Unplanned>
    requires few { length words.now < 2 ^ 32 - 1 }
    ensures { ExplainLeadsTo (path.now ∷ words.now) (F.tells files.old) (F.tells files.new) result }
{
    let plan = plan_words(alloc, words, files)?;
    match find_at(alloc, path, &plan, files) {
        Ok(finding) => Ok(Found { plan, finding }),
        Err(outcome) => Err(unread(alloc, outcome)),
    }
}

/// Finds what the journal at a path tells for a plan.
#[tactic(auto, using(ct_journal::proofs::CheckStepLemmas::unread_at, ct_journal::proofs::CheckStepLemmas::short_before, ct_journal::proofs::CheckStepLemmas::short_in, ct_journal::proofs::CheckStepLemmas::short_behind))]
fn find_at<F: Files>(
    alloc: Global,
    path: &Name,
    plan: &Plan,
    files: &mut F,
) -> Result<Finding, Outcome>
    ensures ok { IfOk result (FindsAt path.now plan.now (F.tells files.old) (F.tells files.new)) }
    ensures err { IfErr result (IsUnfound path.now (F.tells files.old) (F.tells files.new)) }
{
    let path = path.copy(alloc)?;
    match files.read(alloc, &path, MOST_JOURNAL_BYTES) {
        Ok(held) => Ok(find(alloc, plan, held)?),
        Err(FilesFault::Failed) => Err(Outcome::FilesFault { path }),
        Err(FilesFault::NoMemory) => Err(Outcome::Memory),
    }
}

/// Finds what a text that was read of a file, at most one byte more than the limit, tells for a plan.
fn find(alloc: Global, plan: &Plan, held: Option<Blob>) -> Result<Finding, NoMemory>
    ensures { IfOk result (IsFoundOf plan.now held) }
{
    match held {
        None => Ok(Finding::Refused {
            line: 1,
            why: Why::NoLine,
        }),
        Some(text) if text.bytes().len() as u64 > MOST_JOURNAL_BYTES => Ok(Finding::TooLong),
        Some(text) => find_in(alloc, plan, text.bytes()),
    }
}

#[tactic(auto, using(crate::proofs::StepLemmas::told_finding, crate::proofs::StepLemmas::refused_finding))]
fn find_in(alloc: Global, plan: &Plan, text: &[u8]) -> Result<Finding, NoMemory>
    requires size { HasJournalSize text.now }
    ensures { IfOk result (IsFoundOf plan.now (Some text.now)) }
{
    match read_run(alloc, plan, text)? {
        Reading::Whole(entries) => Ok(Finding::Told(story_of(alloc, plan, entries)?)),
        Reading::Broken { line, why } => Ok(Finding::Refused { line, why }),
    }
}
