ghost use Rattle.std.specs.Prelude.{◌<◌, ◌-◌, ◌^◌, length};
ghost use Rattle.ct_base.specs.Outside.{Becomes, SameHeld};
ghost use Rattle.ct_journal.specs.Check.{AnswersCheck, CompletesCheck};
ghost use Rattle.ct_journal.specs.CheckSteps.{LeadsTo};

use crate::check_find::{Finding, find_for};
use crate::check_report::report_check;
use ct_app::{Outcome, Refusal, Unplanned, UsageKind, unread};
use ct_base::{Files, Name, Sink};
use std::alloc::Global;

/// How a check of a journal ended.
#[derive(Debug, Drop)]
pub enum CheckOutcome {
    /// The file is the journal of a complete legal history for the plan of the words.
    Yes,
    /// The line with this number, counted from 1, is the first that is not good. Where the text ends too
    /// early, it is one more than the number of lines. For an absent file it is 1.
    No { line: u32 },
    /// The file has more than 256 MiB.
    TooLong,
    /// A word, counted from 1 behind the path of the journal, is refused. Without any word, word 1 has no
    /// value.
    Usage { word: u32, kind: UsageKind },
    /// A test file, a property, the specification or the order of the tests is refused.
    Refused(Refusal),
    /// The path could not be read.
    FilesFault { path: Name },
    /// The sink failed at the line that is printed for `Yes` or `No`.
    OutputFault,
    /// Memory ran out.
    Memory,
}

/// What `check_main` returns: how the check ended, and the files and sink that it took.
#[derive(Drop)]
pub struct Checked<F, S> {
    pub outcome: CheckOutcome,
    /// The exit status of the program: 0 for `Yes`, 9 for `No`, 2 for `TooLong`, and 1 to 5 for the outcomes
    /// behind it, as for a run.
    pub status: u8,
    pub files: F,
    pub sink: S,
}

/// Checks whether a file is the journal of a complete legal history for the plan that words ask for, and
/// prints the answer.
///
/// The first word is the path of the journal. The others are the words of the run. No test is run.
///
/// Source: this project's choice.
#[tactic(auto, using(crate::proofs::CheckStepLemmas::leads_unended))]
pub fn check_main<F: Files, S: Sink>(
    alloc: Global,
    words: &[Name],
    mut files: F,
    mut sink: S,
) -> Checked<F, S>
    requires few { length words.now < 2 ^ 32 - 1 }
    ensures answer { AnswersCheck words.now (F.tells files) (F.tells result.files) (S.tells sink) (S.tells result.sink) result.outcome result.status }
    ensures complete { CompletesCheck words.now (F.tells files) (F.tells result.files) (S.tells sink) (S.tells result.sink) result.outcome }
    ensures kept { Becomes (F.tells files).held (F.tells result.files).held SameHeld }
{
    let found = check_words(alloc, words, &mut files);
    let (outcome, status) = report_check(alloc, &mut sink, found);
    Checked {
        outcome,
        status,
        files,
        sink,
    }
}

/// Finds what the words ask for, or why it was not found.
fn check_words<F: Files>(alloc: Global, words: &[Name], files: &mut F) -> Result<Finding, Unplanned>
    requires few { length words.now < 2 ^ 32 - 1 }
    ensures { LeadsTo words.now (F.tells files.old) (F.tells files.new) result }
{
    match words {
        [path, others @ ..] => find_for(alloc, path, others, files),
        [] => Err(unread(
            alloc,
            Outcome::Usage {
                word: 1,
                kind: UsageKind::NoValue,
            },
        )),
    }
}
