ghost use Rattle.std.specs.Prelude.{◌≡◌, ◌<◌, ◌≤◌, ◌-◌, ◌^◌, length};
ghost use Rattle.ct_base.specs.Outside.{Becomes, SameHeld};
ghost use Rattle.ct_explain.specs.Explain.{AnswersExplain, CompletesExplain};
ghost use Rattle.ct_explain.specs.Words.{asks_picture, is_picture, journal_words};
ghost use Rattle.ct_explain.specs.Steps.{ExplainLeadsTo};

use crate::answer::report_found;
use crate::find::{Found, find_for};
use ct_app::{Outcome, Refusal, Unplanned, UsageKind, unread};
use ct_base::{Files, Name, Sink};
use std::alloc::Global;

/// How an explanation of a journal ended.
#[derive(Debug, Drop)]
pub enum ExplainOutcome {
    /// The file is the journal of a complete legal history for the plan of the words, and the report or the
    /// picture of it was put.
    Explained,
    /// The line with this number, counted from 1, is the first that is not good. Where the text ends too
    /// early, it is one more than the number of lines. For an absent file it is 1.
    No { line: u32 },
    /// The file has more than 256 MiB.
    TooLong,
    /// A word, counted from 1 behind the path of the journal, is refused. Without a path, word 1 has no
    /// value.
    Usage { word: u32, kind: UsageKind },
    /// A test file, a property, the specification or the order of the tests is refused.
    Refused(Refusal),
    /// The path could not be read.
    FilesFault { path: Name },
    /// The sink failed at a line that is printed for `Explained` or `No`.
    OutputFault,
    /// Memory ran out.
    Memory,
}

/// What `explain_main` returns: how the explanation ended, and the files and sink that it took.
#[derive(Drop)]
pub struct Explained<F, S> {
    pub outcome: ExplainOutcome,
    /// The exit status of the program: 0 for `Explained`, 9 for `No`, 2 for `TooLong`, and 1 to 5 for the
    /// outcomes behind it, as for a run.
    pub status: u8,
    pub files: F,
    pub sink: S,
}

/// Explains the journal of a complete legal history for the plan that words ask for: what made the run as
/// long as it is, what each attempt waited for, and what no other order could gain.
///
/// The first word is the path of the journal, and the others are the words of the run. With `--picture` in
/// front of the path it puts a picture in place of the report. No test is run.
///
/// Source: this project's choice.
#[tactic(auto, using(crate::proofs::StepLemmas::leads_unended))]
pub fn explain_main<F: Files, S: Sink>(
    alloc: Global,
    words: &[Name],
    mut files: F,
    mut sink: S,
) -> Explained<F, S>
    requires few { length words.now < 2 ^ 32 - 1 }
    ensures answer { AnswersExplain words.now (F.tells files) (F.tells result.files) (S.tells sink)
        (S.tells result.sink) result.outcome result.status }
    ensures complete { CompletesExplain words.now (F.tells files) (F.tells result.files) (S.tells sink)
        (S.tells result.sink) result.outcome }
    ensures kept { Becomes (F.tells files).held (F.tells result.files).held SameHeld }
{
    let found = explain_words(alloc, journal_words(words), &mut files);
    let (outcome, status) = report_found(alloc, &mut sink, asks_picture(words), found);
    Explained {
        outcome,
        status,
        files,
        sink,
    }
}

/// Returns whether the first word asks for the picture.
fn asks_picture(words: &[Name]) -> bool
    ensures { result ≡ asks_picture words.now }
{
    match words {
        [first, ..] => is_picture(first),
        [] => false,
    }
}

fn is_picture(word: &Name) -> bool
    ensures { result ≡ is_picture word.now }
{
    word.bytes() == b"--picture".as_slice()
}

/// Lends the words from the path of the journal on.
fn journal_words(words: &[Name]) -> &[Name]
    ensures is { result.now ≡ journal_words words.now }
    ensures few { length result.now ≤ length words.now }
{
    match words {
        [first, others @ ..] => { if is_picture(first) { others } else { words } }
        [] => words,
    }
}

/// Finds what the words ask for, or why it was not found.
fn explain_words<F: Files>(alloc: Global, words: &[Name], files: &mut F) -> Result<Found, Unplanned>
    requires few { length words.now < 2 ^ 32 - 1 }
    ensures { ExplainLeadsTo words.now (F.tells files.old) (F.tells files.new) result }
{
    match words {
        [path, others @ ..] => find_for(alloc, path, others, files),
        [] => Err(unread(
            alloc,
            Outcome::Usage {
                word: 1,
                kind: UsageKind::NoValue,
            },
        )),
    }
}
