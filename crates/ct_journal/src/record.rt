ghost use Rattle.std.specs.Prelude.{◌≡◌, ◌<◌, ◌≤◌, ◌-◌, ◌^◌, ⊤, [], IfSome, IsSomeAnd, drop, length, map, option_map, true, vec_len};
ghost use Rattle.std.specs.Option.{option_copied};
ghost use Rattle.ct_args.specs.declared.usage.UsageKind.TheVariants.{NoValue};
ghost use Rattle.ct_app.specs.Calls.{sides};
ghost use Rattle.ct_app.specs.Ends.{PutsFault, history_entries};
ghost use Rattle.ct_app.specs.Outcome.{fault_line, fault_status};
ghost use Rattle.ct_app.specs.Reading.{ask_for_list};
ghost use Rattle.ct_app.specs.Run.{OthersStay};
ghost use Rattle.ct_app.specs.declared.outcome.Outcome.TheVariants as Ran;
ghost use Rattle.ct_journal.specs.declared.record.JournalEnd.TheVariants as End;
ghost use Rattle.ct_journal_text.specs.Journal.{EntriesFit, journal_of};
ghost use Rattle.ct_journal.specs.File.{most_journal_bytes, too_long_line};
ghost use Rattle.ct_journal.specs.RecordAgain.{ChecksAgain};
ghost use Rattle.ct_journal.specs.RecordPaths.{RechecksKept};
ghost use Rattle.ct_journal.specs.RecordReads.{RechecksWritten};
ghost use Rattle.ct_journal.specs.Record.{AcceptsWritten, IsJournalEnd, RecordsFor, TellsEnd, TriesLine, WritesJournal, run_end, status_after as status_with};
ghost use Rattle.ct_worker.specs.Gates.{AreSameGates};

use crate::limit::MOST_JOURNAL_BYTES;
use ct_app::{Finished, Outcome, UsageKind, ctest_main, report_outcome};
use ct_base::{Files, FilesFault, Name, NoMemory, Pair, Sink, SinkFault};
use ct_core::Gate;
use ct_history::{Entry, History};
use ct_journal_text::{hand_out_ranges, journal_within};
use std::alloc::Global;
use std::sync::Wait;
use std::thread::Threads;

/// What became of the journal of a call.
#[derive(Clone, Copy, Debug, PartialEq, Eq)]
pub enum JournalEnd {
    /// The path holds the journal.
    Written,
    /// The run was not completed, and the path was not touched.
    NoRun,
    /// The journal has more bytes than it may have. Nothing was written.
    TooLong,
    /// The path could not be written.
    FilesFault,
    /// Memory ran out for the journal. Nothing was written.
    Memory,
}

/// What `record_main` returns: the end of its run, and what became of the journal.
#[derive(Drop)]
pub struct Recorded<F, G, S> {
    /// The end of the run, with its own status.
    pub finished: Finished<F, G, S>,
    pub journal: JournalEnd,
    /// Whether memory sufficed for the line of this end, if one is due. Where it did, the line was put
    /// whole, or its put failed.
    pub line: Result<(), NoMemory>,
    /// The exit status of the program.
    pub status: u8,
}

/// Runs tests as `ctest_main` does, and writes the journal of a completed run.
///
/// - The first of the words is the path of the journal. The others are the words of `ctest_main`; a
///   refused word is counted from the one behind the path.
/// - `env` is the environment of the tests.
/// - `files`, `gates` and `sink` stand for the machine.
///
/// The journal is written behind all that the run does. Where it is too long, or its path cannot be
/// written, a line says so; a put of this line that fails changes nothing. The call may wait for the
/// programs that its gates run.
///
/// Source: this project's choice.
pub fn record_main<R: Threads + Wait + Sync, F: Files, G: Gate + Send, S: Sink + Send>(
    rt: &R,
    alloc: Global,
    words: &[Name],
    env: &[Pair],
    files: F,
    gates: Vec<G>,
    sink: S,
) -> Recorded<F, G, S>
    requires some { 0 < vec_len gates }
    requires few { length words.now < 2 ^ 32 - 1 }
    ensures recorded { RecordsFor most_journal_bytes words.now (sides words.now env.now (F.tells files) (F.tells result.finished.files)
        (map G.tells gates.items) (map G.tells result.finished.gates.items) (S.tells sink) (S.tells result.finished.sink)
        result.finished.plan (option_map history_entries result.finished.history))
        (record { outcome = result.finished.outcome; run_status = result.finished.status; journal = result.journal; line = result.line; status = result.status }) }
    ensures accepted { AcceptsWritten result.finished.plan (option_map history_entries result.finished.history) result.journal }
    ensures rechecked { RechecksWritten (drop 1 words.now) (F.tells files).held (option_map history_entries result.finished.history) result.journal }
    ensures again { ChecksAgain (drop 1 words.now) (F.tells files).held (option_map history_entries result.finished.history) result.journal }
    ensures kept_paths { RechecksKept (drop 1 words.now) (F.tells files).held (option_map history_entries result.finished.history) result.journal }
    ensures all { AreSameGates (map G.tells gates.items) (map G.tells result.finished.gates.items) }
    ensures unasked { ask_for_list (drop 1 words.now) ≡ true → result.finished.gates.items ≡ gates.items }
    ensures others { OthersStay result.finished.plan gates.items result.finished.gates.items }
{
    record_within(
        rt,
        alloc,
        MOST_JOURNAL_BYTES,
        words,
        env,
        files,
        gates,
        sink,
    )
}

/// Runs tests as `record_main` does, and writes a journal of at most `most` bytes.
pub fn record_within<R: Threads + Wait + Sync, F: Files, G: Gate + Send, S: Sink + Send>(
    rt: &R,
    alloc: Global,
    most: u64,
    words: &[Name],
    env: &[Pair],
    files: F,
    gates: Vec<G>,
    mut sink: S,
) -> Recorded<F, G, S>
    requires checked { most ≤ most_journal_bytes }
    requires some { 0 < vec_len gates }
    requires few { length words.now < 2 ^ 32 - 1 }
    ensures recorded { RecordsFor most words.now (sides words.now env.now (F.tells files) (F.tells result.finished.files)
        (map G.tells gates.items) (map G.tells result.finished.gates.items) (S.tells sink) (S.tells result.finished.sink)
        result.finished.plan (option_map history_entries result.finished.history))
        (record { outcome = result.finished.outcome; run_status = result.finished.status; journal = result.journal; line = result.line; status = result.status }) }
    ensures accepted { AcceptsWritten result.finished.plan (option_map history_entries result.finished.history) result.journal }
    ensures rechecked { RechecksWritten (drop 1 words.now) (F.tells files).held (option_map history_entries result.finished.history) result.journal }
    ensures again { ChecksAgain (drop 1 words.now) (F.tells files).held (option_map history_entries result.finished.history) result.journal }
    ensures kept_paths { RechecksKept (drop 1 words.now) (F.tells files).held (option_map history_entries result.finished.history) result.journal }
    ensures all { AreSameGates (map G.tells gates.items) (map G.tells result.finished.gates.items) }
    ensures unasked { ask_for_list (drop 1 words.now) ≡ true → result.finished.gates.items ≡ gates.items }
    ensures others { OthersStay result.finished.plan gates.items result.finished.gates.items }
{
    match words {
        [] => {
            let (outcome, status) = miss_path(alloc, &mut sink);
            let finished = Finished {
                outcome,
                status,
                plan: None,
                history: None,
                files,
                gates,
                sink,
            };
            end_call(finished, JournalEnd::NoRun, Ok(()))
        }
        [path, run_words @ ..] => {
            let mut run = ctest_main(rt, alloc, run_words, env, files, gates, sink);
            let ran = &mut run;
            let history = ran.history.as_ref();
            let (end, line) = keep_journal(
                alloc,
                most,
                path,
                &ran.outcome,
                history,
                &mut ran.files,
                &mut ran.sink,
            );
            end_call(run, end, line)
        }
    }
}

/// Makes what a call returns, with its status.
fn end_call<F, G, S>(
    finished: Finished<F, G, S>,
    journal: JournalEnd,
    line: Result<(), NoMemory>,
) -> Recorded<F, G, S>
    ensures { result ≡ record { finished = finished; journal = journal; line = line; status = status_with finished.status journal } }
{
    let status = status_after(finished.status, journal);
    Recorded {
        finished,
        journal,
        line,
        status,
    }
}

/// Puts the line of a call without any word, and returns its outcome and status.
fn miss_path<S: Sink>(alloc: Global, sink: &mut S) -> (Outcome, u8)
    ensures reported { PutsFault [] (Ran.Usage 1 NoValue) result.0 (S.tells sink.old) (S.tells sink.new) }
    ensures status { result.1 ≡ fault_status result.0 }
{
    let kind = UsageKind::NoValue;
    report_outcome(alloc, sink, &[], Outcome::Usage { word: 1, kind })
}

/// Writes the journal of a run that was completed, and tries the line of its end. Returns the end, and
/// whether memory sufficed for its line.
#[tactic(auto, using(crate::proofs::RecordLemmas::journal_ends))]
fn keep_journal<F: Files, S: Sink>(
    alloc: Global,
    most: u64,
    path: &Name,
    outcome: &Outcome,
    history: Option<&History>,
    files: &mut F,
    sink: &mut S,
) -> (JournalEnd, Result<(), NoMemory>)
    requires has { outcome.now ≡ Ran.Completed → IsSomeAnd (option_map history_entries (option_copied history)) (λ entries. ⊤) }
    ensures end { IsJournalEnd (run_end most path.now outcome.now (option_map history_entries (option_copied history.entry))
        (F.tells files.old) (F.tells files.new) (S.tells sink.old) (S.tells sink.new)) result.1 result.0 }
    ensures fit { result.0 ≡ End.Written → IfSome (option_map history_entries (option_copied history.entry)) EntriesFit }
{
    match outcome {
        Outcome::Completed => {}
        _ => return (JournalEnd::NoRun, Ok(())),
    }
    match history {
        Some(history) => {
            let end = write_journal(alloc, most, files, path, &history.entries);
            let line = report_journal(alloc, sink, path, end);
            (end, line)
        }
        None => (JournalEnd::NoRun, Ok(())),
    }
}

/// Writes the journal of these entries to the path, if it has at most `most` bytes.
fn write_journal<F: Files>(
    alloc: Global,
    most: u64,
    files: &mut F,
    path: &Name,
    entries: &[Entry],
) -> JournalEnd
    ensures end { WritesJournal most path.now (journal_of entries.now) (F.tells files.old) (F.tells files.new) result }
    ensures fit { EntriesFit entries.now }
{
    hand_out_ranges(entries);
    let text = match journal_within(alloc, entries, most) {
        Ok(Some(text)) => text,
        Ok(None) => return JournalEnd::TooLong,
        Err(NoMemory) => return JournalEnd::Memory,
    };
    match files.write(alloc, path, text.bytes()) {
        Ok(()) => JournalEnd::Written,
        Err(FilesFault::Failed) => JournalEnd::FilesFault,
        Err(FilesFault::NoMemory) => JournalEnd::Memory,
    }
}

/// Tries the line of an end of the journal, where it has one, and returns whether memory sufficed for it.
fn report_journal<S: Sink>(
    alloc: Global,
    sink: &mut S,
    path: &Name,
    end: JournalEnd,
) -> Result<(), NoMemory>
    ensures { TellsEnd path.now (S.tells sink.old) (S.tells sink.new) result end }
{
    match end {
        JournalEnd::TooLong => report_length(sink),
        JournalEnd::FilesFault => report_path(alloc, sink, path),
        JournalEnd::Written | JournalEnd::NoRun | JournalEnd::Memory => Ok(()),
    }
}

/// Tries the line that says that the journal is too long.
#[tactic(auto, using(crate::proofs::RecordLemmas::tries_put, crate::proofs::RecordLemmas::tries_failed, crate::proofs::RecordLemmas::lacks_put))]
fn report_length<S: Sink>(sink: &mut S) -> Result<(), NoMemory>
    ensures { TriesLine too_long_line (S.tells sink.old) (S.tells sink.new) result }
{
    match sink.put(b"ctest: journal: too long\n") {
        Ok(()) => Ok(()),
        Err(SinkFault::Failed) => Ok(()),
        Err(SinkFault::NoMemory) => Err(NoMemory),
    }
}

/// Tries the line that says that the path cannot be used.
#[tactic(auto, using(crate::proofs::RecordLemmas::lacks_line))]
fn report_path<S: Sink>(alloc: Global, sink: &mut S, path: &Name) -> Result<(), NoMemory>
    ensures { TriesLine (fault_line [] (Ran.FilesFault path.now)) (S.tells sink.old) (S.tells sink.new) result }
{
    match path.copy(alloc) {
        Ok(path) => report_fault(alloc, sink, path),
        Err(NoMemory) => Err(NoMemory),
    }
}

/// Tries the line that says that this path cannot be used.
#[tactic(auto, using(crate::proofs::RecordLemmas::tries_reported, crate::proofs::RecordLemmas::lacks_reported))]
fn report_fault<S: Sink>(alloc: Global, sink: &mut S, path: Name) -> Result<(), NoMemory>
    ensures { TriesLine (fault_line [] (Ran.FilesFault path)) (S.tells sink.old) (S.tells sink.new) result }
{
    let (reported, _status) = report_outcome(alloc, sink, &[], Outcome::FilesFault { path });
    match reported {
        Outcome::Memory => Err(NoMemory),
        _ => Ok(()),
    }
}

/// Returns the exit status of the call, by the status of its run and the end of the journal.
fn status_after(status: u8, end: JournalEnd) -> u8
    ensures { result ≡ status_with status end }
{
    match end {
        JournalEnd::Written | JournalEnd::NoRun => status,
        JournalEnd::TooLong => 2,
        JournalEnd::FilesFault => 3,
        JournalEnd::Memory => 5,
    }
}
