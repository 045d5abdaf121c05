ghost use Rattle.std.specs.Prelude.{◌≡◌, ◌<◌, ◌-◌, ◌^◌, true, length, map, option_map, vec_len};
ghost use Rattle.ct_app.specs.Answers.{Answers};
ghost use Rattle.ct_app.specs.Calls.{list_sides, sides};
ghost use Rattle.ct_app.specs.Complete.{Completes, CompletesList};
ghost use Rattle.ct_app.specs.Ends.{history_entries};
ghost use Rattle.ct_app.specs.Lists.{AnswersList};
ghost use Rattle.ct_app.specs.MeantRuns.{AnswersAsMeant};
ghost use Rattle.ct_app.specs.Reading.{ask_for_list};
ghost use Rattle.ct_app.specs.Run.{OthersStay};
ghost use Rattle.ct_worker.specs.Gates.{AreSameGates};

use crate::fault::{report_end, report_outcome};
use crate::folder::Ran;
use crate::words::{list_words, run_words};
use crate::{Finished, Listed};
use ct_base::{Files, Name, Pair, Sink};
use ct_core::Gate;
use std::alloc::Global;
use std::sync::Wait;
use std::thread::Threads;

/// Does all that the program `ctest` does: runs the tests that the words ask for and reports on
/// them, or puts the list that the words ask for.
///
/// - `words` are the words of the command line behind the program's name.
/// - `env` is the environment of the tests.
/// - `files`, `gates` and `sink` stand for the machine.
///
/// The tests run on as many workers as the level, but at most on as many as there are gates. Each
/// worker uses the gate at its place. All gates come back, in order. The call may wait for the
/// programs that its gates run.
///
/// After the report of a complete run that has tests, the cost data is written for the next run.
/// Then, if a test failed, the log of the failed tests is written. No other path is changed; a
/// write that fails may change its own path.
///
/// Where the words ask for the tests that failed last, the choice is limited to the tests that the
/// log named before the call.
///
/// Source: CMake manual, ctest(1), Run Tests. Statuses other than 0 and 8 are this project's choice.
pub fn ctest_main<R: Threads + Wait + Sync, F: Files, G: Gate + Send, S: Sink + Send>(
    rt: &R,
    alloc: Global,
    words: &[Name],
    env: &[Pair],
    mut files: F,
    mut gates: Vec<G>,
    sink: S,
) -> Finished<F, G, S>
    requires some { 0 < vec_len gates }
    requires few { length words.now < 2 ^ 32 - 1 }
    ensures answer { Answers (sides words.now env.now (F.tells files) (F.tells result.files)
        (map G.tells gates.items) (map G.tells result.gates.items) (S.tells sink) (S.tells result.sink)
        result.plan (option_map history_entries result.history)) result.outcome result.status }
    ensures meant { AnswersAsMeant (sides words.now env.now (F.tells files) (F.tells result.files)
        (map G.tells gates.items) (map G.tells result.gates.items) (S.tells sink) (S.tells result.sink)
        result.plan (option_map history_entries result.history)) result.outcome result.status }
    ensures complete { Completes (sides words.now env.now (F.tells files) (F.tells result.files)
        (map G.tells gates.items) (map G.tells result.gates.items) (S.tells sink) (S.tells result.sink)
        result.plan (option_map history_entries result.history)) result.outcome }
    ensures all { AreSameGates (map G.tells gates.items) (map G.tells result.gates.items) }
    ensures unasked { ask_for_list words.now ≡ true → result.gates.items ≡ gates.items }
    ensures others { OthersStay result.plan gates.items result.gates.items }
{
    let Ran {
        ended,
        names,
        plan,
        history,
        mut sink,
    } = run_words(
        rt,
        alloc,
        words,
        env,
        &mut files,
        gates.as_mut_slice(),
        sink,
    );
    let (outcome, status) = report_end(alloc, &mut sink, names.as_slice(), ended);
    Finished {
        outcome,
        status,
        plan,
        history,
        files,
        gates,
        sink,
    }
}

/// Puts the list that the words ask for: the tests of a run, as text or as JSON, or their labels.
///
/// Where the words ask for a run, the tests of this run are listed. The call reads no specification
/// and no cost data, whatever the words name. It reads the log of the failed tests only where the
/// words ask for the tests that failed last. It makes no plan and refuses no cycle.
/// It stands for callers of the library: no program calls it.
///
/// Source: CMake manual, ctest(1), --show-only, --print-labels, --rerun-failed. Statuses other than 0
/// are this project's choice.
pub fn list_main<F: Files, S: Sink>(
    alloc: Global,
    words: &[Name],
    mut files: F,
    mut sink: S,
) -> Listed<F, S>
    requires { length words.now < 2 ^ 32 - 1 }
    ensures answer { AnswersList (list_sides words.now (F.tells files) (F.tells result.files) (S.tells sink) (S.tells result.sink)) result.outcome result.status }
    ensures complete { CompletesList (list_sides words.now (F.tells files) (F.tells result.files) (S.tells sink) (S.tells result.sink)) result.outcome }
{
    let outcome = list_words(alloc, words, &mut files, &mut sink);
    let (outcome, status) = report_outcome(alloc, &mut sink, &[], outcome);
    Listed {
        outcome,
        status,
        files,
        sink,
    }
}
