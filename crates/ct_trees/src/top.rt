ghost use Rattle.std.specs.Prelude.{◌≡◌, ◌<◌, ◌-◌, ◌^◌, length, map, option_map, vec_len};
ghost use Rattle.ct_app.specs.Ends.{history_entries};
ghost use Rattle.ct_app.specs.Run.{OthersStay};
ghost use Rattle.ct_trees.specs.TreeAnswers.{AnswersTrees, place_for as place_of_outcome};
ghost use Rattle.ct_trees.specs.TreeComplete.{CompletesTrees};
ghost use Rattle.ct_trees.specs.TreeMeant.{AnswersTreesAsMeant};
ghost use Rattle.ct_trees.specs.TreeRuns.{sides_of_run};
ghost use Rattle.ct_worker.specs.Gates.{AreSameGates};

use crate::call::run_words;
use crate::tree_run::TreesRun;
use ct_app::{Outcome, report_end};
use ct_base::{Files, List, Name, Pair, Sink};
use ct_core::Gate;
use ct_history::{History, Plan};
use std::alloc::Global;
use std::sync::Wait;
use std::thread::Threads;

/// What `trees_main` returns: how the call ended, and the files, gates and sink that it took.
#[derive(Drop)]
pub struct TreesFinished<F, G, S> {
    pub outcome: Outcome,
    /// The exit status of the program.
    pub status: u8,
    /// The tree, from 0, at which a refusal or a fault of the files came.
    pub tree: Option<u32>,
    /// The plans of the trees that have one, in order.
    pub plans: List<Plan>,
    /// The whole plan of the trees, if it was made.
    pub whole: Option<Plan>,
    /// The history of the run, if the whole plan was made.
    pub history: Option<History>,
    pub files: F,
    pub gates: Vec<G>,
    pub sink: S,
}

/// Runs the tests of several build trees over one pool of slots, locks and processors.
///
/// - `words` are the words of the command line behind the program's name: one or more times `--tree` and
///   a folder, then words of ctest.
/// - `env` is the environment of the tests.
/// - `files`, `gates` and `sink` stand for the machine.
///
/// The tests of all trees run by one plan, on as many workers as the level, but at most on as many as
/// there are gates. A test has the number of its tree plus the number of tests that the trees in front
/// define. All gates come back, in order. The call may wait for the programs that its gates run.
///
/// Behind the lines of the tests stands a summary for each tree. Unless the run stops on failure, the
/// summary depends on the tree's own tests and the answers for them alone, whatever other trees ran
/// beside it. Then the files of each tree are written as `ctest_main` of ct_app writes those of one.
///
/// Source: CMake manual, ctest(1), Run Tests, for each tree; that several run together is this project's
/// choice.
pub fn trees_main<R: Threads + Wait + Sync, F: Files, G: Gate + Send, S: Sink + Send>(
    rt: &R,
    alloc: Global,
    words: &[Name],
    env: &[Pair],
    mut files: F,
    mut gates: Vec<G>,
    sink: S,
) -> TreesFinished<F, G, S>
    requires some { 0 < vec_len gates }
    requires few { length words.now < 2 ^ 32 - 1 }
    ensures answer { AnswersTrees words.now env.now
        (sides_of_run (F.tells files) (F.tells result.files) (map G.tells gates.items) (map G.tells result.gates.items) (S.tells sink) (S.tells result.sink))
        (record { tree = result.tree; plans = result.plans; whole = result.whole; history = option_map history_entries result.history }) result.outcome result.status }
    ensures complete { CompletesTrees words.now
        (sides_of_run (F.tells files) (F.tells result.files) (map G.tells gates.items) (map G.tells result.gates.items) (S.tells sink) (S.tells result.sink)) result.outcome }
    ensures meant { AnswersTreesAsMeant words.now
        (sides_of_run (F.tells files) (F.tells result.files) (map G.tells gates.items) (map G.tells result.gates.items) (S.tells sink) (S.tells result.sink))
        (record { tree = result.tree; plans = result.plans; whole = result.whole; history = option_map history_entries result.history }) result.outcome }
    ensures all { AreSameGates (map G.tells gates.items) (map G.tells result.gates.items) }
    ensures others { OthersStay result.whole gates.items result.gates.items }
{
    let TreesRun {
        ended,
        names,
        tree,
        plans,
        whole,
        history,
        mut sink,
    } = run_words(
        rt,
        alloc,
        words,
        env,
        &mut files,
        gates.as_mut_slice(),
        sink,
    );
    let (outcome, status) = report_end(alloc, &mut sink, names.as_slice(), ended);
    TreesFinished {
        tree: place_for(&outcome, tree),
        outcome,
        status,
        plans,
        whole,
        history,
        files,
        gates,
        sink,
    }
}

/// Returns the tree that is named where the call has this outcome.
fn place_for(outcome: &Outcome, tree: Option<u32>) -> Option<u32>
    ensures { result ≡ place_of_outcome outcome.now tree }
{
    match outcome {
        Outcome::Refused(_) | Outcome::FilesFault { .. } => tree,
        Outcome::Completed
        | Outcome::Listed
        | Outcome::Usage { .. }
        | Outcome::OutputFault
        | Outcome::Memory => None,
    }
}
