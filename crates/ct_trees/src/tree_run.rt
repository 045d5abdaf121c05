ghost use Rattle.std.specs.Prelude.{◌≡◌, ◌<◌, ◌≤◌, ◌-◌, ◌^◌, [], All, Err, None, length, map, option_map, vec_len};
ghost use Rattle.std.specs.Vec.{vec_capacity};
ghost use Rattle.ct_app.specs.Ends.{history_entries};
ghost use Rattle.ct_app.specs.Run.{OthersStay};
ghost use Rattle.ct_plan.specs.Whole.{IsPlannedTree, RunAlike, defined_in};
ghost use Rattle.ct_trees.specs.Joining.{HasReadyTrees};
ghost use Rattle.ct_trees.specs.TreeRuns.{RunsReadyTrees, RunsTrees, sides_of_run};

use crate::joining::{Joined, Prepared, plans_of, prepare};
use crate::leaving::{WrittenEnd, leave_files};
use crate::whole::{WholeRun, run_whole};
use ct_app::Outcome;
use ct_base::{Files, List, Name, Pair, Sink};
use ct_core::Gate;
use ct_history::{History, Plan};
use ct_plan::Tree;
use ct_worker::Jobs;
use std::alloc::Global;
use std::sync::Wait;
use std::thread::Threads;

/// What the words and the environment of a call say of the run of its trees.
#[derive(Clone, Copy)]
pub struct RunTerms<'a> {
    /// The environment of the run.
    pub own: &'a [Pair],
    /// The limit of a test without TIMEOUT, in microseconds; 0 is no limit.
    pub timeout: u64,
    /// Whether a tree without a test makes the run fail.
    pub empty_is_error: bool,
}

/// How the run of several trees ended, before the line of its outcome is put.
#[derive(Drop)]
pub(crate) struct TreesRun<S> {
    /// The status of a complete run, or the outcome of any other.
    pub(crate) ended: Result<u8, Outcome>,
    /// The names of the tests of a cycle, if a cycle is refused; else empty.
    pub(crate) names: List<Name>,
    /// The tree, from 0, at which a refusal or a fault of the files came.
    pub(crate) tree: Option<u32>,
    /// The plans of the trees that have one, in order.
    pub(crate) plans: List<Plan>,
    /// The whole plan of the trees, if it was made.
    pub(crate) whole: Option<Plan>,
    /// The history of the run, if the whole plan was made.
    pub(crate) history: Option<History>,
    pub(crate) sink: S,
}

/// Runs trees that have a plan by their whole plan, with the report, and writes their files.
///
/// Source: this project's choice.
pub(crate) fn run_planned<R: Threads + Wait + Sync, F: Files, G: Gate + Send, S: Sink + Send>(
    rt: &R,
    alloc: Global,
    trees: List<Tree>,
    room: Vec<Plan>,
    run: &RunTerms<'_>,
    files: &mut F,
    gates: &mut [G],
    sink: S,
) -> TreesRun<S>
    requires planned { All IsPlannedTree trees }
    requires alike { RunAlike trees }
    requires few { defined_in trees < 2 ^ 32 - 1 }
    requires places { length trees < 2 ^ 32 }
    requires none { vec_len room ≡ 0 }
    requires room { length trees ≤ vec_capacity room }
    requires level { All (λ tree. 1 ≤ tree.plan.level) trees }
    requires some { 0 < length gates.old }
    ensures ran { RunsTrees (sides_of_run (F.tells files.old) (F.tells files.new) (map G.tells gates.old) (map G.tells gates.new) (S.tells sink) (S.tells result.sink)) run.now trees result.plans result.whole (option_map history_entries result.history) result.tree result.ended }
    ensures names { result.names ≡ [] }
    ensures others { OthersStay result.whole gates.old gates.new }
{
    match prepare(alloc, trees, room) {
        Ok(ready) => run_prepared(rt, alloc, ready, run, files, gates, sink),
        Err(plans) => unrun(alloc, Outcome::Memory, plans, sink),
    }
}

/// Runs trees that are ready by their whole plan, with the report, and writes their files.
fn run_prepared<R: Threads + Wait + Sync, F: Files, G: Gate + Send, S: Sink + Send>(
    rt: &R,
    alloc: Global,
    ready: Prepared,
    run: &RunTerms<'_>,
    files: &mut F,
    gates: &mut [G],
    sink: S,
) -> TreesRun<S>
    requires ready { HasReadyTrees ready }
    requires some { 0 < length gates.old }
    ensures ran { RunsReadyTrees (sides_of_run (F.tells files.old) (F.tells files.new) (map G.tells gates.old) (map G.tells gates.new) (S.tells sink) (S.tells result.sink)) run.now ready result.plans result.whole (option_map history_entries result.history) result.tree result.ended }
    ensures names { result.names ≡ [] }
    ensures others { OthersStay result.whole gates.old gates.new }
{
    let Prepared {
        joined,
        rests,
        whole,
        room,
    } = ready;
    let Joined { defs, props } = joined;
    let jobs = Jobs {
        own: run.own,
        defs: &defs,
        props: &props,
        timeout: run.timeout,
    };
    let WholeRun {
        ended,
        plan,
        history,
        sink,
    } = run_whole(rt, alloc, whole, &jobs, rests.as_slice(), gates, sink);
    let WrittenEnd { ended, tree } = leave_files(
        alloc,
        files,
        run.empty_is_error,
        rests.as_slice(),
        &history,
        ended,
    );
    TreesRun {
        ended,
        names: List::new(alloc),
        tree,
        plans: plans_of(room, rests),
        whole: Some(plan),
        history: Some(history),
        sink,
    }
}

/// Makes the end of a call in which no tree ran, and no tree is named.
pub(crate) fn unrun<S>(alloc: Global, outcome: Outcome, plans: List<Plan>, sink: S) -> TreesRun<S>
    ensures { result ≡ record { ended = Err outcome; names = []; tree = None; plans = plans; whole = None; history = None; sink = sink } }
{
    TreesRun {
        ended: Err(outcome),
        names: List::new(alloc),
        tree: None,
        plans,
        whole: None,
        history: None,
        sink,
    }
}
