ghost use Rattle.std.specs.Prelude.{◌≡◌, ◌<◌, ◌≤◌, ◌-◌, ◌^◌, Err, None, length, map, option_map};
ghost use Rattle.ct_args.specs.Invocation.{IsBounded};
ghost use Rattle.ct_app.specs.Ends.{history_entries};
ghost use Rattle.ct_app.specs.Run.{OthersStay};
ghost use Rattle.ct_trees.specs.TreeAnswers.{EndsForDirs, EndsTrees};
ghost use Rattle.ct_trees.specs.TreeRuns.{sides_of_run};

use crate::joining::plans_of_trees;
use crate::planning::{UnplannedTrees, read_and_plan};
use crate::tree_run::{RunTerms, TreesRun, run_planned, unrun};
use crate::words::{Trees, read_trees};
use ct_app::Outcome;
use ct_args::Invocation;
use ct_base::{Files, List, Name, Pair, Sink};
use ct_core::Gate;
use ct_history::Plan;
use std::alloc::Global;
use std::sync::Wait;
use std::thread::Threads;

/// Does what the words ask for, as far as the line of the outcome.
pub(crate) fn run_words<R: Threads + Wait + Sync, F: Files, G: Gate + Send, S: Sink + Send>(
    rt: &R,
    alloc: Global,
    words: &[Name],
    env: &[Pair],
    files: &mut F,
    gates: &mut [G],
    sink: S,
) -> TreesRun<S>
    requires some { 0 < length gates.old }
    requires few { length words.now < 2 ^ 32 - 1 }
    ensures ends { EndsTrees words.now env.now
        (sides_of_run (F.tells files.old) (F.tells files.new) (map G.tells gates.old) (map G.tells gates.new) (S.tells sink) (S.tells result.sink))
        (record { tree = result.tree; plans = result.plans; whole = result.whole; history = option_map history_entries result.history }) result.names result.ended }
    ensures others { OthersStay result.whole gates.old gates.new }
{
    match read_trees(alloc, words) {
        Ok(asked) => {
            let Trees { dirs, invocation } = asked;
            run_dirs(rt, alloc, dirs, invocation, env, files, gates, sink)
        }
        Err(fault) => unrun(alloc, Outcome::from(fault), List::new(alloc), sink),
    }
}

/// Reads, plans and runs the trees in these folders, and writes their files.
fn run_dirs<R: Threads + Wait + Sync, F: Files, G: Gate + Send, S: Sink + Send>(
    rt: &R,
    alloc: Global,
    dirs: List<Name>,
    invocation: Invocation,
    env: &[Pair],
    files: &mut F,
    gates: &mut [G],
    sink: S,
) -> TreesRun<S>
    requires bounded { IsBounded invocation }
    requires one { 0 < length dirs }
    requires few { length dirs < 2 ^ 32 }
    requires some { 0 < length gates.old }
    ensures ends { EndsForDirs dirs invocation env.now
        (sides_of_run (F.tells files.old) (F.tells files.new) (map G.tells gates.old) (map G.tells gates.new) (S.tells sink) (S.tells result.sink))
        (record { tree = result.tree; plans = result.plans; whole = result.whole; history = option_map history_entries result.history }) result.names result.ended }
    ensures others { OthersStay result.whole gates.old gates.new }
{
    let Ok(room) = Vec::with_capacity(alloc, dirs.len()) else {
        return unrun(alloc, Outcome::Memory, List::new(alloc), sink);
    };
    let run = RunTerms {
        own: env,
        timeout: invocation.timeout,
        empty_is_error: invocation.empty_is_error,
    };
    let mut trees = List::new(alloc);
    match read_and_plan(alloc, files, invocation, dirs, &mut trees) {
        Ok(()) => run_planned(rt, alloc, trees, room, &run, files, gates, sink),
        Err(bad) => unplanned(bad, plans_of_trees(room, trees), sink),
    }
}

/// Makes the end of a call whose trees are not all planned.
fn unplanned<S>(bad: UnplannedTrees, plans: List<Plan>, sink: S) -> TreesRun<S>
    ensures { result ≡ record { ended = Err bad.why.outcome; names = bad.why.names; tree = bad.tree; plans = plans; whole = None; history = None; sink = sink } }
{
    TreesRun {
        ended: Err(bad.why.outcome),
        names: bad.why.names,
        tree: bad.tree,
        plans,
        whole: None,
        history: None,
        sink,
    }
}
