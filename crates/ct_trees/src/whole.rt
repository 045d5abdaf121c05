ghost use Rattle.std.specs.Prelude.{◌≡◌, ◌<◌, ◌≤◌, ◌^◌, length, map};
ghost use Rattle.ct_app.specs.Ends.{ended_as, history_entries};
ghost use Rattle.ct_app.specs.Run.{HasRun, RestStays};
ghost use Rattle.ct_core.specs.Order.{FollowsQueue};
ghost use Rattle.ct_trees.specs.Joining.{AreRestParts, defined_by};
ghost use Rattle.ct_trees.specs.TreeStops.{TreesEnd};
ghost use Rattle.ct_worker.specs.Work.{Reach, terms_in};

use crate::joining::TreeRest;
use crate::run::run_trees;
use ct_app::Outcome;
use ct_base::{Sink, SinkFault};
use ct_core::{Core, Gate};
use ct_history::{History, Plan};
use ct_worker::Jobs;
use std::alloc::Global;
use std::sync::Wait;
use std::thread::Threads;

/// How the run of a whole plan ended, before the files of its trees are written.
#[derive(Drop)]
pub(crate) struct WholeRun<S> {
    pub ended: Result<(), Outcome>,
    pub plan: Plan,
    pub history: History,
    pub sink: S,
}

/// Runs a whole plan of these trees, with its report.
pub(crate) fn run_whole<R: Threads + Wait + Sync, G: Gate + Send, S: Sink + Send>(
    rt: &R,
    alloc: Global,
    plan: Plan,
    jobs: &Jobs<'_>,
    trees: &[TreeRest],
    gates: &mut [G],
    sink: S,
) -> WholeRun<S>
    requires level { 1 ≤ plan.level }
    requires some { 0 < length gates.old }
    requires reach { Reach jobs.now plan }
    requires parts { AreRestParts plan 0 trees.now }
    requires few { defined_by trees.now < 2 ^ 32 }
    ensures plan { result.plan ≡ plan }
    ensures ran { HasRun (terms_in jobs.now plan) (map G.tells gates.old) (map G.tells gates.new) result.plan (history_entries result.history) }
    ensures order { FollowsQueue result.plan (history_entries result.history) }
    ensures ends { TreesEnd trees.now result.plan (history_entries result.history) (S.tells sink) (S.tells result.sink) result.ended }
    ensures others { RestStays result.plan gates.old gates.new }
{
    match Core::open(alloc, plan) {
        Ok(core) => {
            let ran = run_trees(rt, alloc, core, jobs, trees, gates, sink);
            let (plan, history) = ran.core.into_parts();
            WholeRun {
                ended: outcome_of(ran.put),
                plan,
                history,
                sink: ran.sink,
            }
        }
        Err(plan) => WholeRun {
            ended: Err(Outcome::Memory),
            plan,
            history: History {
                entries: Vec::new(alloc),
            },
            sink,
        },
    }
}

/// Turns the end of a run into the outcome of the call.
fn outcome_of(put: Result<(), SinkFault>) -> Result<(), Outcome>
    ensures { result ≡ ended_as put }
{
    match put {
        Ok(()) => Ok(()),
        Err(fault) => Err(Outcome::from(fault)),
    }
}
