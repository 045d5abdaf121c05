ghost use Rattle.std.specs.Prelude.{◌≡◌, ◌<◌, ◌≤◌, ◌^◌, [], IfErr, false, length, map};
ghost use Rattle.ct_app.specs.Run.{HasRun, RestStays, RunEnds};
ghost use Rattle.ct_app.specs.Stops.{PutsBehind};
ghost use Rattle.ct_report.specs.PutLines.{PutsLines};
ghost use Rattle.ct_trees.specs.Joining.{AreRestParts, defined_by};
ghost use Rattle.ct_trees.specs.TreeReports.{summaries_behind, trees_report};
ghost use Rattle.ct_trees.specs.TreeStops.{StopsInTrees};
ghost use Rattle.ct_worker.specs.Work.{Reach, terms_in};

use crate::joining::TreeRest;
use crate::reports::{put_headers, put_summaries};
use ct_app::{PoolRun, run_pool};
use ct_base::{Sink, SinkFault};
use ct_core::{Core, Gate};
use ct_worker::Jobs;
use std::alloc::Global;
use std::sync::Wait;
use std::thread::Threads;

/// Runs the tests of several trees by their whole plan, and puts the report: a header for each tree, the
/// lines of the tests, and a summary for each tree.
///
/// `trees` are the trees of the plan, in order, and `jobs` has the tests of all of them.
#[tactic(auto, using(crate::proofs::TreeRunLemmas::headers_cut, crate::proofs::TreeRunLemmas::trees_put, ct_app::proofs::PoolLemmas::ends_behind, crate::proofs::TreeRunLemmas::trees_stop))]
pub(crate) fn run_trees<R: Threads + Wait + Sync, G: Gate + Send, S: Sink + Send>(
    rt: &R,
    alloc: Global,
    core: Core,
    jobs: &Jobs<'_>,
    trees: &[TreeRest],
    gates: &mut [G],
    mut sink: S,
) -> PoolRun<S>
    requires fresh { core ≡ record { plan = core.plan; entries = []; aborted = false } }
    requires level { 1 ≤ core.plan.level }
    requires some { 0 < length gates.old }
    requires reach { Reach jobs.now core.plan }
    requires parts { AreRestParts core.plan 0 trees.now }
    requires few { defined_by trees.now < 2 ^ 32 }
    ensures plan { result.core.plan ≡ core.plan }
    ensures ran { HasRun (terms_in jobs.now core.plan) (map G.tells gates.old) (map G.tells gates.new) result.core.plan result.core.entries }
    ensures puts { PutsLines (trees_report trees.now result.core.plan result.core.entries) (S.tells sink) (S.tells result.sink) result.put }
    ensures ends { RunEnds result.core.plan result.core.entries result.put }
    ensures stops { IfErr result.put (λ fault. StopsInTrees fault trees.now result.core.plan result.core.entries (S.tells sink) (S.tells result.sink)) }
    ensures others { RestStays result.core.plan gates.old gates.new }
{
    if let Err(fault) = put_headers(alloc, &mut sink, trees) {
        return PoolRun {
            core,
            sink,
            put: Err(fault),
        };
    }
    let PoolRun {
        core,
        mut sink,
        put,
    } = run_pool(rt, alloc, core, jobs, gates, sink);
    let put = put_behind(alloc, &mut sink, trees, &core, put);
    PoolRun { core, sink, put }
}

/// Puts the lines of the trees, if those of all tests were put.
#[tactic(auto, using(crate::proofs::WholeTreeLemmas::parts_ended))]
fn put_behind<S: Sink>(
    alloc: Global,
    sink: &mut S,
    trees: &[TreeRest],
    core: &Core,
    put: Result<(), SinkFault>,
) -> Result<(), SinkFault>
    requires parts { AreRestParts core.now.plan 0 trees.now }
    requires few { defined_by trees.now < 2 ^ 32 }
    requires ended { RunEnds core.now.plan core.now.entries put }
    ensures { PutsBehind put (summaries_behind 0 trees.now core.now.entries) (S.tells sink.old) (S.tells sink.new) result }
{
    match put {
        Ok(()) => put_summaries(alloc, sink, trees, core.history()),
        Err(fault) => Err(fault),
    }
}
