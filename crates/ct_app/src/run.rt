ghost use Rattle.std.specs.Prelude.{◌≡◌, ◌<◌, ◌≤◌, min, [], IfErr, false, true, length, map};
ghost use Rattle.ct_app.specs.Run.{BeginsReport, HasRun, RestStays, RunEnds, lines_of_run};
ghost use Rattle.ct_app.specs.Stops.{PutsBehind, StopsAt, StopsBehind};
ghost use Rattle.ct_history.specs.Verdicts.{are_all_final};
ghost use Rattle.ct_report.specs.PutLines.{PutsLines};
ghost use Rattle.ct_report.specs.Report.{report_lines, summary_lines, test_lines};
ghost use Rattle.ct_worker.specs.Halted.{IsHalted};
ghost use Rattle.ct_worker.specs.State.{put_of};
ghost use Rattle.ct_worker.specs.Work.{Reach, terms_in};

use ct_base::{Sink, SinkFault};
use ct_core::{Core, Gate};
use ct_report::{header, no_tests, summary};
use ct_worker::{Halt, Jobs, State, run_workers};
use std::alloc::Global;
use std::sync::Wait;
use std::thread::Threads;

/// How the tests of a plan ran, and the core and the sink of the run.
#[derive(Drop)]
pub struct PoolRun<S> {
    pub core: Core,
    pub sink: S,
    /// Whether all lines were put; `NoMemory` also says that memory ran out for an attempt.
    pub put: Result<(), SinkFault>,
}

/// Runs the tests of a plan, and puts the report of the run.
///
/// The workers are as many as the level of the plan, but at most as many as there are gates.
pub(crate) fn run<R: Threads + Wait + Sync, G: Gate + Send, S: Sink + Send>(
    rt: &R,
    alloc: Global,
    core: Core,
    jobs: &Jobs<'_>,
    gates: &mut [G],
    mut sink: S,
) -> PoolRun<S>
    requires fresh { core ≡ record { plan = core.plan; entries = []; aborted = false } }
    requires level { 1 ≤ core.plan.level }
    requires some { 0 < length gates.old }
    requires reach { Reach jobs.now core.plan }
    ensures plan { result.core.plan ≡ core.plan }
    ensures ran { HasRun (terms_in jobs.now core.plan) (map G.tells gates.old) (map G.tells gates.new) result.core.plan result.core.entries }
    ensures puts { PutsLines (report_lines result.core.plan result.core.entries) (S.tells sink) (S.tells result.sink) result.put }
    ensures ends { RunEnds result.core.plan result.core.entries result.put }
    ensures stops { IfErr result.put (λ fault. StopsAt fault result.core.plan result.core.entries (S.tells sink) (S.tells result.sink)) }
    ensures others { RestStays result.core.plan gates.old gates.new }
{
    match begin(alloc, &core, &mut sink) {
        Ok(true) => run_tests(rt, alloc, core, jobs, gates, sink),
        Ok(false) => PoolRun {
            core,
            sink,
            put: Ok(()),
        },
        Err(fault) => PoolRun {
            core,
            sink,
            put: Err(fault),
        },
    }
}

/// Puts the header and, for a plan without tests, its line; returns whether there are tests.
fn begin<S: Sink>(alloc: Global, core: &Core, sink: &mut S) -> Result<bool, SinkFault>
    ensures { BeginsReport core.now.plan (S.tells sink.old) (S.tells sink.new) result }
{
    header(alloc, sink, core.plan())?;
    if core.plan().parts().tests.is_empty() {
        no_tests(sink)?;
        return Ok(false);
    }
    Ok(true)
}

/// Runs the tests of a plan that has tests, and puts the summary behind their lines.
#[tactic(auto, using(crate::proofs::PoolLemmas::ends_behind))]
fn run_tests<R: Threads + Wait + Sync, G: Gate + Send, S: Sink + Send>(
    rt: &R,
    alloc: Global,
    core: Core,
    jobs: &Jobs<'_>,
    gates: &mut [G],
    sink: S,
) -> PoolRun<S>
    requires fresh { core ≡ record { plan = core.plan; entries = []; aborted = false } }
    requires level { 1 ≤ core.plan.level }
    requires some { 0 < length gates.old }
    requires reach { Reach jobs.now core.plan }
    ensures plan { result.core.plan ≡ core.plan }
    ensures ran { HasRun (terms_in jobs.now core.plan) (map G.tells gates.old) (map G.tells gates.new) result.core.plan result.core.entries }
    ensures puts { PutsLines (lines_of_run result.core.plan result.core.entries) (S.tells sink) (S.tells result.sink) result.put }
    ensures ends { RunEnds result.core.plan result.core.entries result.put }
    ensures stops { IfErr result.put (λ fault. StopsBehind fault result.core.plan result.core.entries (S.tells sink) (S.tells result.sink)) }
    ensures others { RestStays result.core.plan gates.old gates.new }
{
    let PoolRun {
        core,
        mut sink,
        put,
    } = run_pool(rt, alloc, core, jobs, gates, sink);
    let ended = put_behind(alloc, &core, &mut sink, put);
    PoolRun {
        core,
        sink,
        put: ended,
    }
}

/// Runs the tests of a plan, and puts their lines.
///
/// The workers are as many as the level of the plan, but at most as many as there are gates.
pub fn run_pool<R: Threads + Wait + Sync, G: Gate + Send, S: Sink + Send>(
    rt: &R,
    alloc: Global,
    core: Core,
    jobs: &Jobs<'_>,
    gates: &mut [G],
    sink: S,
) -> PoolRun<S>
    requires fresh { core ≡ record { plan = core.plan; entries = []; aborted = false } }
    requires level { 1 ≤ core.plan.level }
    requires some { 0 < length gates.old }
    requires reach { Reach jobs.now core.plan }
    ensures plan { result.core.plan ≡ core.plan }
    ensures ran { HasRun (terms_in jobs.now core.plan) (map G.tells gates.old) (map G.tells gates.new) result.core.plan result.core.entries }
    ensures puts { PutsLines (test_lines result.core.plan result.core.entries) (S.tells sink) (S.tells result.sink) result.put }
    ensures ends { RunEnds result.core.plan result.core.entries result.put }
    ensures halted { IfErr result.put (λ fault. IsHalted fault result.core.plan result.core.entries (S.tells sink) (S.tells result.sink)) }
    ensures others { RestStays result.core.plan gates.old gates.new }
{
    let workers = worker_count(&core, gates.len());
    let state = run_workers(rt, alloc, State::open(core, sink), gates, workers, jobs);
    let put = put_of(state.halt());
    let (core, sink) = state.into_parts();
    PoolRun { core, sink, put }
}

/// Counts the workers: one for each processor of the level, but at most one for each gate.
fn worker_count(core: &Core, gates: usize) -> u32
    ensures { result ≡ min core.now.plan.level gates }
{
    (core.plan().parts().level as usize).min(gates) as u32
}

/// Returns the result of all puts so far, by why the run was given up.
fn put_of(halt: Option<Halt>) -> Result<(), SinkFault>
    ensures { result ≡ put_of halt }
{
    match halt {
        None => Ok(()),
        Some(Halt::Output) => Err(SinkFault::Failed),
        Some(Halt::Memory) => Err(SinkFault::NoMemory),
    }
}

/// Puts the summary, if the lines of all tests were put.
#[tactic(auto, using(crate::proofs::PoolLemmas::ended_final))]
fn put_behind<S: Sink>(
    alloc: Global,
    core: &Core,
    sink: &mut S,
    put: Result<(), SinkFault>,
) -> Result<(), SinkFault>
    requires ended { RunEnds core.now.plan core.now.entries put }
    ensures { PutsBehind put (summary_lines core.now.plan core.now.entries) (S.tells sink.old) (S.tells sink.new) result }
{
    match put {
        Ok(()) => put_summary(alloc, core, sink),
        Err(fault) => Err(fault),
    }
}

/// Puts the summary of a run in which each test is final.
fn put_summary<S: Sink>(alloc: Global, core: &Core, sink: &mut S) -> Result<(), SinkFault>
    requires ended { are_all_final core.now.plan core.now.entries ≡ true }
    ensures { PutsLines (summary_lines core.now.plan core.now.entries) (S.tells sink.old) (S.tells sink.new) result }
{
    summary(alloc, sink, core.plan(), core.history())?;
    Ok(())
}
