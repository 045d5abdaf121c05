ghost use Rattle.std.specs.Prelude.{◌≡◌, ◌==◌, ◌<◌, ◌≤◌, [], None, true, IfOk, IfErr, if◌then◌else◌, length, map, option_map};
ghost use Rattle.ct_args.specs.Invocation.{IsBounded};
ghost use Rattle.ct_app.specs.Calls.{sides};
ghost use Rattle.ct_app.specs.Ends.{EndsFor, EndsWithFiles, PlanEnds, ended_as, history_entries, with_status as ended_with};
ghost use Rattle.ct_app.specs.Run.{HasRun, OthersStay, RestStays};
ghost use Rattle.ct_app.specs.RunFiles.{done_of};
ghost use Rattle.ct_core.specs.Order.{FollowsQueue};
ghost use Rattle.ct_history.specs.Verdicts.{are_all_final};
ghost use Rattle.ct_worker.specs.Work.{Reach, terms_in};

use crate::Outcome;
use crate::planning::{PlannedFolder, Unplanned, hand_out_sound, plan_folder};
use crate::props::without_links;
use crate::run::{PoolRun, run};
use crate::run_files::write_files;
use ct_args::Invocation;
use ct_base::{Files, List, Name, Pair, Sink, SinkFault};
use ct_core::{Core, Gate};
use ct_cost::CostData;
use ct_history::{History, Plan, PlanParts};
use ct_worker::Jobs;
use std::alloc::Global;
use std::sync::Wait;
use std::thread::Threads;

/// How a call ended, before the line of its outcome is put, and the sink of the call.
#[derive(Drop)]
pub(crate) struct Ran<S> {
    /// The status of a complete run, or the outcome of any other call.
    pub(crate) ended: Result<u8, Outcome>,
    /// The names of the tests of a cycle, if a cycle is refused; else empty.
    pub(crate) names: List<Name>,
    /// The plan of the run, if one was made.
    pub(crate) plan: Option<Plan>,
    /// The history of the run, if a plan was made.
    pub(crate) history: Option<History>,
    pub(crate) sink: S,
}

/// How the run of a plan ended, before its files are written.
#[derive(Drop)]
struct PlanRun<S> {
    ended: Result<(), Outcome>,
    plan: Plan,
    history: History,
    sink: S,
}

/// Reads the folder of a run, plans the tests, runs them, and writes the files for the next run.
///
/// The tests, the named specification and the cost data of the last run are read. Where the words
/// ask for the tests that failed last, the choice is limited to the names in the log.
pub(crate) fn run_folder<R: Threads + Wait + Sync, F: Files, G: Gate + Send, S: Sink + Send>(
    rt: &R,
    alloc: Global,
    invocation: Invocation,
    env: &[Pair],
    files: &mut F,
    gates: &mut [G],
    sink: S,
) -> Ran<S>
    requires bounded { IsBounded invocation }
    requires some { 0 < length gates.old }
    ensures ends { EndsFor invocation (λ words. sides words env.now (F.tells files.old) (F.tells files.new) (map G.tells gates.old) (map G.tells gates.new) (S.tells sink) (S.tells result.sink) result.plan (option_map history_entries result.history)) result.names result.ended }
    ensures others { OthersStay result.plan gates.old gates.new }
{
    let (timeout, empty_is_error) = (invocation.timeout, invocation.empty_is_error);
    let PlannedFolder { tests, costs, plan } = match plan_folder(alloc, files, invocation) {
        Ok(folder) => folder,
        Err(bad) => return unplanned(bad, sink),
    };
    hand_out_sound(&plan);
    let tests = without_links(alloc, tests);
    let jobs = Jobs {
        own: env,
        defs: &tests.defs,
        props: &tests.props,
        timeout,
    };
    let PlanRun {
        ended,
        plan,
        history,
        sink,
    } = run_plan(rt, alloc, plan, &jobs, gates, sink);
    let ended = leave_files(alloc, files, empty_is_error, &costs, &plan, &history, ended);
    Ran {
        ended,
        names: List::new(alloc),
        plan: Some(plan),
        history: Some(history),
        sink,
    }
}

/// Makes the end of a call whose folder has no plan.
fn unplanned<S>(bad: Unplanned, sink: S) -> Ran<S>
    ensures { result ≡ record { ended = Err bad.outcome; names = bad.names; plan = None; history = None; sink = sink } }
{
    Ran {
        ended: Err(bad.outcome),
        names: bad.names,
        plan: None,
        history: None,
        sink,
    }
}

/// Makes the end of a call that made no plan.
pub(crate) fn unrun<S>(alloc: Global, outcome: Outcome, sink: S) -> Ran<S>
    ensures { result ≡ record { ended = Err outcome; names = []; plan = None; history = None; sink = sink } }
{
    Ran {
        ended: Err(outcome),
        names: List::new(alloc),
        plan: None,
        history: None,
        sink,
    }
}

/// Runs a plan with its report.
fn run_plan<R: Threads + Wait + Sync, G: Gate + Send, S: Sink + Send>(
    rt: &R,
    alloc: Global,
    plan: Plan,
    jobs: &Jobs<'_>,
    gates: &mut [G],
    sink: S,
) -> PlanRun<S>
    requires level { 1 ≤ plan.level }
    requires some { 0 < length gates.old }
    requires reach { Reach jobs.now plan }
    ensures plan { result.plan ≡ plan }
    ensures ran { HasRun (terms_in jobs.now plan) (map G.tells gates.old) (map G.tells gates.new) result.plan (history_entries result.history) }
    ensures order { FollowsQueue result.plan (history_entries result.history) }
    ensures ends { PlanEnds result.plan (history_entries result.history) (S.tells sink) (S.tells result.sink) result.ended }
    ensures others { RestStays result.plan gates.old gates.new }
{
    match Core::open(alloc, plan) {
        Ok(core) => {
            let PoolRun { core, sink, put } = run(rt, alloc, core, jobs, gates, sink);
            let (plan, history) = core.into_parts();
            PlanRun {
                ended: outcome_of(put),
                plan,
                history,
                sink,
            }
        }
        Err(plan) => PlanRun {
            ended: Err(Outcome::Memory),
            plan,
            history: History {
                entries: Vec::new(alloc),
            },
            sink,
        },
    }
}

/// Turns the end of a run into the outcome of the call.
fn outcome_of(run: Result<(), SinkFault>) -> Result<(), Outcome>
    ensures { result ≡ ended_as run }
{
    match run {
        Ok(()) => Ok(()),
        Err(fault) => Err(Outcome::from(fault)),
    }
}

/// Writes the files of a complete run, and returns the status of the run.
///
/// A run that ended early keeps its outcome, and its files stay.
#[tactic(auto, using(crate::proofs::LeaveLemmas::early_status))]
fn leave_files<F: Files>(
    alloc: Global,
    files: &mut F,
    empty_is_error: bool,
    costs: &CostData,
    plan: &Plan,
    history: &History,
    ended: Result<(), Outcome>,
) -> Result<u8, Outcome>
    requires complete { IfOk ended (λ done. are_all_final plan.now (history_entries history.now) ≡ true) }
    ensures left { EndsWithFiles plan.now (history_entries history.now) costs.now (F.tells files.old) (F.tells files.new) ended (done_of result) }
    ensures status { result ≡ ended_with empty_is_error plan.now (history_entries history.now) (done_of result) }
{
    ended?;
    let failed = write_files(alloc, files, costs, plan, history)?;
    Ok(status(empty_is_error, plan.parts(), failed))
}

/// Returns the status of a complete run: 8 where the run failed, else 0. `failed` says whether a
/// test failed.
///
/// Source: CMake manual, ctest(1), Description.
fn status(empty_is_error: bool, plan: &PlanParts, failed: bool) -> u8
    ensures { result ≡ (if (if length plan.now.tests == 0 then empty_is_error else failed) then 8 else 0) }
{
    if is_failed(empty_is_error, plan, failed) {
        8
    } else {
        0
    }
}

/// Returns whether a complete run failed: a test failed, or there is no test and that is an error.
///
/// Source: CMake manual, ctest(1), --no-tests.
fn is_failed(empty_is_error: bool, plan: &PlanParts, failed: bool) -> bool
    ensures { result ≡ (if length plan.now.tests == 0 then empty_is_error else failed) }
{
    if plan.tests.is_empty() {
        empty_is_error
    } else {
        failed
    }
}
