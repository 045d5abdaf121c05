ghost use Rattle.std.specs.Prelude.{◌≡◌, ◌+◌, ◌<◌, ◌≤◌, ◌^◌, [], All, IfErr, None, drop, length, map, vec_capacity, vec_len};
ghost use Rattle.std.specs.Thread.{IsSync};
ghost use denote.Param.Send.{IsSend};
ghost use Rattle.ct_history.specs.Plan.{IsSound};
ghost use Rattle.ct_report.specs.PutLines.{PutsLines};
ghost use Rattle.ct_report.specs.Report.{test_lines};
ghost use Rattle.ct_turn.specs.Seen.{HistoryGoesOn, held_start};
ghost use Rattle.ct_worker.specs.Crew.{AllTookPart, AreReady, HasSplit, IsIdle, all_joined};
ghost use Rattle.ct_worker.specs.Gates.{AreSameGates};
ghost use Rattle.ct_worker.specs.declared.state.Halt.TheVariants.{Memory};
ghost use Rattle.ct_worker.specs.Halted.{IsHalted};
ghost use Rattle.ct_worker.specs.Pool.{IsPooled};
ghost use Rattle.ct_worker.specs.State.{given_up, put_of};
ghost use Rattle.ct_worker.specs.Work.{Reach, terms_in};

use crate::worker::attend;
use crate::{Jobs, State};
use ct_base::Sink;
use ct_core::Gate;
use ct_turn::{OpenRefused, Pass, Turn};
use std::alloc::Global;
use std::sync::Wait;
use std::thread::{Threads, join_mut};

/// The state and the gates of a run, behind the work of its workers.
#[derive(Drop)]
pub struct Pooled<G, S: Sink> {
    pub state: State<S>,
    pub gates: Vec<G>,
}

/// Runs the tests by this many workers, each on the gate of its place, as `run_workers` does.
///
/// It returns the gates in order. It stands for callers of the library: no program calls it.
pub fn pool<R: Threads + Wait + Sync, G: Gate + Send, S: Sink + Send>(
    rt: &R,
    alloc: Global,
    state: State<S>,
    mut gates: Vec<G>,
    workers: u32,
    jobs: &Jobs<'_>,
) -> Pooled<G, S>
    requires fresh { (state.entries ≡ []) × (state.halt ≡ None) }
    requires some { 1 ≤ workers }
    requires gates { workers ≤ vec_len gates }
    requires reach { Reach jobs.now state.plan }
    ensures pooled { IsPooled (terms_in jobs.now state.plan) workers state result.state
        (map G.tells gates.items) (map G.tells result.gates.items) }
    ensures all { AreSameGates (map G.tells gates.items) (map G.tells result.gates.items) }
    ensures others { drop workers result.gates.items ≡ drop workers gates.items }
{
    let state = run_workers(rt, alloc, state, gates.as_mut_slice(), workers, jobs);
    Pooled { state, gates }
}

/// Runs the tests by this many workers, each on the gate of its place:
/// worker 0 in the caller's thread, the others in threads of their own.
///
/// Further gates are not asked. If memory is wanting for the workers,
/// the run is given up before anything has started.
pub fn run_workers<R: Threads + Wait + Sync, G: Gate + Send, S: Sink + Send>(
    rt: &R,
    alloc: Global,
    state: State<S>,
    gates: &mut [G],
    workers: u32,
    jobs: &Jobs<'_>,
) -> State<S>
    requires fresh { (state.entries ≡ []) × (state.halt ≡ None) }
    requires some { 1 ≤ workers }
    requires gates { workers ≤ length gates.old }
    requires reach { Reach jobs.now state.plan }
    ensures pooled { IsPooled (terms_in jobs.now state.plan) workers state result
        (map G.tells gates.old) (map G.tells gates.new) }
    ensures others { drop workers gates.new ≡ drop workers gates.old }
{
    hand_out_sound(&state);
    let Ok(mut passes) = Vec::with_capacity(alloc, workers as usize) else {
        return unstarted(state);
    };
    match Turn::open(alloc, state, workers) {
        Ok((turn, first)) => {
            split_all(&turn, first, workers - 1, &mut passes);
            let (working, _) = gates.split_at_mut(workers as usize);
            crew(rt, alloc, &turn, jobs, 0, passes.as_mut_slice(), working);
            let mut first = passes.remove(0);
            join_all(&turn, &mut first, passes);
            let state = turn.close(first);
            state.hand_out_lines();
            state
        }
        Err(OpenRefused { state }) => unstarted(state),
    }
}

/// Gives the run up for want of memory, before anything has started.
fn unstarted<S: Sink>(mut state: State<S>) -> State<S>
    ensures state { result ≡ given_up Memory state }
    ensures put { PutsLines (test_lines result.plan result.entries) result.opened result.sink (put_of result.halt) }
    ensures halted { IfErr (put_of result.halt)
        (λ fault. IsHalted fault result.plan result.entries result.opened result.sink) }
{
    state.give_up_for_memory();
    state.hand_out_lines();
    state
}

/// Does nothing when it runs; its clause says that the plan of a run is sound.
fn hand_out_sound<S: Sink>(state: &State<S>)
    ensures { IsSound state.now.plan }
{
    let _ = state.core().plan().parts();
}

/// Splits this many passes off the pass of worker 0, and puts them behind it.
fn split_all<S: Sink>(turn: &Turn<State<S>>, first: Pass, count: u32, passes: &mut Vec<Pass>)
    requires turn { first.turn ≡ turn.now.id }
    requires opener { first.known.worker ≡ 0 }
    requires seats { first.known.made + count ≤ turn.now.seats }
    requires empty { passes.old.items ≡ [] }
    requires room { count < vec_capacity passes.old }
    ensures split { HasSplit turn.now first count passes.new.items }
    ensures count { vec_len passes.new ≡ count + 1 }
{
    passes.push_reserved(first);
    for _ in 0..count {
        let pass = turn.split(&mut passes[0]);
        passes.push_reserved(pass);
    }
}

/// Lets the workers from this one on take part, each with the pass and the gate of its place: the
/// first in the caller's thread, the others in threads of their own.
///
/// The workers are halved at each step, so the stack grows as the logarithm of their number.
#[cycle(crew)]
fn crew<R: Threads + Wait + Sync, G: Gate + Send, S: Sink + Send>(
    rt: &R,
    alloc: Global,
    turn: &Turn<State<S>>,
    jobs: &Jobs<'_>,
    worker: u32,
    passes: &mut [Pass],
    gates: &mut [G],
)
    requires ready { AreReady jobs.now turn.now worker passes.old }
    requires gates { length gates.old ≡ length passes.old }
    requires few { worker + length passes.old < 2 ^ 32 }
    ensures { AllTookPart jobs.now passes.old passes.new (map G.tells gates.old) (map G.tells gates.new) }
{
    if passes.len() < 2 {
        alone(rt, alloc, turn, jobs, worker, passes, gates);
        return;
    }
    let half = passes.len() / 2;
    both(rt, alloc, turn, jobs, worker, passes, gates, half);
}

/// Runs the workers of both halves; the far half begins behind this many workers.
#[cycle(crew)]
fn both<R: Threads + Wait + Sync, G: Gate + Send, S: Sink + Send>(
    rt: &R,
    alloc: Global,
    turn: &Turn<State<S>>,
    jobs: &Jobs<'_>,
    worker: u32,
    passes: &mut [Pass],
    gates: &mut [G],
    half: usize,
)
    requires ready { AreReady jobs.now turn.now worker passes.old }
    requires gates { length gates.old ≡ length passes.old }
    requires few { worker + length passes.old < 2 ^ 32 }
    requires half { (0 < half) × (half < length passes.old) }
    ensures { AllTookPart jobs.now passes.old passes.new (map G.tells gates.old) (map G.tells gates.new) }
{
    let next = worker + half as u32;
    let (low, high) = passes.split_at_mut(half);
    let (near, far) = gates.split_at_mut(half);
    let mut front = ||
        requires { IsSync R.row × IsSend G.row × IsSend S.row × AreReady jobs.now turn.now worker low.now × (length near.now ≡ length low.now) × (worker + length low.now < 2 ^ 32) }
        ensures { AllTookPart jobs.entry.now low.entry.now low.exit.now (map G.tells near.entry.now) (map G.tells near.exit.now) }
    { crew(rt, alloc, turn, jobs, worker, low, near) };
    let mut back = ||
        requires { IsSync R.row × IsSend G.row × IsSend S.row × AreReady jobs.now turn.now next high.now × (length far.now ≡ length high.now) × (next + length high.now < 2 ^ 32) }
        ensures { AllTookPart jobs.entry.now high.entry.now high.exit.now (map G.tells far.entry.now) (map G.tells far.exit.now) }
    { crew(rt, alloc, turn, jobs, next, high, far) };
    join_mut(rt, &mut back, &mut front);
}

/// Lets the only worker take part, if there is one.
fn alone<R: Wait, G: Gate, S: Sink>(
    rt: &R,
    alloc: Global,
    turn: &Turn<State<S>>,
    jobs: &Jobs<'_>,
    worker: u32,
    passes: &mut [Pass],
    gates: &mut [G],
)
    requires ready { AreReady jobs.now turn.now worker passes.old }
    requires gates { length gates.old ≡ length passes.old }
    requires one { length passes.old < 2 }
    ensures { AllTookPart jobs.now passes.old passes.new (map G.tells gates.old) (map G.tells gates.new) }
{
    if !passes.is_empty() {
        attend(rt, alloc, turn, &mut passes[0], worker, &mut gates[0], jobs);
    }
}

/// Joins all these passes into the pass of worker 0.
fn join_all<S: Sink>(turn: &Turn<State<S>>, first: &mut Pass, others: Vec<Pass>)
    requires opener { first.old.known.worker ≡ 0 }
    requires first { IsIdle turn.now first.old }
    requires others { All (IsIdle turn.now) others.items }
    ensures known { first.new ≡ record first.old { known = all_joined first.old.known others.items } }
    ensures own { HistoryGoesOn first.old.known.worker first.old.known.seen.entries first.new.known.seen.entries }
    ensures held { held_start first.new.known ≡ held_start first.old.known }
{
    for pass in others {
        turn.join(first, pass);
    }
}
