ghost use Rattle.std.specs.Prelude.{◌≡◌, None, Some, false, is_some, true};
ghost use Rattle.ct_history.specs.History.{is_busy_in};
ghost use Rattle.ct_history.specs.Legal.{is_legal};
ghost use Rattle.ct_core.specs.Ticket.{run_of};
ghost use Rattle.ct_turn.specs.Seen.{held_start};
ghost use Rattle.ct_worker.specs.State.{IsStateNext};
ghost use Rattle.ct_worker.specs.Work.{AsksNext, EndsAndAsks, GoesAlong, IsEnded, Reach, terms_in};

use crate::attempt::ask;
use crate::{Jobs, State};
use ct_base::Sink;
use ct_core::{Gate, Next, Ticket};
use ct_turn::{Pass, Turn};
use ct_verdict::Seen;
use std::alloc::Global;
use std::sync::Wait;

/// The pass and the gate of a worker, behind its work.
#[derive(Drop)]
pub struct Worked<G> {
    pub pass: Pass,
    pub gate: G,
}

/// Takes part in the run as this worker, until every test is final or the run was given up.
///
/// It starts what may start, and runs the program of each attempt on its gate while others have the turn.
/// Meanwhile it lends the gate its pass, which holds the start. If nothing can be done, it waits for an
/// attempt of another worker to end. An attempt for which memory is wanting ends for want of memory.
/// It stands for callers of the library: no program calls it.
pub fn work<R: Wait, G: Gate, S: Sink>(
    rt: &R,
    alloc: Global,
    turn: &Turn<State<S>>,
    mut pass: Pass,
    worker: u32,
    mut gate: G,
    jobs: &Jobs<'_>,
) -> Worked<G>
    requires turn { pass.turn ≡ turn.now.id }
    requires idle { (pass.taken ≡ None) × (held_start pass.known ≡ None) }
    requires worker { pass.known.worker ≡ worker }
    requires reach { Reach jobs.now pass.known.plan }
    ensures along { GoesAlong (terms_in jobs.now pass.known.plan) pass result.pass (G.tells gate) (G.tells result.gate) }
    ensures ended { IsEnded result.pass }
{
    attend(rt, alloc, turn, &mut pass, worker, &mut gate, jobs);
    Worked { pass, gate }
}

/// The answer to a worker: what it has to do next, and whether its run lends resources.
struct Answer {
    next: Next,
    lends: bool,
}

/// Takes part in the run with this pass and this gate.
pub(crate) fn attend<R: Wait, G: Gate, S: Sink>(
    rt: &R,
    alloc: Global,
    turn: &Turn<State<S>>,
    pass: &mut Pass,
    worker: u32,
    gate: &mut G,
    jobs: &Jobs<'_>,
)
    requires turn { pass.old.turn ≡ turn.now.id }
    requires idle { (pass.old.taken ≡ None) × (held_start pass.old.known ≡ None) }
    requires worker { pass.old.known.worker ≡ worker }
    requires reach { Reach jobs.now pass.old.known.plan }
    ensures along { GoesAlong (terms_in jobs.now pass.old.known.plan) pass.old pass.new (G.tells gate.old) (G.tells gate.new) }
    ensures ended { IsEnded pass.new }
{
    let mut answer = begin(rt, turn, pass, worker);
    for _ in rt.forever() {
        let Answer { next, lends } = answer;
        answer = match next {
            Next::Start(ticket) => {
                let seen = ask(alloc, pass, &ticket, jobs, lends, gate);
                end(rt, turn, pass, worker, ticket, seen)
            }
            Next::Wait => {
                turn.pause(rt, pass);
                begin(rt, turn, pass, worker)
            }
            Next::Settled(_) | Next::NoMemory => begin(rt, turn, pass, worker),
            Next::Done | Next::Aborted => return,
        };
    }
    unreachable!()
}

/// Takes the turn, asks what the worker has to do next, and gives the turn back.
fn begin<R: Wait, S: Sink>(rt: &R, turn: &Turn<State<S>>, pass: &mut Pass, worker: u32) -> Answer
    requires turn { pass.old.turn ≡ turn.now.id }
    requires idle { (pass.old.taken ≡ None) × (held_start pass.old.known ≡ None) }
    requires worker { pass.old.known.worker ≡ worker }
    ensures begins { AsksNext pass.old result.next pass.new }
    ensures lends { result.lends ≡ is_some pass.old.known.plan.resources }
{
    let mut state = turn.take(rt, pass);
    let answer = next_of(&mut state, worker);
    turn.give(pass, state);
    answer
}

/// Takes the turn, ends the attempt of a ticket, asks what
/// the worker has to do next, and gives the turn back.
fn end<R: Wait, S: Sink>(
    rt: &R,
    turn: &Turn<State<S>>,
    pass: &mut Pass,
    worker: u32,
    ticket: Ticket,
    seen: Seen,
) -> Answer
    requires turn { pass.old.turn ≡ turn.now.id }
    requires idle { pass.old.taken ≡ None }
    requires worker { pass.old.known.worker ≡ worker }
    requires holds { held_start pass.old.known ≡ Some (run_of ticket) }
    ensures ends { EndsAndAsks pass.old ticket seen result.next pass.new }
    ensures lends { result.lends ≡ is_some pass.old.known.plan.resources }
{
    let mut state = turn.take(rt, pass);
    state.finish(ticket, seen);
    let answer = next_of(&mut state, worker);
    turn.give(pass, state);
    answer
}

/// Asks a state what the worker has to do next.
fn next_of<S: Sink>(state: &mut State<S>, worker: u32) -> Answer
    requires { is_busy_in worker state.old.entries ≡ false }
    ensures next { IsStateNext state.old worker result.next state.new }
    ensures legal { is_legal state.new.plan state.new.entries ≡ true }
    ensures lends { result.lends ≡ is_some state.new.plan.resources }
{
    let next = state.next(worker);
    let lends = state.core().plan().parts().resources.is_some();
    Answer { next, lends }
}
