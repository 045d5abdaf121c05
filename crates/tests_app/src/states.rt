//! The state that workers share, step by step: held by one owner, and lent by a turn.

ghost use Rattle.std.specs.Prelude.{◌≡◌, IfOk, [], None, Some, false};
ghost use Rattle.ct_turn.specs.Seen.{held_start};
ghost use Rattle.ct_core.specs.Ticket.{run_of};
ghost use Rattle.ct_worker.specs.Work.{AsksNext, EndsOwn};

use crate::calls::{Machine, expect};
use ct_app::plan_main;
use ct_base::{MemSink, NoMemory};
use ct_core::{Core, Next, Ticket};
use ct_history::{History, Plan, holds_start, is_busy};
use ct_turn::{Pass, Turn};
use ct_verdict::{How, Seen};
use ct_worker::{Halt, State};
use std::alloc::Global;
use std::process::Abort;
use std::sync::Wait;
use std::test::Fail;
use tests_calls::{CallRow, calls_of, entries_of, inputs_of, sink_of, written};

/// A run of five tests on three processors, whose second put fails.
const FIVE: &str = "
row five tests
fails put 2
file ./CTestTestfile.cmake
    add_test(a p)
    add_test(b p)
    add_test(c p)
    add_test(d p)
    add_test(e p)
call ctest -j 3
want told
    1/5 Test #1: a ... Passed 0.00 sec
    Start 1/1
    Start 2/1
    Start 3/1
    End 1/1
    Start 4/1
    End 2/1
    End 3/1
    End 4/1
";

/// A run of one test.
const ONE: &str = "
row one test
file ./CTestTestfile.cmake
    add_test(a p)
call ctest
want told
    1/1 Test #1: a ... Passed 0.00 sec
    Start 1/1
    End 1/1
";

/// Makes the plan of a call.
fn plan_of(rt: &impl Machine, call: &CallRow<'_>) -> Result<Plan, Fail> {
    let mut given = inputs_of(rt.alloc(), call)?;
    let planned = plan_main(rt.alloc(), given.words.as_slice(), &mut given.files);
    drop(given);
    Ok(planned.ok().ok_or("no plan")?)
}

/// Opens the core of a plan.
fn core_of(alloc: Global, plan: Plan) -> Result<Core, NoMemory>
    ensures { IfOk result (λ core. (core.entries ≡ []) × (core.aborted ≡ false)) }
{
    match Core::open(alloc, plan) {
        Ok(core) => Ok(core),
        Err(_plan) => Err(NoMemory),
    }
}

/// Opens a state with the plan of a call.
fn open(rt: &impl Machine, call: &CallRow<'_>) -> Result<State<MemSink>, Fail>
    ensures { IfOk result (λ state. (state.entries ≡ []) × (state.halt ≡ None)) }
{
    let sink = sink_of(rt.alloc(), call)?;
    let core = core_of(rt.alloc(), plan_of(rt, call)?)?;
    Ok(State::open(core, sink))
}

/// Compares what was written, and the history behind it, with the wanted text of a call.
fn close(rt: &impl Machine, call: &CallRow<'_>, state: State<MemSink>) -> Result<(), Fail> {
    let (core, sink) = state.into_parts();
    let compared = compare(rt, call, core.history(), &sink);
    drop(core);
    drop(sink);
    compared
}

/// Compares what was written, and a history behind it, with the wanted text of a call.
fn compare(
    rt: &impl Machine,
    call: &CallRow<'_>,
    history: &History,
    sink: &MemSink,
) -> Result<(), Fail> {
    let happened = entries_of(rt.alloc(), history.entries.as_slice())?;
    let text = format!(in rt.alloc(); "{}{happened}", written(sink))?;
    expect(rt.alloc(), call, text.as_str())
}

/// Asks what a worker without an attempt has to do next.
fn next(rt: &impl Abort, state: &mut State<MemSink>, worker: u32) -> Next {
    assert!(rt; !is_busy(state.core().history().entries.as_slice(), worker));
    state.next(worker)
}

/// Lets a worker start an attempt.
fn start(rt: &impl Abort, state: &mut State<MemSink>, worker: u32) -> Ticket {
    match next(rt, state, worker) {
        Next::Start(ticket) => ticket,
        Next::Settled(_) | Next::Wait | Next::Done | Next::Aborted | Next::NoMemory => {
            panic!(rt; "worker {worker} starts nothing")
        }
    }
}

/// Ends an attempt that passed.
fn finish(rt: &impl Abort, state: &mut State<MemSink>, ticket: Ticket) {
    let entries = state.core().history().entries.as_slice();
    assert!(rt; holds_start(entries, ticket.test(), ticket.attempt(), ticket.worker()));
    state.finish(ticket, passed());
}

/// Checks that the run is given up for a worker.
fn expect_aborted(rt: &impl Abort, state: &mut State<MemSink>, worker: u32) {
    match next(rt, state, worker) {
        Next::Aborted => {}
        Next::Start(_ticket) => panic!(rt; "worker {worker} starts an attempt"),
        Next::Settled(_) | Next::Wait | Next::Done | Next::NoMemory => {
            panic!(rt; "worker {worker} goes on")
        }
    }
}

fn passed() -> Seen {
    Seen {
        how: How::Exited(0),
        fail_hit: false,
        pass_hit: false,
        skip_hit: false,
        micros: 0,
    }
}

#[test]
fn writes_nothing_behind_a_line_that_fails(rt: HostRuntime) -> Result<(), Fail> {
    for call in &calls_of(rt.alloc(), FIVE)? {
        let mut state = open(&rt, call)?;
        let first = start(&rt, &mut state, 0);
        let second = start(&rt, &mut state, 1);
        let third = start(&rt, &mut state, 2);
        finish(&rt, &mut state, first);
        let fourth = start(&rt, &mut state, 0);
        assert_eq!(rt; state.halt(), None);
        finish(&rt, &mut state, second);
        assert_eq!(rt; state.halt(), Some(Halt::Output));
        expect_aborted(&rt, &mut state, 1);
        finish(&rt, &mut state, third);
        finish(&rt, &mut state, fourth);
        close(&rt, call, state)?;
    }
    Ok(())
}

/// Takes the turn, asks what the worker has to do next, and gives the turn back.
fn begin<R: Wait>(rt: &R, turn: &Turn<State<MemSink>>, pass: &mut Pass, worker: u32) -> Next
    requires turn { pass.old.turn ≡ turn.now.id }
    requires idle { (pass.old.taken ≡ None) × (held_start pass.old.known ≡ None) }
    requires worker { pass.old.known.worker ≡ worker }
    ensures { AsksNext pass.old result pass.new }
{
    let mut state = turn.take(rt, pass);
    let next = state.next(worker);
    turn.give(pass, state);
    next
}

/// Takes the turn, ends an attempt, and gives the turn back.
fn end<R: Wait>(rt: &R, turn: &Turn<State<MemSink>>, pass: &mut Pass, ticket: Ticket, seen: Seen)
    requires turn { pass.old.turn ≡ turn.now.id }
    requires idle { pass.old.taken ≡ None }
    requires holds { held_start pass.old.known ≡ Some (run_of ticket) }
    ensures { EndsOwn pass.old ticket seen pass.new }
{
    let mut state = turn.take(rt, pass);
    state.finish(ticket, seen);
    turn.give(pass, state);
}

/// Lends a state to two workers in turn: the first starts a test, the second has to wait, and the
/// first ends the test.
fn play<R: Wait + Abort>(
    rt: &R,
    alloc: Global,
    state: State<MemSink>,
) -> Result<State<MemSink>, NoMemory>
    requires { (state.entries ≡ []) × (state.halt ≡ None) }
{
    let Ok((turn, mut first)) = Turn::open(alloc, state, 2) else {
        return Err(NoMemory);
    };
    let mut second = turn.split(&mut first);
    let ticket = match begin(rt, &turn, &mut first, 0) {
        Next::Start(ticket) => ticket,
        Next::Settled(_) | Next::Wait | Next::Done | Next::Aborted | Next::NoMemory => {
            panic!(rt; "the first worker starts nothing")
        }
    };
    match begin(rt, &turn, &mut second, 1) {
        Next::Wait => {}
        Next::Start(_ticket) => panic!(rt; "the second worker starts an attempt"),
        Next::Settled(_) | Next::Done | Next::Aborted | Next::NoMemory => {
            panic!(rt; "the second worker does not wait")
        }
    }
    end(rt, &turn, &mut first, ticket, passed());
    turn.join(&mut first, second);
    Ok(turn.close(first))
}

#[test]
fn lends_one_state_to_two_workers_in_turn(rt: HostRuntime) -> Result<(), Fail> {
    for call in &calls_of(rt.alloc(), ONE)? {
        let state = play(&rt, rt.alloc(), open(&rt, call)?)?;
        close(&rt, call, state)?;
    }
    Ok(())
}
