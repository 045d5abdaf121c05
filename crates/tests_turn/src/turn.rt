//! The turn over a core: two passes in one thread, and workers in threads of their own.

ghost use Rattle.std.specs.Prelude.{◌≡◌, ◌≤◌, IfSome, [], false, Some, None};
ghost use Rattle.std.specs.Thread.{IsSync};
ghost use Rattle.ct_turn.specs.Pass.{idle_pass};
ghost use Rattle.ct_turn.specs.Seen.{has_seen, held_start};
ghost use Rattle.tests_turn.specs.Held.{HasWorked, IsKeeper, IsOfWorker, held_behind, open_start_of_ticket};

use ct_base::{List, NoMemory};
use ct_core::{Core, Next, Ticket};
use ct_history::{Entry, Plan, judge};
use ct_turn::{Pass, Turn};
use ct_verdict::{How, Seen};
use std::alloc::Global;
use std::process::Abort;
use std::sync::Wait;
use std::test::Fail;
use std::thread::{Threads, join};
use tests_samples::{Manner, free, parts_of, plan_of};

/// Takes the turn, asks what the worker has to do, and gives the turn back.
fn ask<R: Wait>(rt: &R, turn: &Turn<Core>, pass: &mut Pass, worker: u32) -> Next
    requires turn { pass.old.turn ≡ turn.now.id }
    requires worker { pass.old.known.worker ≡ worker }
    requires idle { (pass.old.taken ≡ None) × (held_start pass.old.known ≡ None) }
    ensures pass { pass.new ≡
        idle_pass pass.old.turn (has_seen pass.old.known pass.new.known.seen) }
    ensures held { held_start pass.new.known ≡ held_behind result }
{
    let mut core = turn.take(rt, pass);
    let next = core.next(worker);
    let _ = core.history();
    turn.give(pass, core);
    next
}

/// Takes the turn, ends the attempt of a ticket, and gives the turn back.
fn finish<R: Wait>(rt: &R, turn: &Turn<Core>, pass: &mut Pass, ticket: Ticket, seen: Seen)
    requires turn { pass.old.turn ≡ turn.now.id }
    requires held { (pass.old.taken ≡ None)
        × (held_start pass.old.known ≡ Some (open_start_of_ticket ticket)) }
    ensures pass { pass.new ≡
        idle_pass pass.old.turn (has_seen pass.old.known pass.new.known.seen) }
    ensures held { held_start pass.new.known ≡ None }
{
    let mut core = turn.take(rt, pass);
    let _ = core.history();
    let _ = core.finish(ticket, seen);
    let _ = core.history();
    turn.give(pass, core);
}

/// Takes the turn and gives it back as it is, `times` times.
fn pass_on<R: Wait>(rt: &R, turn: &Turn<Core>, pass: &mut Pass, times: u32)
    requires turn { pass.old.turn ≡ turn.now.id }
    requires idle { pass.old.taken ≡ None }
    ensures pass { pass.new ≡
        idle_pass pass.old.turn (has_seen pass.old.known pass.new.known.seen) }
    ensures held { held_start pass.new.known ≡ held_start pass.old.known }
{
    for _ in 0..times {
        let core = turn.take(rt, pass);
        turn.give(pass, core);
    }
}

/// Works until every test is final, and sleeps while there is nothing to do.
fn work<R: Wait>(rt: &R, turn: &Turn<Core>, mut pass: Pass, worker: u32) -> Pass
    requires turn { pass.turn ≡ turn.now.id }
    requires worker { pass.known.worker ≡ worker }
    requires idle { (pass.taken ≡ None) × (held_start pass.known ≡ None) }
    ensures { HasWorked pass result }
{
    pass_on(rt, turn, &mut pass, 1_000);
    for _ in rt.forever() {
        match ask(rt, turn, &mut pass, worker) {
            Next::Start(ticket) => finish(rt, turn, &mut pass, ticket, passed()),
            Next::Settled(_) => {}
            Next::Wait => turn.pause(rt, &mut pass),
            Next::Done | Next::Aborted | Next::NoMemory => return pass,
        }
    }
    unreachable!()
}

/// Two passes in one thread: one starts test 1, the other has to wait, and the first ends it.
fn play<R: Wait + Abort>(rt: &R, alloc: Global, core: Core) -> Option<Core>
    requires new { (core.entries ≡ []) × (core.aborted ≡ false) }
{
    let (turn, mut first) = open(alloc, core, 2)?;
    play_on(rt, &turn, &mut first);
    Some(turn.close(first))
}

/// Opens a turn with a core in which nothing has happened.
fn open(alloc: Global, core: Core, seats: u32) -> Option<(Turn<Core>, Pass)>
    requires seats { 1 ≤ seats }
    requires new { (core.entries ≡ []) × (core.aborted ≡ false) }
    ensures { IfSome result (λ opened. (opened.0.seats ≡ seats)
        × IsKeeper opened.0 1 0 opened.1) }
{
    Turn::open(alloc, core, seats).ok()
}

/// Makes a second pass on a turn, takes the steps of both, and joins the second into the first.
fn play_on<R: Wait + Abort>(rt: &R, turn: &Turn<Core>, first: &mut Pass)
    requires seats { 2 ≤ turn.now.seats }
    requires first { IsKeeper turn.now 1 0 first.old }
    ensures { IsKeeper turn.now 2 1 first.new }
{
    let mut second = turn.split(first);
    let ticket = start(rt, turn, first);
    wait(rt, turn, &mut second);
    finish(rt, turn, first, ticket, passed());
    turn.join(first, second);
}

/// Lets worker 0 start a test.
fn start<R: Wait + Abort>(rt: &R, turn: &Turn<Core>, pass: &mut Pass) -> Ticket
    requires turn { pass.old.turn ≡ turn.now.id }
    requires worker { pass.old.known.worker ≡ 0 }
    requires idle { (pass.old.taken ≡ None) × (held_start pass.old.known ≡ None) }
    ensures pass { pass.new ≡
        idle_pass pass.old.turn (has_seen pass.old.known pass.new.known.seen) }
    ensures held { held_start pass.new.known ≡ Some (open_start_of_ticket result) }
{
    match ask(rt, turn, pass, 0) {
        Next::Start(ticket) => ticket,
        Next::Settled(_) | Next::Wait | Next::Done | Next::Aborted | Next::NoMemory => {
            panic!(rt; "test 1 did not start")
        }
    }
}

/// Lets worker 1 ask what it has to do. Where it is given a test, it ends it.
fn wait<R: Wait + Abort>(rt: &R, turn: &Turn<Core>, pass: &mut Pass)
    requires turn { pass.old.turn ≡ turn.now.id }
    requires worker { pass.old.known.worker ≡ 1 }
    requires idle { (pass.old.taken ≡ None) × (held_start pass.old.known ≡ None) }
    ensures pass { pass.new ≡
        idle_pass pass.old.turn (has_seen pass.old.known pass.new.known.seen) }
    ensures held { held_start pass.new.known ≡ None }
{
    match ask(rt, turn, pass, 1) {
        Next::Wait => {}
        Next::Start(ticket) => finish(rt, turn, pass, ticket, passed()),
        Next::Settled(_) | Next::Done | Next::Aborted | Next::NoMemory => {
            panic!(rt; "the other worker did not wait")
        }
    }
}

/// Runs two workers in threads of their own.
fn run_two<R: Threads + Wait + Sync>(rt: &R, alloc: Global, core: Core) -> Option<Core>
    requires new { (core.entries ≡ []) × (core.aborted ≡ false) }
{
    let (turn, first) = open(alloc, core, 2)?;
    let first = work_by_two(rt, &turn, first);
    Some(turn.close(first))
}

/// Runs four workers in threads of their own.
fn run_four<R: Threads + Wait + Sync>(rt: &R, alloc: Global, core: Core) -> Option<Core>
    requires new { (core.entries ≡ []) × (core.aborted ≡ false) }
{
    let (turn, first) = open(alloc, core, 4)?;
    let first = work_by_four(rt, &turn, first);
    Some(turn.close(first))
}

/// Lets the worker of the first pass and one more work, and joins their passes.
fn work_by_two<R: Threads + Wait + Sync>(rt: &R, turn: &Turn<Core>, mut first: Pass) -> Pass
    requires seats { 2 ≤ turn.now.seats }
    requires first { IsKeeper turn.now 1 0 first }
    ensures { IsKeeper turn.now 2 1 result }
{
    let second = turn.split(&mut first);
    let (mut first, second) = work_both(rt, turn, first, second, 0, 1);
    turn.join(&mut first, second);
    first
}

/// Lets the worker of the first pass and three more work, and joins their passes.
fn work_by_four<R: Threads + Wait + Sync>(rt: &R, turn: &Turn<Core>, mut first: Pass) -> Pass
    requires seats { 4 ≤ turn.now.seats }
    requires first { IsKeeper turn.now 1 0 first }
    ensures { IsKeeper turn.now 4 3 result }
{
    let second = turn.split(&mut first);
    let third = turn.split(&mut first);
    let fourth = turn.split(&mut first);
    let ((mut first, second), (third, fourth)) = work_all(rt, turn, first, second, third, fourth);
    turn.join(&mut first, second);
    turn.join(&mut first, third);
    turn.join(&mut first, fourth);
    first
}

/// Lets four workers work, two beside the two others.
fn work_all<R: Threads + Wait + Sync>(
    rt: &R,
    turn: &Turn<Core>,
    first: Pass,
    second: Pass,
    third: Pass,
    fourth: Pass,
) -> ((Pass, Pass), (Pass, Pass))
    requires first { IsOfWorker turn.now 0 first }
    requires second { IsOfWorker turn.now 1 second }
    requires third { IsOfWorker turn.now 2 third }
    requires fourth { IsOfWorker turn.now 3 fourth }
    ensures first { HasWorked first result.0.0 }
    ensures second { HasWorked second result.0.1 }
    ensures third { HasWorked third result.1.0 }
    ensures fourth { HasWorked fourth result.1.1 }
{
    join(
        rt,
        move || -> (Pass, Pass)
            requires shared { IsSync R.row }
            requires first { IsOfWorker turn.now 0 first }
            requires second { IsOfWorker turn.now 1 second }
            ensures first { HasWorked first result.0 }
            ensures second { HasWorked second result.1 }
        { work_both(rt, turn, first, second, 0, 1) },
        move || -> (Pass, Pass)
            requires shared { IsSync R.row }
            requires third { IsOfWorker turn.now 2 third }
            requires fourth { IsOfWorker turn.now 3 fourth }
            ensures first { HasWorked third result.0 }
            ensures second { HasWorked fourth result.1 }
        { work_both(rt, turn, third, fourth, 2, 3) },
    )
}

fn work_both<R: Threads + Wait + Sync>(
    rt: &R,
    turn: &Turn<Core>,
    one: Pass,
    other: Pass,
    first: u32,
    second: u32,
) -> (Pass, Pass)
    requires turn { (one.turn ≡ turn.now.id) × (other.turn ≡ turn.now.id) }
    requires workers { (one.known.worker ≡ first) × (other.known.worker ≡ second) }
    requires idle { (one.taken ≡ None) × (other.taken ≡ None) }
    requires held { (held_start one.known ≡ None) × (held_start other.known ≡ None) }
    ensures first { HasWorked one result.0 }
    ensures second { HasWorked other result.1 }
{
    join(
        rt,
        move || -> Pass
            requires shared { IsSync R.row }
            requires turn { one.turn ≡ turn.now.id }
            requires worker { one.known.worker ≡ first }
            requires idle { (one.taken ≡ None) × (held_start one.known ≡ None) }
            ensures { HasWorked one result }
        { work(rt, turn, one, first) },
        move || -> Pass
            requires shared { IsSync R.row }
            requires turn { other.turn ≡ turn.now.id }
            requires worker { other.known.worker ≡ second }
            requires idle { (other.taken ≡ None) × (held_start other.known ≡ None) }
            ensures { HasWorked other result }
        { work(rt, turn, other, second) },
    )
}

/// Makes a core for `tests` free tests, of which `level` may run at once.
fn core_of(alloc: Global, tests: u32, level: u32) -> Option<Core>
    ensures { IfSome result (λ core. (core.entries ≡ []) × (core.aborted ≡ false)) }
{
    Core::open(alloc, plan_with(alloc, tests, level).ok()??).ok()
}

fn plan_with(alloc: Global, tests: u32, level: u32) -> Result<Option<Plan>, NoMemory> {
    let mut list = List::new(alloc);
    for number in 1..tests.saturating_add(1) {
        list.push(free(alloc, number)?)?;
    }
    plan_of(alloc, parts_of(alloc, Manner::once(level), list, None)?)
}

/// Returns how an attempt that passed ended.
fn passed() -> Seen {
    Seen {
        how: How::Exited(0),
        fail_hit: false,
        pass_hit: false,
        skip_hit: false,
        micros: 0,
    }
}

/// Checks that a history is legal, and has `wanted` starts and `wanted` ends.
fn check_counts(rt: &impl Abort, alloc: Global, core: Core, wanted: u32) -> Result<(), NoMemory> {
    let (plan, history) = core.into_parts();
    let is_legal = judge(alloc, &plan, &history)?;
    assert!(rt; is_legal);
    let (starts, ends) = counts(history.entries.as_slice());
    assert!(rt;
        starts == wanted && ends == wanted,
        "{starts} starts, {ends} ends"
    );
    Ok(())
}

/// Counts the starts and the ends.
fn counts(entries: &[Entry]) -> (u32, u32) {
    let (mut starts, mut ends) = (0u32, 0u32);
    for entry in entries {
        match entry {
            Entry::Start { .. } => starts = starts.saturating_add(1),
            Entry::End { .. } => ends = ends.saturating_add(1),
            Entry::Settle { .. } | Entry::Stop => {}
        }
    }
    (starts, ends)
}

/// Returns whether worker 0 started test 1 and ended it, and nothing else happened.
fn is_one_attempt(entries: &[Entry]) -> bool {
    matches!(
        entries,
        [
            Entry::Start {
                test: 1,
                attempt: 1,
                worker: 0,
                placement: None
            },
            Entry::End {
                test: 1,
                attempt: 1,
                worker: 0,
                ..
            },
        ]
    )
}

#[test]
fn two_passes_share_one_state(rt: HostRuntime) -> Result<(), Fail> {
    let core = core_of(rt.alloc(), 1, 1).ok_or(NoMemory)?;
    let core = play(&rt, rt.alloc(), core).ok_or(NoMemory)?;
    let (_plan, history) = core.into_parts();
    assert!(rt; is_one_attempt(history.entries.as_slice()));
    Ok(())
}

#[test]
fn two_workers_end_each_test_once(rt: HostRuntime) -> Result<(), Fail> {
    let core = core_of(rt.alloc(), 30, 2).ok_or(NoMemory)?;
    let core = run_two(&rt, rt.alloc(), core).ok_or(NoMemory)?;
    check_counts(&rt, rt.alloc(), core, 30)?;
    Ok(())
}

#[test]
fn four_workers_end_each_test_once(rt: HostRuntime) -> Result<(), Fail> {
    let core = core_of(rt.alloc(), 30, 4).ok_or(NoMemory)?;
    let core = run_four(&rt, rt.alloc(), core).ok_or(NoMemory)?;
    check_counts(&rt, rt.alloc(), core, 30)?;
    Ok(())
}

/// One test runs at a time, so that three of four workers sleep until one gives the turn back.
#[test]
fn sleepers_are_woken_until_the_work_is_done(rt: HostRuntime) -> Result<(), Fail> {
    let core = core_of(rt.alloc(), 30, 1).ok_or(NoMemory)?;
    let core = run_four(&rt, rt.alloc(), core).ok_or(NoMemory)?;
    check_counts(&rt, rt.alloc(), core, 30)?;
    Ok(())
}
