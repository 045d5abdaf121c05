ghost use Rattle.std.specs.Prelude.{◌≡◌, ◌+◌, ◌-◌, ◌≤◌, [], length, vec_len, All, IfOk, None};
ghost use Rattle.std.specs.Thread.{IsSync};
ghost use Rattle.measure.specs.Race.{IsFirstPass, IsFresh, HasJoined, with_made};

use crate::timing::{now, since};
use crate::turn::tally::{Raced, Tally};
use ct_base::NoMemory;
use ct_turn::{Pass, Turn};
use std::alloc::Global;
use std::sync::Wait;
use std::thread::{Threads, join, map_vec};
use std::time::{Clock, Duration};

/// A worker's pass after its takes, and how long they took.
#[derive(Drop)]
struct Ran {
    pass: Pass,
    time: Duration,
}

/// The pass of worker 0, into which all others were joined, and how long each worker took.
#[derive(Drop)]
struct Joined {
    pass: Pass,
    times: Vec<Duration>,
}

/// Lets `workers` workers take one state in turn, each `takes` times in a thread of its own.
///
/// The history of the state stays empty.
pub fn race<R: Threads + Wait + Clock + Sync>(
    rt: &R,
    alloc: Global,
    workers: u32,
    takes: u64,
) -> Result<Raced, NoMemory>
    requires some { 1 ≤ workers }
    ensures history { IfOk result (λ raced. raced.tally.history.entries.items ≡ []) }
    ensures times { IfOk result (λ raced. vec_len raced.times ≡ workers) }
{
    let Ok((turn, first)) = Turn::open(alloc, Tally::new(alloc), workers) else {
        return Err(NoMemory);
    };
    let joined = race_on(rt, alloc, &turn, first, workers, takes)?;
    Ok(Raced {
        tally: turn.close(joined.pass),
        times: joined.times,
    })
}

/// Lets `workers` workers take the state of a turn, and joins their passes into the first.
fn race_on<R: Threads + Wait + Clock + Sync>(
    rt: &R,
    alloc: Global,
    turn: &Turn<Tally>,
    mut first: Pass,
    workers: u32,
    takes: u64,
) -> Result<Joined, NoMemory>
    requires some { (1 ≤ workers) × (workers ≤ turn.now.seats) }
    requires first { IsFirstPass turn.now 1 0 first }
    ensures pass { IfOk result (λ joined. IsFirstPass turn.now workers (workers - 1) joined.pass) }
    ensures times { IfOk result (λ joined. vec_len joined.times ≡ workers) }
{
    let others = split_off(alloc, turn, &mut first, workers - 1)?;
    let (ran, others) = run_beside(rt, turn, first, others, takes);
    join_ran(alloc, turn, ran, others?)
}

/// Lets the first worker take the state in a thread of its own, beside the others.
fn run_beside<R: Threads + Wait + Clock + Sync>(
    rt: &R,
    turn: &Turn<Tally>,
    first: Pass,
    others: Vec<Pass>,
    takes: u64,
) -> (Ran, Result<Vec<Ran>, NoMemory>)
    requires first { IsFresh turn.now first }
    requires others { All (IsFresh turn.now) others.items }
    ensures first { result.0.pass ≡ first }
    ensures others { IfOk result.1 (λ rans. (vec_len rans ≡ vec_len others)
        × All (λ ran. IsFresh turn.now ran.pass) rans.items) }
{
    join(
        rt,
        move || -> Ran
            requires shared { IsSync R.row }
            requires fresh { IsFresh turn.now first }
            ensures { result.pass ≡ first }
        { run(rt, turn, first, takes) },
        move || -> Result<Vec<Ran>, NoMemory>
            requires shared { IsSync R.row }
            requires fresh { All (IsFresh turn.now) others.items }
            ensures { IfOk result (λ rans. (vec_len rans ≡ vec_len others)
                × All (λ ran. IsFresh turn.entry.now ran.pass) rans.items) }
        { run_all(rt, turn, others, takes) },
    )
}

/// Joins the passes of the others into the one of worker 0, and lists the times of all.
fn join_ran(
    alloc: Global,
    turn: &Turn<Tally>,
    ran: Ran,
    others: Vec<Ran>,
) -> Result<Joined, NoMemory>
    requires first { IsFirstPass turn.now ran.pass.known.made 0 ran.pass }
    requires others { All (λ ran. IsFresh turn.now ran.pass) others.items }
    ensures pass { IfOk result (λ joined.
        IsFirstPass turn.now ran.pass.known.made (vec_len others) joined.pass) }
    ensures times { IfOk result (λ joined. vec_len joined.times ≡ 1 + vec_len others) }
{
    let Ran {
        pass: mut first,
        time,
    } = ran;
    let mut times = Vec::with_capacity(alloc, others.len().saturating_add(1))?;
    times.push(time)?;
    join_all(turn, &mut first, others, &mut times)?;
    Ok(Joined { pass: first, times })
}

/// Makes `count` passes.
fn split_off(
    alloc: Global,
    turn: &Turn<Tally>,
    first: &mut Pass,
    count: u32,
) -> Result<Vec<Pass>, NoMemory>
    requires opener { first.old.known.worker ≡ 0 }
    requires fresh { IsFresh turn.now first.old }
    requires seats { first.old.known.made + count ≤ turn.now.seats }
    ensures ok { IfOk result (λ passes. (vec_len passes ≡ count)
        × All (IsFresh turn.now) passes.items
        × (first.new ≡ with_made first.old count)) }
{
    let mut passes = Vec::with_capacity(alloc, count as usize)?;
    for _ in 0..count {
        passes.push(turn.split(first))?;
    }
    Ok(passes)
}

/// Lets each pass take and give the turn `takes` times, in a thread of its own.
fn run_all<R: Threads + Wait + Clock + Sync>(
    rt: &R,
    turn: &Turn<Tally>,
    passes: Vec<Pass>,
    takes: u64,
) -> Result<Vec<Ran>, NoMemory>
    requires fresh { All (IsFresh turn.now) passes.items }
    ensures { IfOk result (λ rans. (vec_len rans ≡ vec_len passes)
        × All (λ ran. IsFresh turn.now ran.pass) rans.items) }
{
    Ok(map_vec(
        rt,
        passes,
        &|pass| -> Ran
            requires { IsFresh turn.now pass }
            ensures { result.pass ≡ pass }
        { run(rt, turn, pass, takes) },
    )?)
}

fn run<R: Wait + Clock>(rt: &R, turn: &Turn<Tally>, mut pass: Pass, takes: u64) -> Ran
    requires fresh { IsFresh turn.now pass }
    ensures { result.pass ≡ pass }
{
    let start = now(rt);
    take_often(rt, turn, &mut pass, takes);
    Ran {
        pass,
        time: since(rt, start),
    }
}

/// Takes the state and gives it back, `takes` times.
fn take_often<R: Wait>(rt: &R, turn: &Turn<Tally>, pass: &mut Pass, takes: u64)
    requires fresh { IsFresh turn.now pass.old }
    ensures { pass.new ≡ pass.old }
{
    for _ in 0..takes {
        let mut tally = turn.take(rt, pass);
        tally.count();
        turn.give(pass, tally);
    }
}

/// Joins all passes into the one of worker 0, and puts their times behind its own.
fn join_all(
    turn: &Turn<Tally>,
    first: &mut Pass,
    others: Vec<Ran>,
    times: &mut Vec<Duration>,
) -> Result<(), NoMemory>
    requires opener { first.old.known.worker ≡ 0 }
    requires fresh { IsFresh turn.now first.old }
    requires others { All (λ ran. IsFresh turn.now ran.pass) others.items }
    ensures times { IfOk result (λ _. vec_len times.new ≡ vec_len times.old + vec_len others) }
    ensures fresh { IfOk result (λ _. IsFresh turn.now first.new) }
    ensures joined { IfOk result (λ _. HasJoined first.old (vec_len others) first.new) }
{
    for Ran { pass, time } in others {
        turn.join(first, pass);
        times.push(time)?;
    }
    Ok(())
}
