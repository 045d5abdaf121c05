//! Workers that take one state in turn, as often as they are told.
//!
//! Read first: `specs/Race.antt`, `tally.rt`, `turns.rt`, then `locks.rt`.

mod locks;
mod tally;
mod turns;

ghost use Rattle.std.specs.Prelude.{◌≤◌, IfOk};

use crate::timing::{now, since};
use crate::turn::tally::Raced;
use crate::words::{count, is_timed, lacks_memory};
use anyhow::bail;
use ct_base::NoMemory;
use std::io;
use std::io::Print;
use std::sync::Wait;
use std::thread::Threads;
use std::time::{Clock, Duration};

/// The greatest number of workers of a race.
const MOST_WORKERS: u32 = 64;

/// What the workers race for.
#[derive(Clone, Copy)]
enum Lock {
    Turn,
    Mutex,
}

impl Lock {
    /// Returns the lock of this name.
    fn of(name: &str) -> Option<Lock> {
        match name {
            "turn" => Some(Lock::Turn),
            "mutex" => Some(Lock::Mutex),
            _ => None,
        }
    }
}

/// What the words ask for.
#[derive(Clone, Copy)]
struct Asked {
    lock: Lock,
    workers: u32,
    /// How often each worker takes the state.
    takes: u64,
    /// Whether the times are printed too.
    is_timed: bool,
}

/// Lets the workers race that the words ask for.
pub fn measure<R: Threads + Wait + Clock + Sync + AllocGlobal + Print>(
    rt: &R,
    words: &[String],
) -> anyhow::Result<()> {
    let asked = asked_by(words)?;
    let start = now(rt);
    let raced = race(rt, asked);
    let whole = since(rt, start);
    show(rt, &raced.map_err(lacks_memory)?, whole, asked.is_timed)?;
    Ok(())
}

/// Returns what these words ask for.
fn asked_by(words: &[String]) -> anyhow::Result<Asked>
    ensures { IfOk result (λ asked. 1 ≤ asked.workers) }
{
    let [lock, workers, takes, shown] = words else {
        bail!("measure turn wants four words: turn|mutex WORKERS TAKES times|counts");
    };
    let workers = count(workers);
    if workers == 0 || workers > MOST_WORKERS {
        bail!("the number of workers is from 1 to {MOST_WORKERS}");
    }
    let Some(lock) = Lock::of(lock.as_str()) else {
        bail!("the lock is turn or mutex");
    };
    Ok(Asked {
        lock,
        workers,
        takes: u64::from(count(takes) / workers),
        is_timed: is_timed(shown),
    })
}

/// Lets the workers race as they are asked to.
fn race<R: Threads + Wait + Clock + Sync + AllocGlobal>(
    rt: &R,
    asked: Asked,
) -> Result<Raced, NoMemory>
    requires { 1 ≤ asked.workers }
{
    match asked.lock {
        Lock::Turn => turns::race(rt, rt.alloc(), asked.workers, asked.takes),
        Lock::Mutex => locks::race(rt, rt.alloc(), asked.workers, asked.takes),
    }
}

/// Prints the counts, and the times where these are asked for.
fn show(rt: &impl Print, raced: &Raced, whole: Duration, is_timed: bool) -> io::Result<()> {
    println!(rt; "{} takes", raced.tally.takes)?;
    if is_timed {
        println!(rt; "whole {} ns", whole.as_nanos())?;
        for time in raced.times.as_slice() {
            println!(rt; "worker {} ns", time.as_nanos())?;
        }
    }
    Ok(())
}
