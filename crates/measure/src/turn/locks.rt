ghost use Rattle.std.specs.Prelude.{◌≡◌, IfOk, vec_len};

use crate::timing::{now, since};
use crate::turn::tally::{Raced, Tally};
use ct_base::NoMemory;
use std::alloc::Global;
use std::sync::{Mutex, Wait};
use std::thread::{Threads, map_indices};
use std::time::{Clock, Duration};

/// Lets `workers` workers lock one state, each `takes` times in a thread of its own.
pub fn race<R: Threads + Wait + Clock + Sync>(
    rt: &R,
    alloc: Global,
    workers: u32,
    takes: u64,
) -> Result<Raced, NoMemory>
    ensures times { IfOk result (λ raced. vec_len raced.times ≡ workers) }
{
    let mutex = Mutex::new(Tally::new(alloc));
    let shared = &mutex;
    let times = map_indices(
        rt,
        alloc,
        workers as usize,
        &|_| lock_often(rt, shared, takes),
    )?;
    Ok(Raced {
        tally: mutex.into_inner(),
        times,
    })
}

fn lock_often<R: Wait + Clock>(rt: &R, mutex: &Mutex<Tally>, takes: u64) -> Duration {
    let start = now(rt);
    for _ in 0..takes {
        mutex.lock(rt).count();
    }
    since(rt, start)
}
