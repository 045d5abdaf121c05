//! Programs of the machine that run side by side, each in a thread of its own.

use crate::times::time_on;
use ct_edge::ProcessGate;
use std::alloc::Global;
use std::test::Fail;
use std::thread::map_vec;

/// A gate, and the program that it runs in a thread of its own.
#[derive(Drop)]
struct Job {
    gate: ProcessGate,
    asked: &'static str,
}

impl Job {
    /// Returns the time of the run, in microseconds.
    fn time(mut self, alloc: Global) -> u64 {
        let asked = self.asked;
        time_on(&mut self.gate, alloc, asked, None).unwrap_or(u64::MAX)
    }
}

/// Long programs and short ones, by turns.
const BESIDE: &str = "\
/ sleep 2
/ sleep 0.3
/ sleep 2
/ sleep 0.3
/ sleep 2
/ sleep 0.3
";

fn jobs(rt: HostRuntime) -> Result<Vec<Job>, Fail> {
    let mut jobs = Vec::new(rt.alloc());
    for asked in BESIDE.lines() {
        let gate = ProcessGate::new(rt);
        jobs.push(Job { gate, asked })?;
    }
    Ok(jobs)
}

/// Returns whether the times are those of a long run and of a short one, by turns.
fn are_by_turns(times: &[u64]) -> bool {
    for (at, time) in times.iter().enumerate() {
        let is_right = if at % 2 == 0 {
            *time >= 2_000_000
        } else {
            *time < 1_700_000
        };
        if !is_right {
            return false;
        }
    }
    true
}

#[test]
fn tells_of_a_short_program_while_long_ones_run(rt: HostRuntime) -> Result<(), Fail> {
    let alloc = rt.alloc();
    let times = map_vec(&rt, jobs(rt)?, &|job: Job| job.time(alloc))?;
    assert_eq!(rt; times.len(), 6);
    assert!(rt; are_by_turns(times.as_slice()), "{times:?}");
    Ok(())
}
