//! How long programs of the machine run, and what a wait for them costs.

use crate::rows::{cell, limit, number, request};
use ct_base::{Collect, NoMemory};
use ct_edge::ProcessGate;
use std::alloc::Global;
use std::test::Fail;
use std::time::{CpuClock, Duration};
use std::{fs, thread};

/// Limits and the bounds of the time that is told, in microseconds, and programs.
const TIMES: &str = "\
none 100000 50000000 / sleep 0.1
300000 300000 1000000 / sleep 20
300000 300000 1000000 / sh -c while\t:;do\techo\tx;done
300000 300000 1000000 / sh -c while\t:;do\techo\tx\t>&2;done
";

/// The limit of a program that makes a file after a second, in microseconds, and
/// whether the file is there in the end.
const MARKS: &str = "\
200000 false
none true
";

/// The program that makes a file after a second.
const MARK: &str = ". sh -c sleep\t1;echo\t>mark";

/// Limits in microseconds, and programs that close an output or both and run on for a second.
const CLOSED: &str = "\
none / sh -c exec\t>&-\t2>&-;exec\tsleep\t1
20000000 / sh -c exec\t>&-\t2>&-;exec\tsleep\t1
20000000 / sh -c exec\t>&-;exec\tsleep\t1
20000000 / sh -c exec\t2>&-;exec\tsleep\t1
";

/// Returns the time that a run takes on this gate, in microseconds.
pub(crate) fn time_on(
    gate: &mut ProcessGate,
    alloc: Global,
    asked: &str,
    limit: Option<u64>,
) -> Result<u64, NoMemory> {
    let request = request(alloc, asked, limit)?;
    let mut ear = Collect::new(alloc);
    Ok(gate.attempt(alloc, &request, &mut ear).micros)
}

/// Returns the time that a run takes, in microseconds.
fn time_of(rt: HostRuntime, asked: &str, limit: Option<u64>) -> Result<u64, NoMemory> {
    time_on(&mut ProcessGate::new(rt), rt.alloc(), asked, limit)
}

/// Returns the shortest time of three runs, in microseconds.
fn shortest_of(rt: HostRuntime, asked: &str, limit: Option<u64>) -> Result<u64, NoMemory> {
    let mut shortest = u64::MAX;
    for _ in 0..3 {
        shortest = shortest.min(time_of(rt, asked, limit)?);
    }
    Ok(shortest)
}

/// A busy machine may be late, but hardly three times.
#[test]
fn tells_the_time_of_a_run_and_keeps_its_limit(rt: HostRuntime) -> Result<(), Fail> {
    for row in TIMES.lines() {
        let (micros, bounds) = cell(row);
        let (least, rest) = cell(bounds);
        let (most, asked) = cell(rest);
        let time = shortest_of(rt, asked, limit(micros))?;
        assert!(rt;
            time >= number(least) && time < number(most),
            "{row}: {time}"
        );
    }
    Ok(())
}

#[test]
fn a_program_that_was_stopped_does_no_more(rt: HostRuntime) -> Result<(), Fail> {
    for row in MARKS.lines() {
        let (micros, want) = cell(row);
        let _micros = time_of(rt, MARK, limit(micros))?;
        thread::sleep(&rt, Duration::from_millis(1_500));
        assert_eq!(rt; fs::exists(&rt, "mark")?, want == "true", "{row}");
    }
    Ok(())
}

#[test]
fn waits_without_processor_time(rt: HostRuntime) -> Result<(), Fail> {
    for row in CLOSED.lines() {
        let (micros, asked) = cell(row);
        let before = rt.process_cpu_time()?.as_micros();
        let passed = time_of(rt, asked, limit(micros))?;
        let used = rt.process_cpu_time()?.as_micros().saturating_sub(before);
        assert!(rt;
            passed >= 1_000_000 && used < 100_000,
            "{row}: {passed} {used}"
        );
    }
    Ok(())
}
