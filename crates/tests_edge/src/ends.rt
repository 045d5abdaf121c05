//! Programs of which a call fails, and a clock that does: how an attempt then ends, and that it stops the program.

use crate::doubles::{Drip, Dummy, NoClock};
use crate::rows::{asked_and_wanted, cell, expect, limit};
use ct_base::{Blob, Collect, NoMemory};
use ct_edge::{Limit, Running, StartFault, attend};
use ct_verdict::How;
use std::alloc::Global;
use std::fs;
use std::os::fd::{AsRawFd, RawFd};
use std::process::{Command, Stdio};
use std::rt::Clock;
use std::test::Fail;

/// The call that fails, or `read` for a read of the output, and the limit in microseconds. Then how
/// the attempt of a program ends that exits with 7 at its third look, and how often it was stopped.
const ENDS: &str = "\
none none is Exited(7) 0
none 60000000 is Exited(7) 0
none 0 is TimedOut 1
stop 60000000 is Exited(7) 0
stop 0 is a fault 1
end none is a fault 1
end 60000000 is Exited(7) 0
end 0 is a fault 1
look none is Exited(7) 0
look 60000000 is a fault 1
look 0 is TimedOut 1
read none is a fault 1
read 60000000 is a fault 1
read 0 is TimedOut 1
";

/// The same where the clock cannot be read. Without a limit it is not.
const UNTIMED: &str = "\
none none is Exited(7) 0
none 60000000 is a fault 1
stop 60000000 is a fault 1
";

/// An output at whose end a reader is at once, or that cannot be read.
fn closed(ready: RawFd, fails: bool) -> Drip {
    Drip {
        left: b"",
        good: if fails { 0 } else { 9 },
        dries: false,
        ready,
    }
}

fn ended<C: Clock>(
    alloc: Global,
    clock: &C,
    limit: &Limit,
    fails: &'static str,
    ready: RawFd,
) -> Result<String, NoMemory> {
    let mut program = Running {
        child: Dummy::failing(fails),
        output: closed(ready, fails == "read"),
        errors: closed(ready, false),
    };
    let outcome = attend(
        clock,
        limit,
        &mut program,
        &mut Collect::new(alloc),
        &mut Blob::new(alloc),
    );
    told_of(alloc, outcome, program.child.stops)
}

fn told_of(alloc: Global, ended: Result<How, StartFault>, stops: u64) -> Result<String, NoMemory> {
    match ended {
        Ok(how) => Ok(format!(in alloc; "{how:?} {stops}")?),
        Err(StartFault::Failed) => Ok(format!(in alloc; "a fault {stops}")?),
        Err(StartFault::NoMemory) => Ok(format!(in alloc; "no memory {stops}")?),
    }
}

fn are_ended<C: Clock>(rt: HostRuntime, clock: &C, rows: &'static str) -> Result<(), Fail> {
    let file = fs::File::open(&rt, "/dev/null")?;
    for row in rows.lines() {
        let (asked, want) = asked_and_wanted(row);
        let (fails, micros) = cell(asked);
        let limit = Limit::from_now(&rt, limit(micros))?;
        let told = ended(rt.alloc(), clock, &limit, fails, file.as_raw_fd())?;
        expect(row, told.as_str(), want)?;
    }
    Ok(())
}

#[test]
fn tells_how_a_program_ends_and_stops_it_at_each_fault(rt: HostRuntime) -> Result<(), Fail> {
    are_ended(rt, &rt, ENDS)
}

#[test]
fn stops_a_program_whose_limit_cannot_be_kept(rt: HostRuntime) -> Result<(), Fail> {
    are_ended(rt, &NoClock, UNTIMED)
}

#[test]
fn takes_no_program_without_pipes(rt: HostRuntime) -> Result<(), Fail> {
    let mut command = Command::new(rt.alloc(), "sleep")?;
    command.arg("20")?;
    command.stdout(Stdio::null());
    command.stderr(Stdio::null());
    let taken = Running::of(command.spawn(&rt)?);
    assert!(rt; taken.is_err());
    Ok(())
}
