//! Programs of the machine, run through gates: how they end, what they write, and what is left of them.

use crate::rows::{asked_and_wanted, expect, request, text};
use ct_base::{Collect, Name, NoMemory, Sink};
use ct_core::{Gate, Request};
use ct_edge::{ProcessGate, RealSink};
use ct_verdict::How;
use std::alloc::Global;
use std::fs;
use std::process::Abort;
use std::test::Fail;
use std::time::Instant;

/// A fifth of a second.
const SHORT: Option<u64> = Some(200_000);

/// Programs, and how each ends, the faults of its gate, and what is heard.
const RUNS: &str = "\
/ /bin/true is Exited(0) 0 []
/ /bin/false is Exited(1) 0 []
/ bin/true is Exited(0) 0 []
/ sh -c exit\t7 is Exited(7) 0 []
/ sh -c printf\tcut;kill\t-9\t$$ is Signalled 0 [cut]
/dev sh -c printf\t$A:$HOME:$PWD is Exited(0) 0 [b::/dev]
/ sh -c printf\tsecond\t>&2;printf\tfirst is Exited(0) 0 [firstsecond]
/ sh -c cat;printf\tend is Exited(0) 0 [end]
/ sh -c (sleep\t0.1;printf\tlate)&\tprintf\tearly is Exited(0) 0 [earlylate]
/ sh -c exec\t>&-\t2>&-;sleep\t0.1;exit\t4 is Exited(4) 0 []
/ sh -c printf\t%s,\t$(ls\t/proc/self/fd) is Exited(0) 0 [0,1,2,3,]
/ /no/such/program is NotStarted 1 []
/ no-such-program is NotStarted 1 []
/bin dir/true is NotStarted 1 []
/no/such/folder /bin/true is NotStarted 1 []
/no/such/folder true is NotStarted 1 []
/bin/sh true is NotStarted 1 []
 true is NotStarted 1 []
/  is NotStarted 1 []
/ true needs /bin/sh,/ is Exited(0) 0 []
/ true needs /bin/sh,/no/such/file,/none is Lacks(1) 0 []
/ true needs /bin/sh/below is Lacks(0) 0 []
";

/// Programs that run into a limit of a fifth of a second, except the last.
const LIMITS: &str = "\
/ sleep 20 is TimedOut 0 []
/ sh -c printf\tout;printf\terror\t>&2;exec\tsleep\t20 is TimedOut 0 [outerror]
/ sh -c sleep\t20;true is TimedOut 0 []
/ sh -c sleep\t20\t&\tprintf\tout is TimedOut 0 [out]
/ sh -c exec\t>&-\t2>&-;exec\tsleep\t20 is TimedOut 0 []
/ sh -c trap\t''\tTERM;sleep\t20 is TimedOut 0 []
/ true is Exited(0) 0 []
";

/// Programs that stop this process while it waits for them, and let it go on.
const STOPS: &str = "\
/ sh -c kill\t-STOP\t$PPID;sleep\t0.1;kill\t-CONT\t$PPID;printf\ton is Exited(0) 0 [on]
/ sh -c exec\t>&-\t2>&-;kill\t-STOP\t$PPID;sleep\t0.1;kill\t-CONT\t$PPID;exit\t3 is Exited(3) 0 []
";

/// Writes 64 KiB of NUL to the one output and 64 KiB of spaces to the other, in turns.
const TURNS: &str = "\
/ sh -c e=$(printf\t%65536s);i=0;while\t[\t$i\t-lt\t160\t];do\thead\t-c\t65536\t/dev/zero;\
printf\t%s\t\"$e\"\t>&2;i=$((i+1));done";

const OF_EACH: usize = 160 * 65_536;

/// Programs that print their process number, if the system knows it, and run on, except the last.
const NUMBERS: &str = "\
/ sh -c test\t-d\t/proc/$$&&echo\t$$;exec\tsleep\t20
/ sh -c test\t-d\t/proc/$$&&echo\t$$;exec\t>&-\t2>&-;exec\tsleep\t20
/ sh -c test\t-d\t/proc/$$&&echo\t$$;while\t:;do\t:;done
/ sh -c test\t-d\t/proc/$$&&echo\t$$
";

/// Runs the program of each row, and fails at the first row with another result than it tells.
fn are_told(rt: HostRuntime, rows: &str, limit: Option<u64>) -> Result<(), Fail> {
    for row in rows.lines() {
        is_row_told(rt, row, limit)?;
    }
    Ok(())
}

fn is_row_told(rt: HostRuntime, row: &str, limit: Option<u64>) -> Result<(), Fail> {
    let (asked, want) = asked_and_wanted(row);
    let request = request(rt.alloc(), asked, limit)?;
    is_told(rt, &request, asked, want)
}

fn is_told(rt: HostRuntime, request: &Request, asked: &str, want: &str) -> Result<(), Fail> {
    let told = told(rt, request)?;
    expect(asked, told.as_str(), want)
}

/// Returns how a program ended, the faults of its gate, and what was heard.
fn told(rt: HostRuntime, request: &Request) -> Result<String, NoMemory> {
    let mut gate = ProcessGate::new(rt);
    let mut ear = Collect::new(rt.alloc());
    let how = gate.attempt(rt.alloc(), request, &mut ear).how;
    told_with(rt.alloc(), how, gate.faults(), &ear)
}

fn told_with(alloc: Global, how: How, faults: u64, ear: &Collect) -> Result<String, NoMemory> {
    let heard = text(ear.heard());
    Ok(format!(in alloc; "{how:?} {faults} [{heard}]")?)
}

#[test]
fn tells_how_each_program_ended_and_what_it_wrote(rt: HostRuntime) -> Result<(), Fail> {
    are_told(rt, RUNS, None)
}

#[test]
fn stops_a_program_at_its_limit_whatever_holds_its_outputs(rt: HostRuntime) -> Result<(), Fail> {
    let began = Instant::now(&rt)?;
    are_told(rt, LIMITS, SHORT)?;
    let passed = began.elapsed(&rt)?.as_micros();
    assert!(rt; passed >= 1_200_000 && passed < 19_000_000, "{passed}");
    Ok(())
}

#[test]
fn goes_on_behind_a_stop_of_its_own(rt: HostRuntime) -> Result<(), Fail> {
    are_told(rt, STOPS, None)?;
    are_told(rt, STOPS, Some(20_000_000))
}

#[test]
fn starts_no_program_whose_name_is_no_text(rt: HostRuntime) -> Result<(), Fail> {
    let mut request = request(rt.alloc(), "/ /bin/true", None)?;
    request.command.push(Name::of(rt.alloc(), b"\xff")?)?;
    is_told(rt, &request, "no text", "NotStarted 1 []")
}

#[test]
fn hears_all_of_both_outputs_that_come_in_turns(rt: HostRuntime) -> Result<(), Fail> {
    let request = request(rt.alloc(), TURNS, None)?;
    let mut ear = Collect::new(rt.alloc());
    let ended = ProcessGate::new(rt).attempt(rt.alloc(), &request, &mut ear);
    assert_eq!(rt; ended.how, How::Exited(0));
    are_all_heard(&rt, ear.heard().bytes());
    Ok(())
}

fn are_all_heard(rt: &impl Abort, heard: &[u8]) {
    assert_eq!(rt; heard.len(), 2 * OF_EACH);
    let (output, errors) = heard.split_at(OF_EACH);
    assert!(rt; output.iter().all(|byte| *byte == 0));
    assert!(rt; errors.iter().all(|byte| *byte == b' '));
}

/// Returns where the system tells of the process that has run for a row of `NUMBERS`.
fn process_of(rt: HostRuntime, asked: &str) -> Result<String, Fail> {
    let request = request(rt.alloc(), asked, SHORT)?;
    let mut ear = Collect::new(rt.alloc());
    let _ended = ProcessGate::new(rt).attempt(rt.alloc(), &request, &mut ear);
    folder_of(rt.alloc(), text(ear.heard()))
}

fn folder_of(alloc: Global, heard: &str) -> Result<String, Fail> {
    let number = heard.trim_end().parse::<u32>()?;
    Ok(format!(in alloc; "/proc/{number}")?)
}

#[test]
fn leaves_no_process_behind(rt: HostRuntime) -> Result<(), Fail> {
    for asked in NUMBERS.lines() {
        let process = process_of(rt, asked)?;
        assert!(rt; !fs::exists(&rt, process.as_str())?, "{asked}");
    }
    Ok(())
}

/// Takes what the workers of a run are given.
fn hand_over<G: Gate + Send + Drop, S: Sink + Send + Drop>(_gate: G, _sink: S) {}

#[test]
fn a_gate_and_the_output_go_to_workers(rt: HostRuntime) {
    hand_over(ProcessGate::new(rt), RealSink::new(rt.stdout()));
}
