//! Whole runs of tests that have to run at the same time.

ghost use Rattle.std.specs.Prelude.{None, Some};

use crate::calls::{Machine, expect, run_on};
use ct_base::{Ear, MemSink, NoMemory};
use ct_core::{Ended, Gate, Request, Ticket};
use ct_turn::Pass;
use ct_verdict::How;
use std::alloc::Global;
use std::hint::spin_loop;
use std::sync::atomic::{AtomicBool, Ordering};
use std::test::Fail;
use tests_calls::{CallRow, calls_of, written};

/// Runs of tests that pass only if all of them run at the same time.
const MEETINGS: &str = "
row two tests on two gates
file ./CTestTestfile.cmake
    add_test(a p)
    add_test(b p)
call ctest -j 2
want summary
    100% tests passed, 0 tests failed out of 2
row four tests on four gates
file ./CTestTestfile.cmake
    add_test(a p)
    add_test(b p)
    add_test(c p)
    add_test(d p)
call ctest -j 4
want summary
    100% tests passed, 0 tests failed out of 4
";

/// How often a gate checks whether the others were asked.
const TURNS: u32 = 10_000_000;

/// A gate whose program exits with 0 only if all gates are asked while it waits. Its `tells` is
/// empty.
#[derive(Drop)]
struct Meeting<'a> {
    /// For each gate, whether it was asked.
    asked: &'a [AtomicBool],
    /// The place of this gate.
    place: usize,
}

impl Meeting<'_> {
    /// Returns whether all gates are asked while this gate waits.
    fn is_met(&self) -> bool {
        if let Some(own) = self.asked.get(self.place) {
            own.store(true, Ordering::SeqCst);
        }
        for _ in 0..TURNS {
            if self.asked.iter().all(|asked| asked.load(Ordering::SeqCst)) {
                return true;
            }
            spin_loop();
        }
        false
    }
}

impl Gate for Meeting<'_> {
    ghost tells = { λ gate. record {
      who = Some gate.place;
      world = None;
      asked = None;
      sent = None;
      lent = None;
      faults = 0;
    } };

    fn run<E: Ear>(
        &mut self,
        _alloc: Global,
        _pass: &Pass,
        _ticket: &Ticket,
        _request: &Request,
        _ear: &mut E,
    ) -> Ended {
        Ended {
            how: How::Exited(if self.is_met() { 0 } else { 1 }),
            micros: 0,
        }
    }
}

/// Makes `count` flags that are not set.
fn flags(alloc: Global, count: usize) -> Result<Vec<AtomicBool>, NoMemory> {
    let mut flags = Vec::new(alloc);
    for _ in 0..count {
        flags.push(AtomicBool::new(false))?;
    }
    Ok(flags)
}

/// Makes a gate for each flag.
fn meetings<'a>(alloc: Global, asked: &'a [AtomicBool]) -> Result<Vec<Meeting<'a>>, NoMemory> {
    let mut gates = Vec::new(alloc);
    for place in 0..asked.len() {
        gates.push(Meeting { asked, place })?;
    }
    Ok(gates)
}

/// Runs on gates that pass a test only if all of them are asked at the same time, and returns the summary of
/// a run with status 0.
fn summary(rt: &impl Machine, call: &CallRow<'_>) -> Result<String, Fail> {
    let flags = flags(rt.alloc(), call.gates())?;
    let gates = meetings(rt.alloc(), flags.as_slice())?;
    assert!(rt; !gates.is_empty(), "{call}");
    let ran = run_on(rt, call, gates)?;
    assert_eq!(rt; ran.status, 0, "{call}");
    let summary = summed_up(rt.alloc(), &ran.sink);
    drop(ran);
    Ok(summary?)
}

/// Copies what stands behind the first empty line.
fn summed_up(alloc: Global, sink: &MemSink) -> Result<String, NoMemory> {
    let (_, summary) = written(sink).split_once("\n\n").unwrap_or(("", ""));
    Ok(String::from_str(alloc, summary)?)
}

#[test]
fn works_on_each_gate_at_once(rt: HostRuntime) -> Result<(), Fail> {
    for call in &calls_of(rt.alloc(), MEETINGS)? {
        expect(rt.alloc(), call, summary(&rt, call)?.as_str())?;
    }
    Ok(())
}
