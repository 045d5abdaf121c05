//! Whole runs of programs that write much.

ghost use Rattle.std.specs.Prelude.{◌≡◌, None};

use crate::calls::{Machine, expect, happened, name_of, run_on};
use ct_app::Finished;
use ct_base::{Ear, MemFiles, MemSink};
use ct_core::{Ended, Gate, Request, Ticket};
use ct_turn::Pass;
use ct_verdict::How;
use std::alloc::{AllocError, Global};
use std::test::Fail;
use tests_calls::{CallRow, calls_of, written};

/// A run of a test that writes 64 MiB of `x` and then `done`, the last word in two pieces.
const ENDS: &str = "
row a pattern at the end
file ./CTestTestfile.cmake
    add_test(t p)
    set_tests_properties(t PROPERTIES PASS_REGULAR_EXPRESSION \"done$\")
call ctest
want told
    Completed, status 0
    Start 1/1
    End 1/1
    Test project .
    1/1 Test #1: t ... Passed 0.00 sec

    100% tests passed, 0 tests failed out of 1
";

/// A run of the same test with another pattern.
const BEGINS: &str = "
row a pattern at the beginning
file ./CTestTestfile.cmake
    add_test(t p)
    set_tests_properties(t PROPERTIES PASS_REGULAR_EXPRESSION \"^done\")
call ctest
want told
    Completed, status 8
    Start 1/1
    End 1/1
    Test project .
    1/1 Test #1: t ... ***Failed 0.00 sec

    0% tests passed, 1 tests failed out of 1

    The following tests FAILED:
    \t1 - t (Failed)
    Errors while running CTest
";

/// A run of the same test with a third pattern.
const ACROSS: &str = "
row a pattern across two pieces
file ./CTestTestfile.cmake
    add_test(t p)
    set_tests_properties(t PROPERTIES FAIL_REGULAR_EXPRESSION \"xdo\")
call ctest
want told
    Completed, status 8
    Start 1/1
    End 1/1
    Test project .
    1/1 Test #1: t ... ***Failed 0.00 sec

    0% tests passed, 1 tests failed out of 1

    The following tests FAILED:
    \t1 - t (Failed)
    Errors while running CTest
";

/// A run with one test, which writes `done` in two pieces.
const HALVES: &str = "
row a pattern of the whole output
file ./CTestTestfile.cmake
    add_test(t p)
    set_tests_properties(t PROPERTIES PASS_REGULAR_EXPRESSION \"^done$\")
call ctest
want told
    Completed, status 0
    Start 1/1
    End 1/1
    Test project .
    1/1 Test #1: t ... Passed 0.00 sec

    100% tests passed, 0 tests failed out of 1
";

/// How many bytes a piece of a program's output has, and how many pieces of `x` come.
const PIECE: usize = 65_536;

const PIECES: u32 = 1024;

/// A gate whose programs write this many pieces of `x`, then `do`, then `ne`. Its `tells` is empty.
#[derive(Drop)]
struct Writes {
    pieces: u32,
}

impl Gate for Writes {
    ghost tells = { λ _. record {
      who = None;
      world = None;
      asked = None;
      sent = None;
      lent = None;
      faults = 0;
    } };

    fn run<E: Ear>(
        &mut self,
        _alloc: Global,
        _pass: &Pass,
        _ticket: &Ticket,
        _request: &Request,
        ear: &mut E,
    ) -> Ended {
        hear_pieces(ear, self.pieces);
        ear.hear(b"do");
        ear.hear(b"ne");
        Ended {
            how: How::Exited(0),
            micros: 0,
        }
    }
}

fn hear_pieces<E: Ear>(ear: &mut E, count: u32)
    ensures { E.kept ear.new ≡ E.kept ear.old }
{
    let piece = [b'x'; PIECE];
    for _ in 0..count {
        ear.hear(&piece);
    }
}

/// Runs on this gate, and reports how the run came out, what happened and what was written.
fn report(rt: &impl Machine, call: &CallRow<'_>, gate: Writes) -> Result<String, Fail> {
    let mut gates = Vec::new(rt.alloc());
    gates.push(gate).map_err(AllocError::from)?;
    let ran = run_on(rt, call, gates)?;
    let told = told(rt.alloc(), &ran);
    drop(ran);
    told
}

/// Tells how a run came out, what happened and what was written.
fn told(alloc: Global, ran: &Finished<MemFiles, Writes, MemSink>) -> Result<String, Fail> {
    let happened = happened(alloc, ran.history.as_ref())?;
    let name = name_of(&ran.outcome);
    let text = written(&ran.sink);
    Ok(format!(in alloc; "{name}, status {}\n{happened}{text}", ran.status)?)
}

/// Compares the reports of the calls of a table, whose programs write this many pieces of `x` first.
fn writes_as_told(rt: &impl Machine, table: &str, pieces: u32) -> Result<(), Fail> {
    for call in &calls_of(rt.alloc(), table)? {
        expect(
            rt.alloc(),
            call,
            report(rt, call, Writes { pieces })?.as_str(),
        )?;
    }
    Ok(())
}

#[test]
fn finds_a_pattern_at_the_end_of_much(rt: HostRuntime) -> Result<(), Fail> {
    writes_as_told(&rt, ENDS, PIECES)
}

#[test]
fn finds_no_beginning_behind_much(rt: HostRuntime) -> Result<(), Fail> {
    writes_as_told(&rt, BEGINS, PIECES)
}

#[test]
fn finds_a_pattern_across_pieces_behind_much(rt: HostRuntime) -> Result<(), Fail> {
    writes_as_told(&rt, ACROSS, PIECES)
}

#[test]
fn finds_a_pattern_of_all_that_comes_in_two_pieces(rt: HostRuntime) -> Result<(), Fail> {
    writes_as_told(&rt, HALVES, 0)
}
