ghost use Rattle.std.specs.Prelude.{◌≡◌, IfOk, None, Some};
ghost use Rattle.ct_turn.specs.Seen.{held_start};
ghost use Rattle.ct_core.specs.Gate.{GateTell, RunsRequest, is_no_memory};
ghost use Rattle.ct_core.specs.Ticket.{attempt_of, run_of, test_of};

use crate::Ticket;
use ct_base::{Blob, Ear, List, Name, NoMemory, Pair, copy_names, copy_pairs};
use ct_turn::Pass;
use ct_verdict::How;
use std::alloc::Global;

/// What a gate is asked to run.
///
/// Source: CMake manual, cmake-properties(7), ENVIRONMENT, REQUIRED_FILES, TIMEOUT,
/// WORKING_DIRECTORY.
#[derive(Debug, Drop)]
pub struct Request {
    pub test: u32,
    /// From 1.
    pub attempt: u32,
    pub name: Name,
    /// The program and its arguments.
    pub command: List<Name>,
    /// The folder that the program starts in.
    pub dir: Name,
    /// The whole environment of the program.
    pub env: List<Pair>,
    /// How long the program may run, in microseconds; `None` is no limit.
    pub limit: Option<u64>,
    /// The files that have to be there before the program starts.
    pub required: List<Name>,
}

impl Request {
    /// Copies the request.
    pub fn copy(&self, alloc: Global) -> Result<Request, NoMemory>
        ensures { IfOk result (λ request. request ≡ self.now) }
    {
        Ok(Request {
            test: self.test,
            attempt: self.attempt,
            name: self.name.copy(alloc)?,
            command: copy_names(alloc, self.command.as_slice())?,
            dir: self.dir.copy(alloc)?,
            env: copy_pairs(alloc, self.env.as_slice())?,
            limit: self.limit,
            required: copy_names(alloc, self.required.as_slice())?,
        })
    }
}

/// How a program ended, and how long it took.
#[derive(Clone, Copy, Debug, PartialEq, Eq)]
pub struct Ended {
    pub how: How,
    /// In microseconds.
    pub micros: u64,
}

/// Returns whether an attempt ended for want of memory.
pub fn lacks_memory(how: How) -> bool
    ensures { result ≡ is_no_memory how }
{
    matches!(how, How::NoMemory)
}

/// One line of a world: what an attempt of a test hears, and how it ends.
#[derive(Debug, Drop)]
pub struct Told {
    pub test: u32,
    pub attempt: u32,
    pub heard: Blob,
    pub ended: Ended,
}

/// The record that a gate was asked to run an attempt of a test.
#[derive(Clone, Copy, Debug, PartialEq, Eq)]
pub struct Asked {
    pub test: u32,
    pub attempt: u32,
}

/// What runs the programs of tests.
///
/// `tells` has which gate it is, what each attempt comes to, the attempts and requests that were run
/// so far, and the passes that were lent for them, each if the gate tells it. It also has how many
/// starts and waits failed, a count that never falls.
pub trait Gate {
    ghost tells: { Self → GateTell };

    /// Runs the program of a request, and lets the ear hear its output. It may wait for the program.
    ///
    /// Meanwhile the worker lends its pass. The pass does not have the turn, and holds the start of
    /// the ticket: in all that it has seen of the run, the attempt has begun and has not ended.
    fn run<E: Ear>(
        &mut self,
        alloc: Global,
        pass: &Pass,
        ticket: &Ticket,
        request: &Request,
        ear: &mut E,
    ) -> Ended
        requires away { pass.now.taken ≡ None }
        requires holds { held_start pass.now.known ≡ Some (run_of ticket.now) }
        requires test { request.now.test ≡ test_of ticket.now }
        requires attempt { request.now.attempt ≡ attempt_of ticket.now }
        ensures runs { RunsRequest pass.now request.now (tells self.old) (tells self.new) (E.stands_for ear.old) (E.stands_for ear.new) result }
        ensures kept { E.kept ear.new ≡ E.kept ear.old };
}
