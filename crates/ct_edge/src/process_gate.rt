ghost use Rattle.std.specs.Prelude.{◌≡◌, IfOk, IsSome, false};
ghost use Rattle.ct_core.specs.Gate.{HasStartCause, is_not_started};
ghost use Rattle.ct_verdict.specs.declared.attempt.How.TheVariants as Ends;
ghost use Rattle.ct_edge.specs.Heard.{HearsNothing};
ghost use Rattle.ct_edge.specs.Machine.{gate_tell};
ghost use Rattle.ct_edge.specs.Process.{has_run, how_of_run};

use crate::command::{Launch, command_of, is_beside, is_looked_up};
use crate::fault::StartFault;
use crate::limit::{Limit, micros_of};
use crate::real_files::RealFiles;
use crate::required::first_missing;
use crate::spool::Spool;
use crate::start::start;
use crate::watch::{Running, attend};
use ct_base::Ear;
use ct_core::{Ended, Gate, Request, Ticket};
use ct_turn::Pass;
use ct_verdict::How;
use std::alloc::Global;
use std::marker::Model;
use std::process::Child;
use std::time::Instant;

/// How many bytes of a program's standard error are kept in memory at most, unless its file fails.
const MOST_IN_MEMORY: usize = 1_048_576;

/// Runs the programs of tests on the machine, and waits for each.
///
/// Contracts see only how many starts and waits failed. A program has no input.
#[derive(Drop)]
pub struct ProcessGate {
    rt: HostRuntime,
    /// How many starts and waits failed. The count stops at its last value.
    faults: u64,
}

impl Model for ProcessGate {
    ghost use Rattle.std.specs.Prelude.{ℕ};

    ghost Value = { ℕ };

    ghost view = { λ gate. gate.faults };
}

impl ProcessGate {
    /// Makes the gate of which no start has failed.
    pub fn new(rt: HostRuntime) -> ProcessGate
        ensures { result ≡ 0 }
    {
        ProcessGate { rt, faults: 0 }
    }

    /// Returns how many starts and waits failed.
    pub fn faults(&self) -> u64
        ensures { result ≡ self.now }
    {
        self.faults
    }

    /// Runs the program, and measures the time that it took; 0 if the clock failed.
    pub fn attempt<E: Ear>(&mut self, alloc: Global, request: &Request, ear: &mut E) -> Ended
        ensures cause { HasStartCause self.old self.new result.how }
        ensures unlimited { result.how ≡ Ends.TimedOut → IsSome request.now.limit }
        ensures kept { E.kept ear.new ≡ E.kept ear.old }
    {
        let began = Instant::now(&self.rt);
        let outcome = run_program(self.rt, alloc, request, ear);
        let passed = began.and_then(|began| began.elapsed(&self.rt));
        Ended {
            how: self.count(outcome),
            micros: passed.map_or(0, micros_of),
        }
    }

    /// Counts a start or a wait that failed, and returns how the attempt ended.
    fn count(&mut self, outcome: Result<How, StartFault>) -> How
        requires { IfOk outcome (λ how. is_not_started how ≡ false) }
        ensures how { result ≡ how_of_run outcome }
        ensures cause { HasStartCause self.old self.new result }
    {
        match outcome {
            Ok(how) => how,
            Err(StartFault::NoMemory) => How::NoMemory,
            Err(StartFault::Failed) => {
                self.faults = self.faults.saturating_add(1);
                How::NotStarted
            }
        }
    }
}

impl Gate for ProcessGate {
    ghost tells = { gate_tell };

    fn run<E: Ear>(
        &mut self,
        alloc: Global,
        _pass: &Pass,
        _ticket: &Ticket,
        request: &Request,
        ear: &mut E,
    ) -> Ended {
        self.attempt(alloc, request, ear)
    }
}

/// Runs the program of a request to its end, and hands what it writes to
/// the ear. If a required file is missing, the program is not started.
fn run_program<E: Ear>(
    rt: HostRuntime,
    alloc: Global,
    request: &Request,
    ear: &mut E,
) -> Result<How, StartFault>
    ensures started { IfOk result (λ how. is_not_started how ≡ false) }
    ensures unheard { IfOk result (λ how. has_run how ≡ false → HearsNothing (E.stands_for ear.old) (E.stands_for ear.new)) }
    ensures unlimited { IfOk result (λ how. how ≡ Ends.TimedOut → IsSome request.now.limit) }
    ensures kept { E.kept ear.new ≡ E.kept ear.old }
{
    let required = request.required.as_slice();
    if let Some(place) = first_missing(alloc, &mut RealFiles::new(rt), required)? {
        return Ok(How::Lacks(u32::try_from(place).unwrap_or(u32::MAX)));
    }
    let (child, limit) = launch(rt, alloc, request)?;
    let mut kept = Spool::new(rt, alloc, MOST_IN_MEMORY);
    attend(&rt, &limit, &mut Running::of(child)?, ear, &mut kept)
}

/// Starts the program of a request. A file that is no program by its format is a script of the shell.
///
/// Source: POSIX, exec, as `execvp` does it. A program that is looked up in PATH is no script.
fn launch(rt: HostRuntime, alloc: Global, request: &Request) -> Result<(Child, Limit), StartFault>
    ensures { IfOk result (λ started. started.1 ≡ request.now.limit) }
{
    let beside = is_beside(&rt, alloc, request)?;
    let program = command_of(alloc, request, beside, Launch::Program)?;
    if let Some(started) = start(rt, program, request.limit)? {
        return Ok(started);
    }
    if is_looked_up(request, beside) {
        return Err(StartFault::Failed);
    }
    let script = command_of(alloc, request, beside, Launch::Script)?;
    start(rt, script, request.limit)?.ok_or(StartFault::Failed)
}
