ghost use Rattle.std.specs.Prelude.{◌≡◌, ◌||◌, [], false, true, IfErr, None, Some, is_some};
ghost use Rattle.std.specs.Option.{option_or};
ghost use Rattle.ct_worker.specs.State.{halt_of};

use crate::lines::Lines;
use ct_base::{Sink, SinkFault};
use ct_core::{Core, Next, Ticket};
use ct_history::Board;
use ct_verdict::Seen;
use std::marker::Model;
use std::snapshot::Snapshot;

/// Why a run was given up.
#[derive(Clone, Copy, Debug, PartialEq, Eq)]
pub enum Halt {
    /// The sink did not take a line.
    Output,
    /// Memory was wanting for an attempt, for a step or for a line.
    Memory,
}

/// The state of a run: its core, and the sink that the lines of its tests go to.
///
/// Contracts see the plan, the entries, why the run was given up, what
/// the sink told when the state was opened, and what it tells now.
#[derive(Drop)]
pub struct State<S: Sink> {
    core: Core,
    lines: Lines<S>,
    /// The sink as it was when the state was opened.
    opened: Snapshot<S>,
    /// Why the run was given up, by the first cause.
    halt: Option<Halt>,
}

impl<S: Sink> Model for State<S> {
    ghost use Rattle.ct_worker.specs.State.{StateValue};
    ghost use Rattle.ct_worker.specs.Kept.{IsKeptState};

    ghost Value = { StateValue };

    ghost view = { λ s. record {
      plan = s.core.plan;
      entries = s.core.entries;
      halt = s.halt;
      opened = S.tells s.opened.value;
      sink = S.tells s.lines.sink;
    } };

    ghost invariant = { λ s. IsKeptState s.core s.halt s.lines.known s.lines.count (S.tells s.opened.value) (S.tells s.lines.sink) };
}

impl<S: Sink> State<S> {
    ghost use Rattle.ct_base.specs.Outside.{Rose};
    ghost use Rattle.ct_core.specs.Ticket.{holds_ticket};
    ghost use Rattle.ct_history.specs.History.{is_busy_in};
    ghost use Rattle.ct_history.specs.Legal.{StaysWithin, is_legal};
    ghost use Rattle.ct_report.specs.PutLines.{PutsLines};
    ghost use Rattle.ct_report.specs.Report.{test_lines};
    ghost use Rattle.ct_worker.specs.declared.state.Halt.TheVariants.{Memory, Output};
    ghost use Rattle.ct_worker.specs.Gates.{had_memory};
    ghost use Rattle.ct_worker.specs.Halted.{IsHalted};
    ghost use Rattle.ct_worker.specs.State.{IsFinished, IsStateNext, core_of, given_up, opened_with, put_of};

    /// Opens the state of a run that has done nothing yet.
    pub fn open(core: Core, sink: S) -> State<S>
        requires empty { core.entries ≡ [] }
        requires going { core.aborted ≡ false }
        ensures { result ≡ opened_with core (S.tells sink) }
    {
        let opened = Snapshot::of(&sink);
        State {
            core,
            lines: Lines::new(sink),
            opened,
            halt: None,
        }
    }

    /// Returns what this worker has to do next, by the
    /// core, and puts the line of a test that was settled.
    ///
    /// If memory is wanting, or the line cannot be put, the run is given up.
    pub fn next(&mut self, worker: u32) -> Next
        requires { is_busy_in worker self.old.entries ≡ false }
        ensures step { IsStateNext self.old worker result self.new }
        ensures legal { is_legal self.new.plan self.new.entries ≡ true }
        ensures within { StaysWithin self.new.plan self.new.entries }
    {
        let next = self.core.next(worker);
        let put = self.lines.put_for(&self.core, &next);
        heed(put, &mut self.core, &mut self.halt);
        next
    }

    /// Ends the attempt of a ticket, and puts the line of its test if the test is now final.
    ///
    /// If memory was wanting for the attempt, or the line cannot
    /// be put, the run is given up. From then on no line is put.
    pub fn finish(&mut self, ticket: Ticket, seen: Seen)
        requires { holds_ticket ticket self.old.entries ≡ true }
        ensures finished { IsFinished self.old ticket seen self.new }
        ensures legal { is_legal self.new.plan self.new.entries ≡ true }
        ensures within { StaysWithin self.new.plan self.new.entries }
    {
        let test = ticket.test();
        let verdict = self.core.finish(ticket, seen);
        if self.halt.is_none() {
            let put = self.lines.put_end(&self.core, test, verdict, seen.how);
            heed(put, &mut self.core, &mut self.halt);
        }
    }

    /// Gives the run up for want of memory, unless it was given up before.
    pub(crate) fn give_up_for_memory(&mut self)
        ensures { self.new ≡ given_up Memory self.old }
    {
        give_up(Halt::Memory, &mut self.core, &mut self.halt);
    }

    /// Does nothing when it runs; its clauses say which lines of the run the sink took.
    pub(crate) fn hand_out_lines(&self)
        ensures put { PutsLines (test_lines self.now.plan self.now.entries) self.now.opened self.now.sink (put_of self.now.halt) }
        ensures halted { IfErr (put_of self.now.halt)
            (λ fault. IsHalted fault self.now.plan self.now.entries self.now.opened self.now.sink) }
    {
        let _ = &self.halt;
    }

    /// Returns why the run was given up, if it was.
    ///
    /// It was given up for its output only where the sink has counted a fault since the state was opened.
    #[tactic(auto, using(crate::proofs::StateLemmas::output_rose))]
    pub fn halt(&self) -> Option<Halt>
        ensures is { result ≡ self.now.halt }
        ensures cause { result ≡ Some Output → Rose self.now.opened.faults self.now.sink.faults }
    {
        self.halt
    }

    /// Lends the core.
    pub fn core(&self) -> &Core
        ensures { result.now ≡ core_of self.now }
    {
        &self.core
    }

    /// Returns the core and the sink.
    ///
    /// The sink took the lines of the tests that became final. If the run was given
    /// up, it took the lines in front of the halt, and no test was started or settled
    /// behind it. If the run was not given up, memory was there for each attempt.
    pub fn into_parts(self) -> (Core, S)
        ensures core { result.0 ≡ core_of self }
        ensures sink { S.tells result.1 ≡ self.sink }
        ensures put { PutsLines (test_lines self.plan self.entries) self.opened self.sink (put_of self.halt) }
        ensures halted { IfErr (put_of self.halt) (λ fault. IsHalted fault self.plan self.entries self.opened self.sink) }
        ensures memory { self.halt ≡ None → had_memory self.entries ≡ true }
    {
        let State { core, lines, .. } = self;
        (core, lines.sink)
    }
}

impl<S: Sink> Board for State<S> {
    ghost use Rattle.std.specs.Prelude.{is_some};
    ghost use Rattle.ct_worker.specs.State.{base_of};

    ghost plan = { λ s. s.plan };

    ghost history = { λ s. s.entries };

    ghost base = { λ s. base_of s };

    ghost halted = { λ s. is_some s.halt };

    fn length(&self) -> usize {
        self.core.length()
    }

    fn is_halted(&self) -> bool {
        self.halt.is_some()
    }
}

/// Gives the run up if a line could not be put, unless it was given up before.
fn heed(put: Result<(), SinkFault>, core: &mut Core, halt: &mut Option<Halt>)
    ensures core { core.new ≡ record core.old { aborted = core.old.aborted || is_some (halt_of put) } }
    ensures halt { halt.new ≡ option_or halt.old (halt_of put) }
{
    match put {
        Ok(()) => {}
        Err(SinkFault::Failed) => give_up(Halt::Output, core, halt),
        Err(SinkFault::NoMemory) => give_up(Halt::Memory, core, halt),
    }
}

/// Gives the run up for this cause, unless it was given up before.
fn give_up(cause: Halt, core: &mut Core, halt: &mut Option<Halt>)
    ensures core { core.new ≡ record core.old { aborted = true } }
    ensures halt { halt.new ≡ option_or halt.old (Some cause) }
{
    core.abort();
    if halt.is_none() {
        *halt = Some(cause);
    }
}
