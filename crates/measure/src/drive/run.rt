//! A run of the core alone. An attempt lasts until no worker finds more to do,
//! and the oldest attempt ends first.

ghost use Rattle.std.specs.Prelude.{◌≡◌, ◌==◌, ◌<◌, IfOk, length};
ghost use Rattle.std.specs.List.{list_any};
ghost use Rattle.ct_core.specs.Ticket.{worker_of};
ghost use Rattle.measure.specs.Held.{HoldsOpen, is_held_by};

use crate::drive::kind::Kind;
use crate::drive::tally::Tally;
use ct_base::NoMemory;
use ct_core::{Core, Next, Ticket};
use ct_history::Plan;
use ct_verdict::Seen;
use std::alloc::Global;

/// A run in progress: its core, and the tickets that are to be finished, the oldest first.
pub struct Run {
    core: Core,
    tickets: Vec<Ticket>,
    kind: Kind,
    level: u32,
    tally: Tally,
}

/// What a step leaves to do.
#[derive(Drop)]
enum Step {
    /// There is more to do.
    More,
    /// There is nothing to do before an attempt ends.
    Waits,
    /// Every test is final.
    Nothing,
    LacksMemory,
}

impl Run {
    /// Opens a run of the plan, whose tests are of this kind.
    pub fn open(alloc: Global, plan: Plan, kind: Kind) -> Result<Run, NoMemory>
        ensures { IfOk result HoldsOpen }
    {
        let level = plan.parts().level;
        match Core::open(alloc, plan) {
            Ok(core) => Ok(Run {
                core,
                tickets: Vec::new(alloc),
                kind,
                level,
                tally: Tally::new(),
            }),
            Err(_plan) => Err(NoMemory),
        }
    }

    /// Runs the `count` tests to their end.
    pub fn drive(mut self, count: u32) -> Result<Tally, NoMemory>
        requires { HoldsOpen self }
    {
        let gone = self.go(u64::from(count) * 3 + 1);
        let tally = self.close();
        gone?;
        Ok(tally)
    }

    /// Goes on until every test is final, for at most `steps` steps.
    fn go(&mut self, steps: u64) -> Result<(), NoMemory>
        requires { HoldsOpen self.old }
        ensures { HoldsOpen self.new }
    {
        for _ in 0..steps {
            match self.step() {
                Step::More | Step::Waits => {}
                Step::Nothing => return Ok(()),
                Step::LacksMemory => return Err(NoMemory),
            }
        }
        Ok(())
    }

    /// Asks each free worker what it has to do. Where all have to wait, ends the oldest attempt.
    fn step(&mut self) -> Step
        requires { HoldsOpen self.old }
        ensures { HoldsOpen self.new }
    {
        let mut all_wait = true;
        for worker in 0..self.level {
            match self.ask(worker) {
                Step::More => all_wait = false,
                Step::Waits => {}
                end => return end,
            }
        }
        if all_wait {
            self.end_oldest()
        } else {
            Step::More
        }
    }

    /// Does what a worker has to do, if the worker is free.
    fn ask(&mut self, worker: u32) -> Step
        requires { HoldsOpen self.old }
        ensures { HoldsOpen self.new }
    {
        if holds_one(self.tickets.as_slice(), worker) {
            return Step::Waits;
        }
        match self.tickets.reserve(1) {
            Ok(()) => {}
            Err(_) => return Step::LacksMemory,
        }
        match self.core.next(worker) {
            Next::Start(ticket) => {
                self.tickets.push_reserved(ticket);
                self.tally.start();
                Step::More
            }
            Next::Settled(_) => Step::More,
            Next::Wait => Step::Waits,
            Next::Done => Step::Nothing,
            Next::Aborted | Next::NoMemory => Step::LacksMemory,
        }
    }

    /// Ends the oldest attempt, if one is open.
    fn end_oldest(&mut self) -> Step
        requires { HoldsOpen self.old }
        ensures held { HoldsOpen self.new }
        ensures fewer { 0 < length self.old.tickets.items →
            length self.new.tickets.items < length self.old.tickets.items }
    {
        if self.tickets.is_empty() {
            return Step::Nothing;
        }
        let ticket = self.tickets.remove(0);
        let seen = Seen {
            how: self.kind.how(ticket.test()),
            fail_hit: false,
            pass_hit: false,
            skip_hit: false,
            micros: 0,
        };
        let verdict = self.core.finish(ticket, seen);
        self.tally.end(verdict);
        Step::More
    }

    /// Ends the open attempts, and returns what was counted.
    fn close(mut self) -> Tally
        requires { HoldsOpen self }
    {
        while !self.tickets.is_empty() {
            let _step = self.end_oldest();
        }
        let Run {
            core: _,
            tickets,
            kind: _,
            level: _,
            tally,
        } = self;
        tickets.destroy_empty();
        tally
    }
}

fn holds_one(tickets: &[Ticket], worker: u32) -> bool
    ensures { result ≡ is_held_by worker tickets.now }
{
    tickets.iter().any(|ticket| ticket.worker() == worker)
}
