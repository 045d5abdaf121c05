ghost use Rattle.std.specs.Prelude.{◌≡◌, true, false, [], IfOk, IfErr};

use crate::Ticket;
use crate::choice::{Choice, Startable};
use crate::parts::Parts;
use crate::run::Run;
use ct_base::NoMemory;
use ct_history::{Board, History, Plan};
use ct_verdict::{Cause, Seen, Verdict};
use std::alloc::Global;
use std::marker::Model;

/// What a worker has to do next.
pub enum Next {
    /// Run this attempt, and finish the ticket.
    Start(Ticket),
    /// This test got its verdict without an attempt.
    Settled(u32),
    /// Nothing can be done before an attempt ends.
    Wait,
    /// Every test is final.
    Done,
    /// The run was given up.
    Aborted,
    /// Memory was wanting for what comes next, and nothing changed.
    NoMemory,
}

/// Decides which attempt starts when, and keeps the history of the run.
///
/// Contracts see the plan, the entries and whether the run was given up. The
/// core also keeps the state of each test, so a call costs only what it changes.
#[derive(Drop)]
pub struct Core {
    run: Run,
    aborted: bool,
    /// The last answer was `Wait`, and no attempt has ended since.
    waits: bool,
}

impl Model for Core {
    ghost use Rattle.ct_core.specs.CoreValue.{CoreValue};
    ghost use Rattle.ct_core.specs.Run.{IsKeptCore};

    ghost Value = { CoreValue };

    ghost view = { λ c. record { plan = c.run.plan; entries = c.run.history.entries.items; aborted = c.aborted } };

    ghost invariant = { λ c. IsKeptCore c.run c.waits };
}

impl Core {
    ghost use Rattle.ct_core.specs.Choice.{HasProgress, IsChoice, IsLeastToSettle, IsStartable, NoneSettles};
    ghost use Rattle.ct_core.specs.Core.{IsNext, with_final};
    ghost use Rattle.ct_core.specs.CoreValue.{CoreValue};
    ghost use Rattle.ct_core.specs.Order.{FollowsQueue};
    ghost use Rattle.ct_core.specs.Ticket.{end_of, holds_ticket, test_of};
    ghost use Rattle.ct_history.specs.History.{is_busy_in};
    ghost use Rattle.ct_history.specs.Legal.{StaysWithin, is_legal};
    ghost use Rattle.ct_history.specs.Plan.{IsSound};
    ghost use Rattle.ct_history.specs.Verdicts.{verdict_of_test};

    /// Opens a run of the plan, with the empty history. It returns the plan if memory is wanting, or if the
    /// plan has more tests or resources than can be numbered.
    pub fn open(alloc: Global, plan: Plan) -> Result<Core, Plan>
        ensures ok { IfOk result (λ core. core ≡ record { plan = plan; entries = []; aborted = false }) }
        ensures err { IfErr result (λ back. back ≡ plan) }
    {
        match Parts::begin(alloc, plan.parts()) {
            Ok(parts) => Ok(Core {
                run: Run {
                    plan,
                    history: History {
                        entries: Vec::new(alloc),
                    },
                    parts,
                },
                aborted: false,
                waits: false,
            }),
            Err(NoMemory) => Err(plan),
        }
    }

    /// Lends the plan of the run.
    pub fn plan(&self) -> &Plan
        ensures { result.now ≡ self.now.plan }
    {
        &self.run.plan
    }

    /// Lends the history, which is legal, has stayed within what the plan declares, and follows its queue.
    pub fn history(&self) -> &History
        ensures is { result.now.entries.items ≡ self.now.entries }
        ensures legal { is_legal self.now.plan self.now.entries ≡ true }
        ensures within { StaysWithin self.now.plan self.now.entries }
        ensures order { FollowsQueue self.now.plan self.now.entries }
    {
        &self.run.history
    }

    /// Returns the verdict of the test with this number, if it is final,
    /// in a time that grows with the logarithm of the number of tests.
    pub fn verdict(&self, test: u32) -> Option<Verdict>
        ensures { result ≡ verdict_of_test self.now.plan self.now.entries test }
    {
        self.run.verdict(test)
    }

    /// Returns what this worker has to do next, and appends the entry of that step to the history.
    ///
    /// The answer is the first of these that holds:
    ///
    /// - The run was given up.
    /// - Every test is final.
    /// - A test may be settled: the one with the lowest number is settled.
    /// - A test may start: the first that may, in the order of the queue, is started.
    /// - Nothing can be done before an attempt ends.
    ///
    /// After `Wait` some attempt is open, and until one ends the answer is `Wait` at
    /// once. Memory can be wanting to append an entry or to look for a placement. It
    /// never is in a run that was given up, or whose tests are all final.
    pub fn next(&mut self, worker: u32) -> Next
        requires { is_busy_in worker self.old.entries ≡ false }
        ensures step { IsNext self.old worker result self.new }
        ensures progress { HasProgress self.old.plan self.old.entries }
        ensures legal { is_legal self.new.plan self.new.entries ≡ true }
        ensures within { StaysWithin self.new.plan self.new.entries }
    {
        self.hand_out_progress();
        let next = self.step(worker);
        let _ = self.history();
        next
    }

    /// Ends the attempt of a ticket, and returns the test's verdict if the test is now final.
    ///
    /// If that is the first verdict that makes the run fail, and the plan stops at one,
    /// a Stop follows directly behind the end. It takes no memory: `next` made the room.
    pub fn finish(&mut self, ticket: Ticket, seen: Seen) -> Option<Verdict>
        requires { holds_ticket ticket self.old.entries ≡ true }
        ensures appended { self.new ≡ with_final self.old (end_of ticket seen) }
        ensures verdict { result ≡ verdict_of_test self.old.plan self.new.entries (test_of ticket) }
        ensures legal { is_legal self.new.plan self.new.entries ≡ true }
        ensures within { StaysWithin self.new.plan self.new.entries }
    {
        let verdict = self.end(ticket, seen);
        let _ = self.history();
        verdict
    }

    /// Gives the run up: from now on nothing starts, and open attempts may end.
    pub fn abort(&mut self)
        ensures is { self.new ≡ record self.old { aborted = true } }
        ensures legal { is_legal self.new.plan self.new.entries ≡ true }
        ensures within { StaysWithin self.new.plan self.new.entries }
    {
        self.aborted = true;
        let _ = self.history();
    }

    /// Returns the plan and the history of the run.
    pub fn into_parts(self) -> (Plan, History)
        ensures plan { result.0 ≡ self.plan }
        ensures history { result.1.entries.items ≡ self.entries }
        ensures legal { is_legal self.plan self.entries ≡ true }
        ensures within { StaysWithin self.plan self.entries }
        ensures order { FollowsQueue self.plan self.entries }
    {
        let Run {
            plan,
            history,
            parts,
        } = self.run;
        drop(parts);
        (plan, history)
    }

    /// Does nothing when it runs; its clause says that the run never gets stuck.
    fn hand_out_progress(&self)
        ensures { HasProgress self.now.plan self.now.entries }
    {
        let _ = self.run.plan.parts();
    }

    fn step(&mut self, worker: u32) -> Next
        requires { is_busy_in worker self.old.entries ≡ false }
        ensures { IsNext self.old worker result self.new }
    {
        if self.aborted {
            return Next::Aborted;
        }
        if self.waits {
            return Next::Wait;
        }
        let alloc = *self.run.history.entries.allocator();
        match self.run.choose(alloc) {
            Ok(Choice::Done) => Next::Done,
            Ok(Choice::Settle { test, cause }) => self.settle(test, cause),
            Ok(Choice::Start(start)) => self.start(start, worker),
            Ok(Choice::Wait) => {
                self.waits = true;
                Next::Wait
            }
            Err(NoMemory) => Next::NoMemory,
        }
    }

    fn end(&mut self, ticket: Ticket, seen: Seen) -> Option<Verdict>
        requires { holds_ticket ticket self.old.entries ≡ true }
        ensures appended { self.new ≡ with_final self.old (end_of ticket seen) }
        ensures verdict { result ≡ verdict_of_test self.old.plan self.new.entries (test_of ticket) }
    {
        let Ticket {
            test,
            attempt,
            worker,
            placement: _,
        } = ticket;
        self.waits = false;
        self.run.end(test, attempt, worker, seen)
    }

    fn start(&mut self, start: Startable, worker: u32) -> Next
        requires goes_on { self.old.aborted ≡ false }
        requires free { is_busy_in worker self.old.entries ≡ false }
        requires unsettled { NoneSettles self.old.plan self.old.entries }
        requires startable { IsStartable self.old.plan self.old.entries start }
        ensures { IsNext self.old worker result self.new }
    {
        self.waits = false;
        match self.run.start(&start, worker) {
            Ok(()) => {}
            Err(NoMemory) => return Next::NoMemory,
        }
        let Startable {
            test,
            attempt,
            placement,
        } = start;
        Next::Start(Ticket {
            test,
            attempt,
            worker,
            placement,
        })
    }

    #[tactic(auto, using(crate::proofs::ChoiceLemmas::settle_takes))]
    fn settle(&mut self, test: u32, cause: Cause) -> Next
        requires goes_on { self.old.aborted ≡ false }
        requires least { IsLeastToSettle self.old.plan self.old.entries test cause }
        ensures { IsNext self.old 0 result self.new }
    {
        self.waits = false;
        match self.run.settle(test, cause) {
            Ok(()) => Next::Settled(test),
            Err(NoMemory) => Next::NoMemory,
        }
    }
}

impl Board for Core {
    ghost use Rattle.ct_core.specs.Core.{no_base};

    ghost plan = { λ c. c.plan };

    ghost history = { λ c. c.entries };

    ghost base = { λ _. no_base };

    ghost halted = { λ c. c.aborted };

    fn length(&self) -> usize {
        self.run.history.entries.len()
    }

    fn is_halted(&self) -> bool {
        self.aborted
    }
}
