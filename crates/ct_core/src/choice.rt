ghost use Rattle.std.specs.Prelude.{◌≡◌, ◌↔◌, ◌<◌, find, length, not, slice_index, true, false, IfErr, IfOk, IsTrue, MatchOption, None, Some, if◌then◌else◌};
ghost use Rattle.ct_core.specs.Bunches.{IsBefore, IsFirstOfBunch, IsNewBunchTo, NoNewBunchTo, NoneOfBunch, has_room_at, is_open_key, key_at, test_in_queue};
ghost use Rattle.ct_core.specs.Choice.{IsChoice, IsLeastToSettle, IsStartOf, IsStartable, NoneSettles, NoneStarts, SomeIsToPlace, TakesMemory, attempt_after, may_start_if_placed_at};
ghost use Rattle.ct_core.specs.Parts.{AreCurrent};
ghost use Rattle.ct_core.specs.Run.{IsKeptRun, history_of_run};
ghost use Rattle.ct_core.specs.Waiting.{IsDue, cause_then};
ghost use Rattle.ct_history.specs.History.{has_stop};
ghost use Rattle.ct_history.specs.Plan.{IsSound, test_at};
ghost use Rattle.ct_history.specs.Rules.{CanStart, is_passed_verdict, may_start_at};
ghost use Rattle.ct_history.specs.Verdicts.{verdict_of_test};
ghost use Rattle.ct_queue.specs.Ready.{IsHead};
ghost use Rattle.ct_verdict.specs.declared.verdict.Cause.TheVariants.{Stopped};

use crate::bunches::{is_alone_at, lock_at};
use crate::lines::test_in;
use crate::run::Run;
use crate::slots::{Place, place_for};
use crate::state::State;
use ct_alloc::Placement;
use ct_base::NoMemory;
use ct_history::{PlanTest, expect_place, place_of};
use ct_verdict::Cause;
use std::alloc::Global;

/// An attempt that may start, and where its needs are met.
#[derive(Drop)]
pub(crate) struct Startable {
    pub(crate) test: u32,
    pub(crate) attempt: u32,
    pub(crate) placement: Option<Placement>,
}

/// What a run does next, by its history.
pub(crate) enum Choice {
    /// Every test is final.
    Done,
    /// This test gets its verdict without an attempt.
    Settle { test: u32, cause: Cause },
    /// This attempt starts.
    Start(Startable),
    /// Nothing can be done before an attempt ends.
    Wait,
}

impl Run {
    /// Returns the first choice that holds: all tests are
    /// final, a test may be settled, a test may start, wait.
    ///
    /// It takes memory only to look for a placement.
    pub(crate) fn choose(&self, alloc: Global) -> Result<Choice, NoMemory>
        requires { IsKeptRun self.now }
        ensures ok { IfOk result (λ choice. IsChoice self.now.plan (history_of_run self.now) choice) }
        ensures err { IfErr result (λ _. TakesMemory self.now.plan (history_of_run self.now)) }
    {
        if self.parts.unfinished == 0 {
            return Ok(Choice::Done);
        }
        if let Some((test, cause)) = self.first_to_settle() {
            return Ok(Choice::Settle { test, cause });
        }
        match self.first_to_start(alloc)? {
            Some(start) => Ok(Choice::Start(start)),
            None => Ok(Choice::Wait),
        }
    }

    /// Finds the test of the least number that may be settled, and its cause.
    fn first_to_settle(&self) -> Option<(u32, Cause)>
        requires { IsKeptRun self.now }
        ensures found { MatchOption result (NoneSettles self.now.plan (history_of_run self.now))
            (λ found. IsLeastToSettle self.now.plan (history_of_run self.now) found.0 found.1) }
        ensures sound { IsSound self.now.plan }
    {
        let tests = self.plan.parts().tests.as_slice();
        let Some(place) = self.parts.settleable.first_from(0) else {
            return None;
        };
        let test = &tests[place];
        match self.cause(test) {
            Some(cause) => Some((test.number, cause)),
            None => unreachable!(),
        }
    }

    /// Returns the cause of a test that may be settled.
    fn cause(&self, test: &PlanTest) -> Option<Cause>
        requires { AreCurrent self.now.plan (history_of_run self.now) self.now.parts }
        ensures { result ≡ (if has_stop (history_of_run self.now) then Some Stopped else cause_then self.now.plan (history_of_run self.now) test.now) }
    {
        if self.parts.stopped {
            Some(Cause::Stopped)
        } else {
            self.cause_then(test)
        }
    }

    /// Returns the cause that a test is settled with once its predecessors are final, if there is one.
    pub(crate) fn cause_then(&self, test: &PlanTest) -> Option<Cause>
        requires { AreCurrent self.now.plan (history_of_run self.now) self.now.parts }
        ensures { result ≡ cause_then self.now.plan (history_of_run self.now) test.now }
    {
        match self.first_unpassed(test.setups.as_slice()) {
            Some(setup) => Some(Cause::Fixture(setup)),
            None => test.fixed,
        }
    }

    fn first_unpassed(&self, setups: &[u32]) -> Option<u32>
        requires { AreCurrent self.now.plan (history_of_run self.now) self.now.parts }
        ensures { result ≡ find (λ s. not (is_passed_verdict (verdict_of_test self.now.plan (history_of_run self.now) s))) setups.now }
    {
        for setup in setups {
            if !self.has_passed(*setup) {
                return Some(*setup);
            }
        }
        None
    }

    fn has_passed(&self, number: u32) -> bool
        requires { AreCurrent self.now.plan (history_of_run self.now) self.now.parts }
        ensures { result ≡ is_passed_verdict (verdict_of_test self.now.plan (history_of_run self.now) number) }
    {
        match place_of(self.plan.parts().tests.as_slice(), number) {
            Some(place) => self.parts.states[place].has_passed(),
            None => false,
        }
    }

    /// Finds the first test of the queue that may start, with its placement.
    ///
    /// Of each line it tries the first ready test alone: if that test can't start, no other of the
    /// line can. Of a bunch whose lock is closed it tries only the first ready test of the first line.
    fn first_to_start(&self, alloc: Global) -> Result<Option<Startable>, NoMemory>
        requires kept { IsKeptRun self.now }
        requires unsettled { NoneSettles self.now.plan (history_of_run self.now) }
        ensures ok { IfOk result (λ found. MatchOption found (NoneStarts self.now.plan (history_of_run self.now) self.now.plan.queue)
            (λ start. IsStartable self.now.plan (history_of_run self.now) start)) }
        ensures err { IfErr result (λ _. SomeIsToPlace self.now.plan (history_of_run self.now)) }
    {
        let plan = self.plan.parts();
        if self.parts.stopped || self.parts.in_use.is_full(plan.level) {
            return Ok(None);
        }
        let queue = plan.queue.as_slice();
        let mut behind = None;
        let mut best = None;
        while let Some(first) = self.next_bunch(behind, best) {
            let found = self.next_start(alloc, queue[first as usize])?;
            if found.is_some() {
                return Ok(found);
            }
            best = self.first_of_bunch(first, best).or(best);
            behind = Some(first);
        }
        match best {
            Some(place) => Ok(Some(self.start_unplaced(queue[place as usize]))),
            None => Ok(None),
        }
    }

    /// Finds the first head of a new bunch that is behind a place and in front of an end.
    fn next_bunch(&self, behind: Option<u32>, end: Option<u32>) -> Option<u32>
        ensures { MatchOption result (NoNewBunchTo self.now.parts.ready behind end) (λ first. IsNewBunchTo self.now.parts.ready behind end first) }
    {
        let first = self.parts.ready.new_bunch_after(behind)?;
        if is_before(first, end) {
            Some(first)
        } else {
            None
        }
    }

    /// Finds the next attempt of a ready test, with its placement, if the test may start.
    fn next_start(&self, alloc: Global, number: u32) -> Result<Option<Startable>, NoMemory>
        requires kept { IsKeptRun self.now }
        requires due { IsDue self.now.plan (history_of_run self.now) number }
        ensures ok { IfOk result (λ found. MatchOption found (CanStart self.now.plan (history_of_run self.now) number → ⊥)
            (λ start. IsStartOf self.now.plan (history_of_run self.now) number start)) }
        ensures err { IfErr result (λ _. may_start_if_placed_at self.now.plan (history_of_run self.now) (test_at self.now.plan.tests number) ≡ true) }
    {
        let plan = self.plan.parts();
        let tests = plan.tests.as_slice();
        let place = expect_place(tests, number);
        let test = &tests[place];
        if !self.parts.in_use.has_room(plan.level, test) {
            return Ok(None);
        }
        match place_for(alloc, self.parts.in_use.free.as_ref(), &test.needs)? {
            Place::Here(placement) => Ok(Some(Startable {
                test: number,
                attempt: self.next_attempt(number),
                placement,
            })),
            Place::Nowhere => Ok(None),
        }
    }

    /// Returns the number of the next attempt of a test that may start as soon as its needs are met.
    fn next_attempt(&self, number: u32) -> u32
        requires kept { IsKeptRun self.now }
        requires due { IsDue self.now.plan (history_of_run self.now) number }
        requires may { may_start_if_placed_at self.now.plan (history_of_run self.now) (test_at self.now.plan.tests number) ≡ true }
        ensures { result ≡ attempt_after (history_of_run self.now) (test_at self.now.plan.tests number) }
    {
        let plan = self.plan.parts();
        let _times = plan.repeat.times;
        let place = expect_place(plan.tests.as_slice(), number);
        match self.parts.states[place] {
            State::Pending(attempts) => attempts + 1,
            _ => unreachable!(),
        }
    }

    /// Returns the next attempt of a test that may start without a placement.
    fn start_unplaced(&self, number: u32) -> Startable
        requires kept { IsKeptRun self.now }
        requires due { IsDue self.now.plan (history_of_run self.now) number }
        requires may { may_start_at self.now.plan (history_of_run self.now) None (test_at self.now.plan.tests number) ≡ true }
        ensures { IsStartOf self.now.plan (history_of_run self.now) number result }
    {
        Startable {
            test: number,
            attempt: self.next_attempt(number),
            placement: None,
        }
    }

    /// Finds the first head of a bunch whose test may start,
    /// behind its first head, which can't, and in front of an end.
    ///
    /// If the lock of the bunch is closed, none may start. If the bunch has
    /// no lock, none may either, since its tests have the same demand.
    fn first_of_bunch(&self, first: u32, end: Option<u32>) -> Option<u32>
        requires kept { IsKeptRun self.now }
        requires goes_on { has_stop (history_of_run self.now) ≡ false }
        requires unsettled { NoneSettles self.now.plan (history_of_run self.now) }
        requires head { IsHead self.now.parts.ready first }
        requires unable { CanStart self.now.plan (history_of_run self.now) (slice_index self.now.plan.queue first) → ⊥ }
        ensures { MatchOption result (NoneOfBunch self.now.plan (history_of_run self.now) self.now.parts.ready first end)
            (λ found. IsFirstOfBunch self.now.plan (history_of_run self.now) self.now.parts.ready first end found) }
    {
        if !self.is_open(first) {
            return None;
        }
        let mut place = first;
        while let Some(head) = self.parts.ready.next_head(place) {
            if !is_before(head, end) {
                return None;
            }
            if self.has_room(head) {
                return Some(head);
            }
            place = head;
        }
        None
    }

    /// Returns whether the bunch of the test at a place of the queue waits for a lock that is open to it.
    fn is_open(&self, place: u32) -> bool
        requires { IsKeptRun self.now }
        ensures { result ≡ is_open_key self.now.parts.in_use (key_at self.now.plan self.now.parts.keys.items place) }
    {
        let keys = self.parts.keys.as_slice();
        match lock_at(self.plan.parts(), keys, place) {
            Some(lock) => !self.parts.in_use.is_closed(is_alone_at(keys, place), lock),
            None => false,
        }
    }

    /// Returns whether there is room for the test at a place of the queue beside what is in use.
    fn has_room(&self, place: u32) -> bool
        requires { place < length self.now.plan.queue }
        ensures { result ≡ has_room_at self.now.plan self.now.parts.in_use (test_in_queue self.now.plan place) }
    {
        let plan = self.plan.parts();
        match test_in(plan, place) {
            Some(test) => self.parts.in_use.has_room(plan.level, test),
            None => false,
        }
    }
}

/// Returns whether a place stands in front of the end, if an end is given.
fn is_before(place: u32, end: Option<u32>) -> bool
    ensures { IsTrue result ↔ IsBefore end place }
{
    match end {
        Some(end) => place < end,
        None => true,
    }
}
