ghost use Rattle.std.specs.Prelude.{◌<◌, ◌≤◌, ◌≡◌, false, true, length};
ghost use Rattle.ct_core.specs.Parts.{GoesOnPending, IsSettled, IsStopped, is_pending_at_place};
ghost use Rattle.ct_queue.specs.Ready.{StandsIn, is_out, is_in_ready_set};

use crate::bunches::KeyPlace;
use crate::in_use::InUse;
use crate::state::State;
use ct_base::List;
use ct_queue::{Marks, Ready};
use ct_verdict::{Cause, Verdict};

/// What a run keeps beside its history, so that no call has to search the history.
#[derive(Drop)]
pub(crate) struct Parts {
    /// The state of each test, by its place in the plan.
    pub(crate) states: Vec<State>,
    /// How many tests are not final.
    pub(crate) unfinished: usize,
    /// What the open attempts use.
    pub(crate) in_use: InUse,
    /// The tests that wait for each test, by its place in the plan.
    pub(crate) followers: Vec<List<u32>>,
    /// The key of each test, by its place in the queue: where the lock
    /// stands that it waits for together with other tests.
    pub(crate) keys: Vec<Option<KeyPlace>>,
    /// The tests that are ready to start; behind a Stop, those that were ready in front of it.
    pub(crate) ready: Ready,
    /// The places of the tests that may be settled.
    pub(crate) settleable: Marks,
    /// Whether there is a Stop.
    pub(crate) stopped: bool,
}

impl Parts {
    /// Notes that a test is tried again, after so many attempts.
    pub(crate) fn go_on(&mut self, place: usize, number: u32, attempts: u32)
        requires there { place < length self.old.states.items }
        requires marks { length self.old.states.items ≤ length self.old.settleable }
        requires stands { self.old.stopped ≡ false → StandsIn self.old.ready.order number }
        requires gone { self.old.stopped ≡ false → is_out self.old.ready number ≡ true }
        ensures { GoesOnPending place number attempts self.old self.new }
    {
        self.states[place] = State::Pending(attempts);
        if self.stopped {
            self.settleable.set(place, true);
        } else {
            self.ready.back(number);
        }
    }

    /// Notes that a test is settled.
    pub(crate) fn settle(&mut self, place: usize, number: u32, cause: Cause)
        requires there { place < length self.old.states.items }
        requires marks { length self.old.states.items ≤ length self.old.settleable }
        requires stands { self.old.stopped ≡ false → StandsIn self.old.ready.order number }
        requires member { self.old.stopped ≡ false → is_in_ready_set self.old.ready number ≡ true }
        ensures { IsSettled place number cause self.old self.new }
    {
        self.states[place] = State::Final(Verdict::NotRun(cause));
        self.settleable.set(place, false);
        if !self.stopped {
            self.ready.out(number);
        }
    }

    /// Notes that there is a Stop: each test that is pending may be settled.
    pub(crate) fn stop(&mut self)
        requires { length self.old.states.items ≤ length self.old.settleable }
        ensures { IsStopped self.old self.new }
    {
        self.stopped = true;
        for place in 0..self.states.len() {
            let is_pending = self.is_pending(place);
            self.settleable.set(place, is_pending);
        }
    }

    fn is_pending(&self, place: usize) -> bool
        requires { place < length self.now.states.items }
        ensures { result ≡ is_pending_at_place self.now.states.items place }
    {
        matches!(self.states[place], State::Pending(_))
    }
}
