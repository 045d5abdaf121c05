ghost use Rattle.std.specs.Prelude.{◌≡◌, ◌+◌, ◌<◌, ◌≤◌, ◌&&◌, ◌∷◌, ◌++◌, [], false, true, drop, length, vec_len, vec_capacity, OnErr, OnOk, Some};
ghost use Rattle.ct_history.specs.Plan.{IsPlaceOf};
ghost use Rattle.ct_core.specs.Choice.{IsStartable};
ghost use Rattle.ct_core.specs.Core.{with_due_stop};
ghost use Rattle.ct_core.specs.Parts.{AreQueued, AreCurrent, IsLowered, followers_at};
ghost use Rattle.ct_core.specs.Run.{IsConcludingRun, IsKeptRun, history_of_run};
ghost use Rattle.ct_history.specs.History.{has_stop, holds_start, is_busy_in};
ghost use Rattle.ct_history.specs.Rules.{settle_cause_of_test};
ghost use Rattle.ct_history.specs.Verdicts.{verdict_of_test};
ghost use Rattle.ct_verdict.specs.Verdict.{is_failing_verdict};
ghost use Rattle.ct_history.specs.declared.history.Entry.TheVariants.{Start, End, Settle};

use crate::choice::Startable;
use crate::parts::Parts;
use crate::state::State;
use ct_alloc::copy_placement;
use ct_base::NoMemory;
use ct_history::{Entry, History, Plan, PlanParts, expect_place};
use ct_verdict::{Cause, Seen, Verdict, one};
use std::mem;

/// A run of a plan: its history, and the parts that follow from the history.
#[derive(Drop)]
pub(crate) struct Run {
    pub(crate) plan: Plan,
    pub(crate) history: History,
    pub(crate) parts: Parts,
}

impl Run {
    /// Starts the next attempt of a test that may start.
    pub(crate) fn start(&mut self, start: &Startable, worker: u32) -> Result<(), NoMemory>
        requires kept { IsKeptRun self.old }
        requires free { is_busy_in worker (history_of_run self.old) ≡ false }
        requires startable { IsStartable self.old.plan (history_of_run self.old) start.now }
        ensures kept { IsKeptRun self.new }
        ensures plan { self.new.plan ≡ self.old.plan }
        ensures started { OnOk result (history_of_run self.new ≡ history_of_run self.old ++ Start start.now.test start.now.attempt worker start.now.placement ∷ []) }
        ensures unstarted { OnErr result (history_of_run self.new ≡ history_of_run self.old) }
    {
        let alloc = *self.history.entries.allocator();
        let lent = copy_placement(alloc, start.placement.as_ref())?;
        let kept = copy_placement(alloc, start.placement.as_ref())?;
        // Room for this Start, for the End of each open attempt and of this one, and for a Stop.
        self.history
            .entries
            .reserve(self.parts.in_use.open_count + 3)?;
        let plan = self.plan.parts();
        let _level = plan.level;
        let place = expect_place(plan.tests.as_slice(), start.test);
        self.parts
            .in_use
            .take(&plan.tests.as_slice()[place], kept.as_ref());
        self.parts.states[place] = State::Open(start.attempt - 1, kept);
        self.parts.ready.out(start.test);
        append_reserved(
            &mut self.history.entries,
            Entry::Start {
                test: start.test,
                attempt: start.attempt,
                worker,
                placement: lent,
            },
        );
        Ok(())
    }

    /// Ends an open attempt, and returns the test's verdict if the test is now final. It takes no memory.
    pub(crate) fn end(
        &mut self,
        number: u32,
        attempt: u32,
        worker: u32,
        seen: Seen,
    ) -> Option<Verdict>
        requires kept { IsKeptRun self.old }
        requires holds { holds_start number attempt worker (history_of_run self.old) ≡ true }
        ensures kept { IsKeptRun self.new }
        ensures plan { self.new.plan ≡ self.old.plan }
        ensures ended { history_of_run self.new ≡ with_due_stop self.old.plan (history_of_run self.old ++ End number attempt worker seen ∷ []) }
        ensures verdict { result ≡ verdict_of_test self.old.plan (history_of_run self.new) number }
    {
        let plan = self.plan.parts();
        let place = expect_place(plan.tests.as_slice(), number);
        let test = &plan.tests.as_slice()[place];
        let verdict = one(&test.rules, &seen);
        let State::Open(_, placement) = mem::replace(
            &mut self.parts.states[place],
            State::Final(verdict),
        ) else {
            unreachable!();
        };
        self.parts.in_use.give(test, placement.as_ref());
        drop(placement);
        append_reserved(
            &mut self.history.entries,
            Entry::End {
                test: number,
                attempt,
                worker,
                seen,
            },
        );
        if plan.repeat.again(attempt, Some(verdict)) {
            self.parts.go_on(place, number, attempt);
            return None;
        }
        self.conclude(number, verdict);
        Some(verdict)
    }

    /// Settles a test that may be settled with this cause.
    pub(crate) fn settle(&mut self, number: u32, cause: Cause) -> Result<(), NoMemory>
        requires kept { IsKeptRun self.old }
        requires may { settle_cause_of_test self.old.plan (history_of_run self.old) number ≡ Some cause }
        ensures kept { IsKeptRun self.new }
        ensures plan { self.new.plan ≡ self.old.plan }
        ensures settled { OnOk result (history_of_run self.new ≡ with_due_stop self.old.plan (history_of_run self.old ++ Settle number cause ∷ [])) }
        ensures unsettled { OnErr result (history_of_run self.new ≡ history_of_run self.old) }
    {
        // Room for this Settle, for the End of each open attempt, and for a Stop.
        self.history
            .entries
            .reserve(self.parts.in_use.open_count + 2)?;
        let place = expect_place(self.plan.parts().tests.as_slice(), number);
        append_reserved(
            &mut self.history.entries,
            Entry::Settle {
                test: number,
                cause,
            },
        );
        self.parts.settle(place, number, cause);
        self.conclude(number, Verdict::NotRun(cause));
        Ok(())
    }

    /// Updates the parts after a test became final: unless there is a Stop already,
    /// lowers the counts of its followers, and then sets the Stop if it is due.
    fn conclude(&mut self, number: u32, verdict: Verdict)
        requires concluding { IsConcludingRun number verdict self.old }
        ensures kept { IsKeptRun self.new }
        ensures plan { self.new.plan ≡ self.old.plan }
        ensures stopped { history_of_run self.new ≡ with_due_stop self.old.plan (history_of_run self.old) }
    {
        self.parts.unfinished -= 1;
        if self.parts.stopped {
            return;
        }
        let place = expect_place(self.plan.parts().tests.as_slice(), number);
        self.lower_followers(place);
        if stops_at(self.plan.parts(), verdict) {
            append_reserved(&mut self.history.entries, Entry::Stop);
            self.parts.stop();
        }
    }

    /// Lowers the count of each follower of the test at a place.
    fn lower_followers(&mut self, place: usize)
        requires there { place < length self.old.plan.tests }
        requires goes_on { has_stop (history_of_run self.old) ≡ false }
        requires current { AreCurrent self.old.plan (history_of_run self.old) self.old.parts }
        requires queued { AreQueued self.old.plan (history_of_run self.old) (followers_at self.old.parts place) self.old.parts }
        ensures plan { self.new.plan ≡ self.old.plan }
        ensures history { self.new.history ≡ self.old.history }
        ensures lowered { IsLowered self.old.parts self.new.parts }
        ensures queued { AreQueued self.old.plan (history_of_run self.old) [] self.new.parts }
    {
        for at in 0..self.parts.followers[place].len() {
            self.lower_follower(place, at);
        }
    }

    /// Lowers the count of one follower of the test at a place, and marks it if it may be settled now.
    fn lower_follower(&mut self, place: usize, at: usize)
        requires there { place < length self.old.plan.tests }
        requires within { at < length (followers_at self.old.parts place) }
        requires goes_on { has_stop (history_of_run self.old) ≡ false }
        requires current { AreCurrent self.old.plan (history_of_run self.old) self.old.parts }
        requires queued { AreQueued self.old.plan (history_of_run self.old) (drop at (followers_at self.old.parts place)) self.old.parts }
        ensures plan { self.new.plan ≡ self.old.plan }
        ensures history { self.new.history ≡ self.old.history }
        ensures lowered { IsLowered self.old.parts self.new.parts }
        ensures queued { AreQueued self.old.plan (history_of_run self.old) (drop (at + 1) (followers_at self.old.parts place)) self.new.parts }
    {
        let follower = self.parts.followers[place].as_slice()[at];
        self.parts.ready.lower(follower);
        if !self.parts.ready.is_ready(follower) {
            return;
        }
        let tests = self.plan.parts().tests.as_slice();
        let here = expect_place(tests, follower);
        if self.cause_then(&tests[here]).is_some() {
            self.parts.settleable.set(here, true);
        }
    }
}

/// Returns whether this verdict stops the run: the plan stops on failure, and the verdict is of the failing
/// class.
fn stops_at(plan: &PlanParts, verdict: Verdict) -> bool
    ensures { result ≡ (plan.now.stop_on_failure && is_failing_verdict verdict) }
{
    plan.stop_on_failure && verdict.is_failing()
}

fn append_reserved(entries: &mut Vec<Entry>, entry: Entry)
    requires { vec_len entries.old < vec_capacity entries.old }
    ensures items { entries.new.items ≡ entries.old.items ++ entry ∷ [] }
    ensures len { vec_len entries.new ≡ vec_len entries.old + 1 }
    ensures room { vec_capacity entries.old ≤ vec_capacity entries.new }
{
    let pushed = entries.push(entry);
    prove!(pushed.is_ok());
}
