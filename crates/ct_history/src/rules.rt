ghost use Rattle.std.specs.Prelude.{◌≡◌, ◌+◌, ◌==◌, nat_le};
ghost use Rattle.std.specs.Option.{option_copied};
ghost use Rattle.ct_history.specs.Legal.{same_cause};
ghost use Rattle.ct_history.specs.Plan.{test_at};
ghost use Rattle.ct_history.specs.Rules.{cause_behind};
ghost use Rattle.ct_history.specs.Verdicts.{is_passed_verdict};
ghost use Rattle.ct_history.specs.Course.{course_at, runs};
ghost use Rattle.ct_history.specs.Places.{Ascend};
ghost use Rattle.ct_history.specs.Seen as Seen;

use crate::course::{course_at, next_attempt, verdict_of_course};
use crate::open_start::{has_start, is_busy, is_excluded, is_open, used_processors};
use crate::placed::is_placed;
use crate::places::planned;
use crate::{Audit, Entry, PlanParts, PlanTest, is_failing};
use ct_alloc::Placement;
use ct_verdict::{Cause, Verdict};

impl Audit {
    /// Returns whether an entry is allowed behind the entries that were noted.
    pub(crate) fn is_allowed(&self, plan: &PlanParts, entry: &Entry) -> bool
        requires { Ascend plan.now.tests }
        ensures { result ≡ Seen.is_allowed_by plan.now (runs self.now.running.items) (course_at self.now.courses) self.now.stopped self.now.due entry.now }
    {
        match entry {
            Entry::Start {
                test,
                attempt,
                worker,
                placement,
            } => {
                !self.due
                    && self.starts(plan, *test, *attempt, placement.as_ref())
                    && !is_busy(&self.running, *worker)
            }
            Entry::End {
                test,
                attempt,
                worker,
                ..
            } => !self.due && has_start(&self.running, *test, *attempt, *worker),
            Entry::Settle { test, cause } => !self.due && self.settles(plan, *test, *cause),
            Entry::Stop => self.due,
        }
    }

    fn starts(
        &self,
        plan: &PlanParts,
        number: u32,
        attempt: u32,
        placement: Option<&Placement>,
    ) -> bool
        requires { Ascend plan.now.tests }
        ensures { result ≡ Seen.starts_by plan.now (runs self.now.running.items) (course_at self.now.courses) self.now.stopped attempt (option_copied placement.entry) (test_at plan.now.tests number) }
    {
        match planned(plan.tests.as_slice(), number) {
            Some(test) => {
                self.may_start(plan, test, placement) && self.is_next(test.number, attempt)
            }
            None => false,
        }
    }

    /// Returns whether this is the number of the test's next attempt: one more than the attempts that ended.
    pub fn is_next(&self, number: u32, attempt: u32) -> bool
        ensures { result ≡ (attempt == Seen.next_attempt (course_at self.now.courses number).ended) }
    {
        u64::from(attempt) == next_attempt(course_at(&self.courses, number).ended)
    }

    fn may_start(&self, plan: &PlanParts, test: &PlanTest, placement: Option<&Placement>) -> bool
        requires { Ascend plan.now.tests }
        ensures { result ≡ Seen.may_start_by plan.now (runs self.now.running.items) (course_at self.now.courses) self.now.stopped (option_copied placement.entry) test.now }
    {
        !self.stopped
            && self.is_pending(plan, test)
            && self.is_ready(plan, test)
            && self.has_room(plan, test)
            && is_placed(plan, test, placement, &self.running)
    }

    fn settles(&self, plan: &PlanParts, number: u32, cause: Cause) -> bool
        requires { Ascend plan.now.tests }
        ensures { result ≡ Seen.settles_by plan.now (runs self.now.running.items) (course_at self.now.courses) self.now.stopped cause (test_at plan.now.tests number) }
    {
        match planned(plan.tests.as_slice(), number) {
            Some(test) => is_same_cause(cause, self.settle_cause(plan, test)),
            None => false,
        }
    }

    fn settle_cause(&self, plan: &PlanParts, test: &PlanTest) -> Option<Cause>
        requires { Ascend plan.now.tests }
        ensures { result ≡ Seen.cause_by plan.now (runs self.now.running.items) (course_at self.now.courses) self.now.stopped test.now }
    {
        if !self.is_pending(plan, test) {
            None
        } else if self.stopped {
            Some(Cause::Stopped)
        } else if self.follows_finals(plan, test) {
            cause_behind(self.first_unpassed(plan, test), test.fixed)
        } else {
            None
        }
    }

    fn is_pending(&self, plan: &PlanParts, test: &PlanTest) -> bool
        ensures { result ≡ Seen.is_pending_by plan.now (runs self.now.running.items) (course_at self.now.courses) test.now }
    {
        self.verdict(plan, test).is_none() && !is_open(&self.running, test.number)
    }

    fn is_ready(&self, plan: &PlanParts, test: &PlanTest) -> bool
        requires { Ascend plan.now.tests }
        ensures { result ≡ Seen.is_ready_by plan.now (runs self.now.running.items) (course_at self.now.courses) test.now }
    {
        self.follows_finals(plan, test)
            && self.first_unpassed(plan, test).is_none()
            && test.fixed.is_none()
    }

    fn has_room(&self, plan: &PlanParts, test: &PlanTest) -> bool
        requires { Ascend plan.now.tests }
        ensures { result ≡ Seen.has_room_by plan.now (runs self.now.running.items) test.now }
    {
        self.has_processors(plan, test) && !is_excluded(plan.tests.as_slice(), test, &self.running)
    }

    fn has_processors(&self, plan: &PlanParts, test: &PlanTest) -> bool
        requires { Ascend plan.now.tests }
        ensures { result ≡ nat_le (test.now.processors + Seen.processors_used plan.now.tests (runs self.now.running.items)) plan.now.level }
    {
        let used = used_processors(plan.tests.as_slice(), &self.running);
        let level = u64::from(plan.level);
        used <= level && u64::from(test.processors) <= level - used
    }

    fn follows_finals(&self, plan: &PlanParts, test: &PlanTest) -> bool
        requires { Ascend plan.now.tests }
        ensures { result ≡ Seen.follows_by plan.now (runs self.now.running.items) (course_at self.now.courses) test.now }
    {
        let before = test.before.as_slice();
        before
            .iter()
            .all(|number| self.verdict_of(plan, *number).is_some())
    }

    fn first_unpassed(&self, plan: &PlanParts, test: &PlanTest) -> Option<u32>
        requires { Ascend plan.now.tests }
        ensures { result ≡ Seen.unpassed_by plan.now (runs self.now.running.items) (course_at self.now.courses) test.now }
    {
        let setups = test.setups.as_slice();
        setups
            .iter()
            .copied()
            .find(|setup| !self.is_passed(plan, *setup))
    }

    fn is_passed(&self, plan: &PlanParts, number: u32) -> bool
        requires { Ascend plan.now.tests }
        ensures { result ≡ is_passed_verdict (Seen.verdict_by_number plan.now (runs self.now.running.items) (course_at self.now.courses) number) }
    {
        matches!(self.verdict_of(plan, number), Some(Verdict::Passed))
    }

    /// Returns whether the test with this number has a verdict that makes the run fail.
    pub(crate) fn has_failed(&self, plan: &PlanParts, number: Option<u32>) -> bool
        requires { Ascend plan.now.tests }
        ensures { result ≡ Seen.has_failed_by plan.now (runs self.now.running.items) (course_at self.now.courses) number }
    {
        match number {
            Some(number) => is_failing(self.verdict_of(plan, number)),
            None => false,
        }
    }

    /// Returns the verdict of the test with this number, if there is one and it is final.
    pub fn verdict_of(&self, plan: &PlanParts, number: u32) -> Option<Verdict>
        requires { Ascend plan.now.tests }
        ensures { result ≡ Seen.verdict_by_number plan.now (runs self.now.running.items) (course_at self.now.courses) number }
    {
        match planned(plan.tests.as_slice(), number) {
            Some(test) => self.verdict(plan, test),
            None => None,
        }
    }

    /// Returns the verdict of a test of the plan, if it is final.
    pub(crate) fn verdict(&self, plan: &PlanParts, test: &PlanTest) -> Option<Verdict>
        ensures { result ≡ Seen.verdict_in_course plan.now.repeat (runs self.now.running.items) (course_at self.now.courses) test.now }
    {
        let is_open = is_open(&self.running, test.number);
        let course = course_at(&self.courses, test.number);
        verdict_of_course(&plan.repeat, test, is_open, course)
    }
}

fn cause_behind(setup: Option<u32>, fixed: Option<Cause>) -> Option<Cause>
    ensures { result ≡ cause_behind setup fixed }
{
    match setup {
        Some(number) => Some(Cause::Fixture(number)),
        None => fixed,
    }
}

fn is_same_cause(cause: Cause, other: Option<Cause>) -> bool
    ensures { result ≡ same_cause cause other }
{
    match other {
        Some(other) => cause == other,
        None => false,
    }
}
