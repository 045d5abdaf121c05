//! What the core chooses in drawn runs, compared with what `judge` says of every other entry there.

use crate::dice::Dice;
use crate::drawn_runs::{copies_of, drawn_parts, drawn_seen};
use crate::workers::{Run, Step, close, end, next, open};
use ct_alloc::{Pick, Placement};
use ct_base::{List, Name, Need, NoMemory};
use ct_history::{Entry, History, Plan, PlanTest, judge, test_at};
use ct_verdict::Cause;
use std::alloc::Global;
use std::process::Abort;
use std::test::Fail;

/// The greatest number of a drawn test.
const LAST: u32 = 8;

/// How many placements there are of three needs on three cards.
const PLACEMENTS: u32 = 27;

/// The causes that a drawn test may be settled with, except those of a setup.
const CAUSES: [Cause; 3] = [Cause::Stopped, Cause::NotAvailable, Cause::Insufficient];

/// A history, and one more entry for which `judge` is asked.
#[derive(Drop)]
struct Trial<'a> {
    plan: &'a Plan,
    history: History,
}

impl Trial<'_> {
    fn allows(&mut self, alloc: Global, entry: Entry) -> Result<bool, NoMemory> {
        self.history.entries.push(entry)?;
        let is_legal = judge(alloc, self.plan, &self.history)?;
        let _entry = self.history.entries.pop();
        Ok(is_legal)
    }

    /// Returns whether a test may be settled with some cause.
    fn allows_settle(&mut self, alloc: Global, test: u32) -> Result<bool, NoMemory> {
        for cause in CAUSES {
            if self.allows(alloc, Entry::Settle { test, cause })? {
                return Ok(true);
            }
        }
        self.allows_settle_for_setup(alloc, test)
    }

    /// Returns whether a test may be settled for some setup that did not pass.
    fn allows_settle_for_setup(&mut self, alloc: Global, test: u32) -> Result<bool, NoMemory> {
        for setup in 1..LAST + 1 {
            let cause = Cause::Fixture(setup);
            if self.allows(alloc, Entry::Settle { test, cause })? {
                return Ok(true);
            }
        }
        Ok(false)
    }

    /// Returns whether the next attempt of a test may start with some placement.
    fn allows_start(&mut self, alloc: Global, test: &PlanTest) -> Result<bool, NoMemory> {
        let attempt = next_attempt(self.history.entries.as_slice(), test.number);
        if self.allows(alloc, start(test.number, attempt, None))? {
            return Ok(true);
        }
        Ok(!test.needs.is_empty() && self.allows_placed(alloc, test, attempt)?)
    }

    /// Returns whether an attempt may start with one of all placements.
    fn allows_placed(
        &mut self,
        alloc: Global,
        test: &PlanTest,
        attempt: u32,
    ) -> Result<bool, NoMemory> {
        for number in 0..PLACEMENTS {
            let placement = placement(alloc, test.needs.as_slice(), number)?;
            if self.allows(alloc, start(test.number, attempt, Some(placement)))? {
                return Ok(true);
            }
        }
        Ok(false)
    }

    fn settles_none_before(&mut self, alloc: Global, number: u32) -> Result<bool, NoMemory> {
        for test in 1..number {
            if self.allows_settle(alloc, test)? {
                return Ok(false);
            }
        }
        Ok(true)
    }

    /// Returns whether no test of the queue in front of this one may
    /// start; with `None`, whether no test may.
    fn starts_none_before(&mut self, alloc: Global, first: Option<u32>) -> Result<bool, NoMemory> {
        let parts = self.plan.parts();
        for number in parts.queue.as_slice() {
            if Some(*number) == first {
                return Ok(true);
            }
            if let Some(test) = test_at(parts.tests.as_slice(), *number) {
                if self.allows_start(alloc, test)? {
                    return Ok(false);
                }
            }
        }
        Ok(first.is_none())
    }
}

fn next_attempt(entries: &[Entry], number: u32) -> u32 {
    let mut attempt: u32 = 1;
    for entry in entries {
        if matches!(entry, Entry::End { test, .. } if *test == number) {
            attempt = attempt.saturating_add(1);
        }
    }
    attempt
}

/// Starts an attempt by a worker that has no other.
fn start(test: u32, attempt: u32, placement: Option<Placement>) -> Entry {
    Entry::Start {
        test,
        attempt,
        worker: 4,
        placement,
    }
}

/// Makes one of the placements of these needs on three cards.
fn placement(alloc: Global, needs: &[Need], number: u32) -> Result<Placement, NoMemory> {
    let mut picks = List::new(alloc);
    let mut left = number;
    for need in needs {
        let resource = left % 3;
        left /= 3;
        let id = resource.to_string(alloc)?;
        picks.push(Pick {
            group: need.group,
            kind: need.kind.copy(alloc)?,
            id: Name::of(alloc, id.as_bytes())?,
            slots: need.slots,
            resource,
        })?;
    }
    Ok(Placement { picks })
}

/// Checks that what was chosen behind a history is the first of what is allowed there.
fn check_choice(
    rt: &impl Abort,
    alloc: Global,
    plan: &Plan,
    history: History,
    step: Step,
) -> Result<(), NoMemory> {
    let mut trial = Trial { plan, history };
    match step {
        Step::Settles { test, .. } => {
            assert!(rt; trial.settles_none_before(alloc, test)?, "{step:?}");
        }
        Step::Starts { test, .. } => {
            assert!(rt; trial.settles_none_before(alloc, LAST + 1)?, "{step:?}");
            assert!(rt; trial.starts_none_before(alloc, Some(test))?, "{step:?}");
        }
        Step::Waits { .. } | Step::IsDone => {
            assert!(rt; trial.settles_none_before(alloc, LAST + 1)?, "{step:?}");
            assert!(rt; trial.starts_none_before(alloc, None)?, "{step:?}");
        }
        Step::Ends { .. } | Step::IsAborted => {}
    }
    Ok(())
}

/// Takes one drawn step, and returns whether the run goes on.
fn checked_step(
    rt: &impl Abort,
    alloc: Global,
    dice: &mut Dice,
    run: &mut Run,
) -> Result<bool, NoMemory> {
    let worker = dice.roll(4);
    if !run.hands.is_free(worker) {
        if dice.is_one_in(2) {
            end(rt, run, worker, drawn_seen(dice));
        }
        return Ok(true);
    }
    let entries = copies_of(alloc, run.core.history().entries.as_slice())?;
    let step = next(rt, run, worker);
    check_choice(rt, alloc, run.core.plan(), History { entries }, step)?;
    Ok(step != Step::IsDone)
}

/// Takes drawn steps to the end of a run.
fn checked_steps(
    rt: &impl Abort,
    alloc: Global,
    dice: &mut Dice,
    run: &mut Run,
) -> Result<(), NoMemory> {
    for _ in 0..1000 {
        if !checked_step(rt, alloc, dice, run)? {
            break;
        }
    }
    Ok(())
}

#[test]
fn the_core_chooses_the_first_that_is_allowed(rt: HostRuntime) -> Result<(), Fail> {
    let alloc = rt.alloc();
    let mut dice = Dice::new(2027);
    for _ in 0..2000 {
        let parts = drawn_parts(alloc, &mut dice)?;
        let mut run = open(&rt, alloc, parts)?;
        let checked = checked_steps(&rt, alloc, &mut dice, &mut run);
        close(&rt, alloc, run)?;
        checked?;
    }
    Ok(())
}
