ghost use Rattle.std.specs.Prelude.{◌≡◌, ℕ, ◌-◌, ◌<◌, ◌≤◌, ◌^◌, Some, [], IfOk, false, length, map, slice_get};
ghost use Rattle.ct_core.specs.Begin.{count_before, first_counts, first_state, settles_first};
ghost use Rattle.ct_core.specs.Bunches.{AreBunchesOf};
ghost use Rattle.ct_core.specs.Followers.{followers_of};
ghost use Rattle.ct_core.specs.Parts.{IsKept};
ghost use Rattle.ct_core.specs.Waiting.{AreSettleable, IsQueued};
ghost use Rattle.ct_history.specs.Plan.{IsAscendingFrom, IsSound, test_at};
ghost use Rattle.ct_queue.specs.Marks.{is_marked};

use crate::both::both;
use crate::bunches::{KeyPlace, bunches_of, keys_of};
use crate::followers::followers;
use crate::in_use::{InUse, nothing};
use crate::lines::lines_of;
use crate::parts::Parts;
use crate::state::State;
use ct_base::{List, NoMemory};
use ct_history::{PlanParts, PlanTest, place_of};
use ct_queue::{Marks, Ready};
use ct_verdict::Verdict;
use std::alloc::Global;

impl Parts {
    /// Makes the parts of a run before its first entry. It also returns
    /// `NoMemory` if there are more tests than 32-bit places can name.
    pub(crate) fn begin(alloc: Global, plan: &PlanParts) -> Result<Parts, NoMemory>
        requires { IsSound plan.now }
        ensures { IfOk result (λ parts. IsKept plan.now [] 0 parts) }
    {
        if plan.tests.len() >= u32::MAX as usize {
            return Err(NoMemory);
        }
        let waiting = FirstWaiting::of(alloc, plan)?;
        let kept = both(waiting, FirstOfTests::of(alloc, plan))?;
        let ((waiting, first), in_use) = both(kept, nothing(alloc, plan))?;
        Ok(joined(plan, waiting, first, in_use))
    }
}

/// Joins the parts of a run before its first entry.
fn joined(plan: &PlanParts, waiting: FirstWaiting, first: FirstOfTests, in_use: InUse) -> Parts
    ensures { result ≡ record {
      states = first.states;
      unfinished = length plan.now.queue;
      in_use = in_use;
      followers = first.followers;
      keys = waiting.keys;
      ready = waiting.ready;
      settleable = first.settleable;
      stopped = false;
    } }
{
    Parts {
        states: first.states,
        unfinished: plan.queue.len(),
        in_use,
        followers: first.followers,
        keys: waiting.keys,
        ready: waiting.ready,
        settleable: first.settleable,
        stopped: false,
    }
}

/// What is kept of the queue before any entry.
#[derive(Drop)]
struct FirstWaiting {
    /// The key of each test, by its place in the queue.
    keys: Vec<Option<KeyPlace>>,
    ready: Ready,
}

impl FirstWaiting {
    /// Chooses the key of each test, and makes the ready set with the bunches of these keys.
    fn of(alloc: Global, plan: &PlanParts) -> Result<FirstWaiting, NoMemory>
        requires sound { IsSound plan.now }
        requires few { length plan.now.tests < 2 ^ 32 - 1 }
        ensures queued { IfOk result (λ waiting. IsQueued plan.now [] [] waiting.ready) }
        ensures bunches { IfOk result (λ waiting. AreBunchesOf plan.now waiting.keys.items waiting.ready.bunches) }
    {
        let keys = keys_of(alloc, plan)?;
        let ready = first_ready(alloc, plan, keys.as_slice())?;
        Ok(FirstWaiting { keys, ready })
    }
}

/// What is kept of each test before any entry.
#[derive(Drop)]
struct FirstOfTests {
    states: Vec<State>,
    /// The tests that wait for each test.
    followers: Vec<List<u32>>,
    settleable: Marks,
}

impl FirstOfTests {
    /// Makes the state of each test, the tests that wait for it, and the marks of those that may be settled.
    fn of(alloc: Global, plan: &PlanParts) -> Result<FirstOfTests, NoMemory>
        requires sound { IsSound plan.now }
        requires few { length plan.now.tests < 2 ^ 32 - 1 }
        ensures states { IfOk result (λ first. first.states.items ≡ map first_state plan.now.tests) }
        ensures followers { IfOk result (λ first. first.followers.items ≡ map (λ t. followers_of plan.now.tests t.number) plan.now.tests) }
        ensures settleable { IfOk result (λ first. AreSettleable plan.now [] [] first.settleable) }
    {
        let tests = plan.tests.as_slice();
        Ok(FirstOfTests {
            states: first_states(alloc, tests)?,
            followers: followers(alloc, tests)?,
            settleable: first_settleable(alloc, plan)?,
        })
    }
}

/// Lists the state of each test before any entry.
fn first_states(alloc: Global, tests: &[PlanTest]) -> Result<Vec<State>, NoMemory>
    ensures { IfOk result (λ states. states.items ≡ map first_state tests.now) }
{
    let mut states = Vec::new(alloc);
    for test in tests {
        states.push(first_state(test))?;
    }
    Ok(states)
}

fn first_state(test: &PlanTest) -> State
    ensures { result ≡ first_state test.now }
{
    if test.disabled {
        State::Final(Verdict::Disabled)
    } else {
        State::Pending(0)
    }
}

/// Makes the ready set: each test of the queue with the
/// number of its predecessors, its line and its bunch.
fn first_ready(
    alloc: Global,
    plan: &PlanParts,
    keys: &[Option<KeyPlace>],
) -> Result<Ready, NoMemory>
    requires sound { IsSound plan.now }
    requires few { length plan.now.tests < 2 ^ 32 - 1 }
    ensures queued { IfOk result (λ ready. IsQueued plan.now [] [] ready) }
    ensures bunches { IfOk result (λ ready. AreBunchesOf plan.now keys.now ready.bunches) }
{
    let counts = first_counts(alloc, plan)?;
    let lines = lines_of(alloc, plan)?;
    let bunches = bunches_of(alloc, plan, keys, &lines)?;
    Ok(Ready::in_lines(alloc, &plan.queue, &counts, &lines, &bunches)?)
}

fn first_counts(alloc: Global, plan: &PlanParts) -> Result<List<u32>, NoMemory>
    requires { IsAscendingFrom 1 (map (λ t. t.number) plan.now.tests) }
    ensures { IfOk result (λ counts. counts ≡ first_counts plan.now) }
{
    let mut counts = List::new(alloc);
    for number in plan.queue.as_slice() {
        counts.push(count_before(plan.tests.as_slice(), *number)?)?;
    }
    Ok(counts)
}

fn count_before(tests: &[PlanTest], number: u32) -> Result<u32, NoMemory>
    requires { IsAscendingFrom 1 (map (λ t. t.number) tests.now) }
    ensures { IfOk result (λ count. count ≡ count_before (test_at tests.now number)) }
{
    let Some(place) = place_of(tests, number) else {
        return Ok(0);
    };
    let Ok(count) = u32::try_from(tests[place].before.len()) else {
        return Err(NoMemory);
    };
    Ok(count)
}

/// Marks the tests that may be settled before any entry.
fn first_settleable(alloc: Global, plan: &PlanParts) -> Result<Marks, NoMemory>
    requires sound { IsSound plan.now }
    requires few { length plan.now.tests < 2 ^ 32 - 1 }
    ensures { IfOk result (λ marks. AreSettleable plan.now [] [] marks) }
{
    let tests = plan.tests.as_slice();
    let mut marks = Marks::new(alloc, tests.len())?;
    for (place, test) in tests.iter().enumerate() {
        marks.set(place, settles_first(test));
    }
    Ok(marks)
}

fn settles_first(test: &PlanTest) -> bool
    ensures { result ≡ settles_first (Some test.now) }
{
    !test.disabled && test.before.is_empty() && test.fixed.is_some()
}
