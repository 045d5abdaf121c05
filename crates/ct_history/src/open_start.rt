ghost use Rattle.std.specs.Prelude.{◌≡◌, ◌-◌, ◌^◌, ◌==◌, ◌&&◌, not, filter, min, Some};
ghost use Rattle.ct_history.specs.History.{processors_of, test_at};
ghost use Rattle.ct_history.specs.Rules.{exclude as exclude_by};
ghost use Rattle.ct_history.specs.Course.{runs};
ghost use Rattle.ct_history.specs.Places.{Ascend};
ghost use Rattle.ct_history.specs.Seen as Seen;

use crate::PlanTest;
use crate::exclusion::exclude;
use crate::placed::slots_of;
use crate::places::planned;
use ct_alloc::Placement;

/// A start that no End has closed so far.
#[derive(Drop)]
pub struct OpenStart {
    pub test: u32,
    /// From 1, counted for each test.
    pub attempt: u32,
    pub worker: u32,
    pub placement: Option<Placement>,
}

/// Returns whether one of these starts is of the test.
pub(crate) fn is_open(running: &[OpenStart], test: u32) -> bool
    ensures { result ≡ Seen.opens test (runs running.now) }
{
    for at in 0..running.len() {
        if running[at].test == test {
            return true;
        }
    }
    false
}

/// Returns whether the worker made one of these starts.
pub(crate) fn is_busy(running: &[OpenStart], worker: u32) -> bool
    ensures { result ≡ Seen.is_busy_with worker (runs running.now) }
{
    for at in 0..running.len() {
        if running[at].worker == worker {
            return true;
        }
    }
    false
}

/// Returns whether the worker made this attempt of the test.
pub(crate) fn has_start(running: &[OpenStart], test: u32, attempt: u32, worker: u32) -> bool
    ensures { result ≡ Seen.has_start test attempt worker (runs running.now) }
{
    for at in 0..running.len() {
        let start = &running[at];
        if start.test == test && start.attempt == attempt && start.worker == worker {
            return true;
        }
    }
    false
}

/// Takes the starts of this attempt of the test away.
pub(crate) fn close(running: &mut Vec<OpenStart>, test: u32, attempt: u32)
    ensures { running.new.items ≡ filter (λ s. not (s.test == test && s.attempt == attempt)) running.old.items }
{
    running.retain(|start| !(start.test == test && start.attempt == attempt));
}

/// Adds up the processors of these starts. A greater sum counts as 2^64 - 1.
pub fn used_processors(tests: &[PlanTest], running: &[OpenStart]) -> u64
    requires { Ascend tests.now }
    ensures { result ≡ min (Seen.processors_used tests.now (runs running.now)) (2 ^ 64 - 1) }
{
    let mut used: u64 = 0;
    for at in 0..running.len() {
        used = used.saturating_add(u64::from(processors_at(tests, running[at].test)));
    }
    used
}

fn processors_at(tests: &[PlanTest], number: u32) -> u32
    requires { Ascend tests.now }
    ensures { result ≡ processors_of (test_at tests.now number) }
{
    match planned(tests, number) {
        Some(test) => test.processors,
        None => 0,
    }
}

/// Adds up the slots of a resource that these starts use. A greater sum counts as 2^64 - 1.
pub fn used_slots(running: &[OpenStart], place: usize) -> u64
    ensures { result ≡ min (Seen.slots_used (runs running.now) place) (2 ^ 64 - 1) }
{
    let mut used: u64 = 0;
    for at in 0..running.len() {
        used = used.saturating_add(slots_of(place, running[at].placement.as_ref()));
    }
    used
}

/// Returns whether this test and one of these starts exclude each other.
pub(crate) fn is_excluded(tests: &[PlanTest], test: &PlanTest, running: &[OpenStart]) -> bool
    requires { Ascend tests.now }
    ensures { result ≡ Seen.is_excluded_by tests.now test.now (runs running.now) }
{
    for at in 0..running.len() {
        if excludes(tests, test, running[at].test) {
            return true;
        }
    }
    false
}

#[tactic(auto, using(crate::proofs::ExcludeLemmas::exclude_none))]
fn excludes(tests: &[PlanTest], test: &PlanTest, number: u32) -> bool
    requires { Ascend tests.now }
    ensures { result ≡ exclude_by (Some test.now) (test_at tests.now number) }
{
    match planned(tests, number) {
        Some(other) => exclude(test, other),
        None => test.serial,
    }
}
