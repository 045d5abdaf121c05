//! The core over drawn plans and drawn lists of calls, and the
//! histories of these runs with one change.

ghost use Rattle.std.specs.Prelude.{◌<◌, length};

use crate::dice::Dice;
use crate::workers::{Run, Step, close, end, next, open, seen};
use ct_alloc::{Pick, Placement};
use ct_base::{List, Name, Need, NoMemory, Resource};
use ct_history::{Entry, History, Plan, PlanParts, PlanTest, judge};
use ct_verdict::{Cause, How, Mode, Repeat, Seen};
use std::alloc::Global;
use std::process::Abort;
use std::test::Fail;
use tests_samples::{Manner, cards, enabled_numbers, free, need, queued, unused};

/// Draws the parts of a plan of up to eight tests, with up to three cards.
pub(crate) fn drawn_parts(alloc: Global, dice: &mut Dice) -> Result<PlanParts, NoMemory> {
    let level = 1 + dice.roll(4);
    let count = 1 + dice.roll(8);
    let resources = drawn_cards(alloc, dice)?;
    let tests = drawn_tests(alloc, dice, count, level, resources.as_ref())?;
    let queue = drawn_queue(alloc, dice, tests.as_slice())?;
    queued(alloc, drawn_manner(dice, level), tests, queue, resources)
}

fn drawn_cards(alloc: Global, dice: &mut Dice) -> Result<Option<List<Resource>>, NoMemory> {
    if dice.is_one_in(4) {
        return Ok(None);
    }
    let slots = drawn_slots(alloc, dice)?;
    Ok(Some(cards(alloc, &slots)?))
}

/// Draws up to three amounts.
fn drawn_slots(alloc: Global, dice: &mut Dice) -> Result<Vec<u32>, NoMemory> {
    let mut slots = Vec::new(alloc);
    for _ in 0..dice.roll(4) {
        slots.push(dice.roll(4))?;
    }
    Ok(slots)
}

fn drawn_manner(dice: &mut Dice, level: u32) -> Manner {
    let mode = drawn_mode(dice);
    let times = 1 + dice.roll(3);
    Manner {
        level,
        repeat: Repeat { mode, times },
        stop_on_failure: dice.is_one_in(2),
    }
}

fn drawn_mode(dice: &mut Dice) -> Mode {
    match dice.roll(4) {
        0 => Mode::UntilFail,
        1 => Mode::UntilPass,
        2 => Mode::AfterTimeout,
        _ => Mode::Once,
    }
}

/// Draws `count` tests, each of which may wait for earlier ones.
fn drawn_tests(
    alloc: Global,
    dice: &mut Dice,
    count: u32,
    level: u32,
    resources: Option<&List<Resource>>,
) -> Result<List<PlanTest>, NoMemory>
    requires { 0 < level }
{
    let mut tests = List::new(alloc);
    for number in 1..count.saturating_add(1) {
        let mut test = free(alloc, number)?;
        draw_marks(dice, &mut test, level);
        tests.push(drawn_test(alloc, dice, test, tests.as_slice(), resources)?)?;
    }
    Ok(tests)
}

/// Draws what a test needs, beside its marks.
fn drawn_test(
    alloc: Global,
    dice: &mut Dice,
    mut test: PlanTest,
    earlier: &[PlanTest],
    resources: Option<&List<Resource>>,
) -> Result<PlanTest, NoMemory> {
    draw_rest(alloc, dice, &mut test, earlier, resources)?;
    Ok(test)
}

/// Draws the locks of a test, the earlier tests that it waits for, and its needs.
fn draw_rest(
    alloc: Global,
    dice: &mut Dice,
    test: &mut PlanTest,
    earlier: &[PlanTest],
    resources: Option<&List<Resource>>,
) -> Result<(), NoMemory> {
    draw_locks(alloc, dice, &mut test.locks)?;
    draw_locks(alloc, dice, &mut test.shared)?;
    draw_links(dice, test, earlier)?;
    draw_needs(alloc, dice, test, resources)
}

/// Draws the properties of a test that need no other test.
fn draw_marks(dice: &mut Dice, test: &mut PlanTest, level: u32)
    requires { 0 < level }
{
    test.disabled = dice.is_one_in(8);
    test.serial = dice.is_one_in(10);
    test.processors = dice.roll(level).saturating_add(1);
    if dice.is_one_in(10) {
        test.fixed = Some(Cause::NotAvailable);
    }
}

fn draw_locks(alloc: Global, dice: &mut Dice, locks: &mut List<Name>) -> Result<(), NoMemory> {
    if dice.is_one_in(4) {
        locks.push(Name::of(alloc, b"disk")?)?;
    }
    if dice.is_one_in(4) {
        locks.push(Name::of(alloc, b"port")?)?;
    }
    Ok(())
}

/// Draws which of the earlier tests a test waits for, and which of them are its setups.
fn draw_links(dice: &mut Dice, test: &mut PlanTest, earlier: &[PlanTest]) -> Result<(), NoMemory> {
    for other in earlier {
        if !other.disabled && dice.is_one_in(4) {
            test.before.push(other.number)?;
            if dice.is_one_in(2) {
                test.setups.push(other.number)?;
            }
        }
    }
    Ok(())
}

/// Draws the needs of a test, which may never be met.
fn draw_needs(
    alloc: Global,
    dice: &mut Dice,
    test: &mut PlanTest,
    resources: Option<&List<Resource>>,
) -> Result<(), NoMemory> {
    for _ in 0..dice.roll(4) {
        test.needs.push(need(alloc, dice.roll(4))?)?;
    }
    if test.fixed.is_none() && !are_met(alloc, &test.needs, resources)? {
        test.fixed = Some(Cause::Insufficient);
    }
    Ok(())
}

/// Returns whether needs can be placed, or no cards are lent, so that the needs are not looked at.
fn are_met(
    alloc: Global,
    needs: &List<Need>,
    resources: Option<&List<Resource>>,
) -> Result<bool, NoMemory> {
    match resources {
        Some(resources) => Ok(unused(alloc, resources)?.place(alloc, needs)?.is_some()),
        None => Ok(true),
    }
}

fn drawn_queue(alloc: Global, dice: &mut Dice, tests: &[PlanTest]) -> Result<List<u32>, NoMemory> {
    let mut numbers = enabled_numbers(alloc, tests)?;
    for at in 0..numbers.len() {
        let other = dice.roll(8) as usize;
        if other < numbers.len() {
            numbers.swap(at, other);
        }
    }
    Ok(List::from_vec(numbers))
}

pub(crate) fn drawn_seen(dice: &mut Dice) -> Seen {
    seen(match dice.roll(8) {
        0 => How::Exited(1),
        1 => How::TimedOut,
        2 => How::Signalled,
        3 => How::NotStarted,
        4 => How::Exited(77),
        _ => How::Exited(0),
    })
}

/// Takes one drawn step, and returns whether the run goes on.
fn draw_step(rt: &impl Abort, dice: &mut Dice, run: &mut Run) -> bool {
    let worker = dice.roll(4);
    if !run.hands.is_free(worker) {
        if dice.is_one_in(2) {
            end(rt, run, worker, drawn_seen(dice));
        }
        return true;
    }
    if dice.is_one_in(200) {
        run.core.abort();
    }
    match next(rt, run, worker) {
        Step::Waits { .. } => {
            assert!(rt; !run.hands.are_free(), "it waits for nothing");
            true
        }
        Step::IsDone | Step::IsAborted => false,
        _ => true,
    }
}

/// Runs a drawn plan by drawn steps, to its end or up to an abort.
fn drawn_run(rt: &impl Abort, alloc: Global, dice: &mut Dice) -> Result<(Plan, History), NoMemory> {
    let parts = drawn_parts(alloc, dice)?;
    let mut run = open(rt, alloc, parts)?;
    for _ in 0..1000 {
        if !draw_step(rt, dice, &mut run) {
            break;
        }
    }
    close(rt, alloc, run)
}

/// How a history is changed at one of its entries.
#[derive(Clone, Copy, Debug, PartialEq, Eq)]
enum Change {
    LeavesOut,
    Doubles,
    Exchanges,
    OtherTest,
    OtherAttempt,
    OtherWorker,
    OtherCause,
    OtherCard,
    NoPlacement,
}

const CHANGES: [Change; 9] = [
    Change::LeavesOut,
    Change::Doubles,
    Change::Exchanges,
    Change::OtherTest,
    Change::OtherAttempt,
    Change::OtherWorker,
    Change::OtherCause,
    Change::OtherCard,
    Change::NoPlacement,
];

impl Change {
    /// Returns whether this change at this entry makes each history illegal in which each start is
    /// ended. No entry is allowed a second time, and an end fits no other start.
    fn is_always_wrong(self, entry: &Entry) -> bool {
        match self {
            Change::Doubles => true,
            Change::OtherAttempt | Change::OtherWorker | Change::OtherCause => true,
            Change::OtherCard | Change::NoPlacement => true,
            Change::LeavesOut => matches!(entry, Entry::Start { .. }),
            Change::OtherTest => matches!(entry, Entry::Start { .. } | Entry::End { .. }),
            Change::Exchanges => false,
        }
    }
}

pub(crate) fn copies_of(alloc: Global, entries: &[Entry]) -> Result<Vec<Entry>, NoMemory> {
    let mut copies = Vec::new(alloc);
    for entry in entries {
        copies.push(copy_of(alloc, entry)?)?;
    }
    Ok(copies)
}

fn copy_of(alloc: Global, entry: &Entry) -> Result<Entry, NoMemory> {
    Ok(match entry {
        Entry::Start {
            test,
            attempt,
            worker,
            placement,
        } => Entry::Start {
            test: *test,
            attempt: *attempt,
            worker: *worker,
            placement: moved(alloc, placement.as_ref(), 0)?,
        },
        Entry::End {
            test,
            attempt,
            worker,
            seen,
        } => Entry::End {
            test: *test,
            attempt: *attempt,
            worker: *worker,
            seen: *seen,
        },
        Entry::Settle { test, cause } => Entry::Settle {
            test: *test,
            cause: *cause,
        },
        Entry::Stop => Entry::Stop,
    })
}

/// Makes a placement of the same picks, each on the card `by` places behind.
fn moved(
    alloc: Global,
    placement: Option<&Placement>,
    by: u32,
) -> Result<Option<Placement>, NoMemory> {
    let Some(placement) = placement else {
        return Ok(None);
    };
    let mut picks = List::new(alloc);
    for pick in placement.picks.as_slice() {
        picks.push(Pick {
            group: pick.group,
            kind: pick.kind.copy(alloc)?,
            id: pick.id.copy(alloc)?,
            slots: pick.slots,
            resource: pick.resource.wrapping_add(by),
        })?;
    }
    Ok(Some(Placement { picks }))
}

/// Changes an entry in place, and returns whether there was something to change.
fn alter(alloc: Global, entry: &mut Entry, change: Change) -> Result<bool, NoMemory> {
    match change {
        Change::OtherTest => Ok(alter_test(entry)),
        Change::OtherAttempt => Ok(alter_attempt(entry)),
        Change::OtherWorker => Ok(alter_worker(entry)),
        Change::OtherCause => Ok(alter_cause(entry)),
        Change::OtherCard => alter_card(alloc, entry),
        Change::NoPlacement => Ok(drops_placement(entry)),
        Change::LeavesOut | Change::Doubles | Change::Exchanges => Ok(false),
    }
}

fn alter_test(entry: &mut Entry) -> bool {
    match entry {
        Entry::Start { test, .. } | Entry::End { test, .. } | Entry::Settle { test, .. } => {
            *test = *test % 8 + 1;
            true
        }
        Entry::Stop => false,
    }
}

fn alter_attempt(entry: &mut Entry) -> bool {
    match entry {
        Entry::Start { attempt, .. } | Entry::End { attempt, .. } => {
            *attempt = attempt.wrapping_add(1);
            true
        }
        Entry::Settle { .. } | Entry::Stop => false,
    }
}

fn alter_worker(entry: &mut Entry) -> bool {
    match entry {
        Entry::Start { worker, .. } | Entry::End { worker, .. } => {
            *worker = worker.wrapping_add(1);
            true
        }
        Entry::Settle { .. } | Entry::Stop => false,
    }
}

fn alter_cause(entry: &mut Entry) -> bool {
    match entry {
        Entry::Settle { cause, .. } => {
            *cause = other_cause(*cause);
            true
        }
        Entry::Start { .. } | Entry::End { .. } | Entry::Stop => false,
    }
}

fn alter_card(alloc: Global, entry: &mut Entry) -> Result<bool, NoMemory> {
    match entry {
        Entry::Start { placement, .. } => {
            *placement = moved(alloc, placement.as_ref(), 1)?;
            Ok(placement.is_some())
        }
        Entry::End { .. } | Entry::Settle { .. } | Entry::Stop => Ok(false),
    }
}

fn drops_placement(entry: &mut Entry) -> bool {
    match entry {
        Entry::Start { placement, .. } => placement.take().is_some(),
        Entry::End { .. } | Entry::Settle { .. } | Entry::Stop => false,
    }
}

fn other_cause(cause: Cause) -> Cause {
    match cause {
        Cause::Stopped => Cause::NotAvailable,
        Cause::Fixture(number) => Cause::Fixture(number.wrapping_add(1)),
        _ => Cause::Stopped,
    }
}

/// Returns the history with a change at a place, if that changes something.
fn changed(
    alloc: Global,
    entries: &[Entry],
    at: usize,
    change: Change,
) -> Result<Option<History>, NoMemory> {
    let mut copies = copies_of(alloc, entries)?;
    if at < copies.len() && change_at(alloc, &mut copies, at, change)? {
        return Ok(Some(History { entries: copies }));
    }
    Ok(None)
}

/// Changes a history at a place, and returns whether there was something to change.
fn change_at(
    alloc: Global,
    entries: &mut Vec<Entry>,
    at: usize,
    change: Change,
) -> Result<bool, NoMemory>
    requires { at < length entries.old.items }
{
    match change {
        Change::LeavesOut => {
            let _left_out = entries.remove(at);
            Ok(true)
        }
        Change::Doubles => {
            let copy = copy_of(alloc, &entries[at])?;
            entries.insert(at, copy)?;
            Ok(true)
        }
        Change::Exchanges => Ok(exchange(entries, at)),
        _ => alter(alloc, &mut entries[at], change),
    }
}

/// Exchanges an entry for the one in front, if there is one.
fn exchange(entries: &mut Vec<Entry>, at: usize) -> bool
    requires { at < length entries.old.items }
{
    if at == 0 {
        return false;
    }
    entries.swap(at - 1, at);
    true
}

/// How often a change left a history legal, and how often it did not.
#[derive(Drop)]
struct Counts {
    legal: [u32; 9],
    refused: [u32; 9],
}

/// Judges the history with a drawn change at a drawn place.
fn judge_change(
    rt: &impl Abort,
    alloc: Global,
    dice: &mut Dice,
    plan: &Plan,
    entries: &[Entry],
    counts: &mut Counts,
) -> Result<(), NoMemory> {
    if entries.is_empty() {
        return Ok(());
    }
    let at = dice.roll(1000) as usize % entries.len();
    let kind = dice.roll(9) as usize;
    let change = CHANGES[kind];
    if let Some(other) = changed(alloc, entries, at, change)? {
        if judge(alloc, plan, &other)? {
            assert!(rt; !change.is_always_wrong(&entries[at]), "{change:?} at {at}");
            counts.legal[kind] = counts.legal[kind].saturating_add(1);
        } else {
            counts.refused[kind] = counts.refused[kind].saturating_add(1);
        }
    }
    Ok(())
}

/// Judges the history of a drawn run with a change.
fn judge_one(
    rt: &impl Abort,
    alloc: Global,
    dice: &mut Dice,
    counts: &mut Counts,
) -> Result<(), NoMemory> {
    let (plan, history) = drawn_run(rt, alloc, dice)?;
    judge_change(rt, alloc, dice, &plan, history.entries.as_slice(), counts)
}

#[test]
fn drawn_runs_are_legal_and_changed_ones_are_not(rt: HostRuntime) -> Result<(), Fail> {
    let mut dice = Dice::new(2026);
    let mut counts = Counts {
        legal: [0; 9],
        refused: [0; 9],
    };
    for _ in 0..10_000 {
        judge_one(&rt, rt.alloc(), &mut dice, &mut counts)?;
    }
    for kind in 0..9 {
        assert!(rt; 0 < counts.refused[kind], "{:?}", CHANGES[kind]);
    }
    assert!(rt; 0 < counts.legal[0], "the last entry can be left out");
    assert!(rt; 0 < counts.legal[2], "two ends can change places");
    Ok(())
}
