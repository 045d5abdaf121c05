ghost use Rattle.std.specs.Prelude.{◌≡◌, ◌↔◌, ◌<◌, ◌^◌, IfOk, IsTrue, Some, length, map, option_and_then, slice_get};
ghost use Rattle.std.specs.Option.{option_copied};
ghost use Rattle.ct_core.specs.Lines.{AreLinesOf, AskAlike, demand_at, demand_of};
ghost use Rattle.ct_history.specs.Plan.{IsAscendingFrom, test_at};

use ct_base::{List, Name, Need, NoMemory};
use ct_history::{PlanParts, PlanTest, place_of};
use indexmap::IndexMap;
use std::alloc::Global;

/// Lists the line of each test of the queue: the place of the first test with the same demand.
///
/// A line is looked up by a text of the demand, and the tests are then compared.
/// If different demands share a text, there are more lines, but no wrong one.
pub(crate) fn lines_of(alloc: Global, plan: &PlanParts) -> Result<List<u32>, NoMemory>
    requires ascends { IsAscendingFrom 1 (map (λ t. t.number) plan.now.tests) }
    requires few { length plan.now.queue < 2 ^ 32 }
    ensures { IfOk result (AreLinesOf plan.now) }
{
    let mut known = IndexMap::new(alloc);
    list_lines(alloc, plan, &mut known)
}

/// Lists the line of each test of the queue; each becomes known by the text of its demand.
fn list_lines(
    alloc: Global,
    plan: &PlanParts,
    known: &mut IndexMap<Vec<u8>, u32>,
) -> Result<List<u32>, NoMemory>
    requires ascends { IsAscendingFrom 1 (map (λ t. t.number) plan.now.tests) }
    requires few { length plan.now.queue < 2 ^ 32 }
    ensures { IfOk result (AreLinesOf plan.now) }
{
    let mut lines = List::new(alloc);
    for place in 0..plan.queue.len() {
        let line = line_of(alloc, plan, known, place as u32)?;
        lines.push(line)?;
    }
    Ok(lines)
}

/// Returns the line of the test at a place: a known line, or a new one, which is stored under the test's
/// text.
fn line_of(
    alloc: Global,
    plan: &PlanParts,
    known: &mut IndexMap<Vec<u8>, u32>,
    place: u32,
) -> Result<u32, NoMemory>
    requires ascends { IsAscendingFrom 1 (map (λ t. t.number) plan.now.tests) }
    requires within { place < length plan.now.queue }
    ensures within { IfOk result (λ line. line < length plan.now.queue) }
    ensures alike { IfOk result (λ line. demand_at plan.now line ≡ demand_at plan.now place) }
{
    let Some(test) = test_in(plan, place) else {
        return Ok(place);
    };
    let text = text_of(alloc, test)?;
    if let Some(line) = known.get(text.as_slice()) {
        if is_line_for(plan, *line, test) {
            return Ok(*line);
        }
    }
    known.insert(text, place)?;
    Ok(place)
}

/// Returns whether the test at this place of the queue has the same demand.
fn is_line_for(plan: &PlanParts, line: u32, test: &PlanTest) -> bool
    requires { IsAscendingFrom 1 (map (λ t. t.number) plan.now.tests) }
    ensures { IsTrue result → demand_at plan.now line ≡ Some (demand_of test.now) }
{
    match test_in(plan, line) {
        Some(other) => asks_alike(other, test),
        None => false,
    }
}

/// Looks up the test at a place of the queue.
pub(crate) fn test_in(plan: &PlanParts, place: u32) -> Option<&PlanTest>
    requires { IsAscendingFrom 1 (map (λ t. t.number) plan.now.tests) }
    ensures { option_copied result ≡ option_and_then (test_at plan.now.tests) (slice_get plan.now.queue place) }
{
    let number = plan.queue.get(place as usize)?;
    let tests = plan.tests.as_slice();
    let here = place_of(tests, *number)?;
    Some(&tests[here])
}

/// Returns whether two tests have the same demand.
fn asks_alike(one: &PlanTest, other: &PlanTest) -> bool
    ensures { IsTrue result ↔ AskAlike one.now other.now }
{
    one.processors == other.processors
        && one.serial == other.serial
        && are_same_names(one.locks.as_slice(), other.locks.as_slice())
        && are_same_names(one.shared.as_slice(), other.shared.as_slice())
        && are_same_needs(one.needs.as_slice(), other.needs.as_slice())
}

fn are_same_names(names: &[Name], others: &[Name]) -> bool
    ensures { IsTrue result ↔ names.now ≡ others.now }
{
    if names.len() != others.len() {
        return false;
    }
    for at in 0..names.len() {
        if !names[at].is(&others[at]) {
            return false;
        }
    }
    true
}

fn are_same_needs(needs: &[Need], others: &[Need]) -> bool
    ensures { IsTrue result ↔ needs.now ≡ others.now }
{
    if needs.len() != others.len() {
        return false;
    }
    for at in 0..needs.len() {
        if !is_same_need(&needs[at], &others[at]) {
            return false;
        }
    }
    true
}

fn is_same_need(need: &Need, other: &Need) -> bool
    ensures { IsTrue result ↔ need.now ≡ other.now }
{
    need.group == other.group && need.slots == other.slots && need.kind.is(&other.kind)
}

/// Writes the demand of a test as a text, the same text for the same demand.
fn text_of(alloc: Global, test: &PlanTest) -> Result<Vec<u8>, NoMemory> {
    let mut text = Vec::from_slice(alloc, &test.processors.to_le_bytes())?;
    text.push(u8::from(test.serial))?;
    put_locks(&mut text, test.locks.as_slice())?;
    text.push(0)?;
    put_locks(&mut text, test.shared.as_slice())?;
    put_needs(&mut text, test.needs.as_slice())?;
    Ok(text)
}

fn put_locks(text: &mut Vec<u8>, locks: &[Name]) -> Result<(), NoMemory> {
    for lock in locks {
        text.extend_from_slice(lock.bytes())?;
        text.push(0)?;
    }
    Ok(())
}

fn put_needs(text: &mut Vec<u8>, needs: &[Need]) -> Result<(), NoMemory> {
    for need in needs {
        text.push(0)?;
        text.extend_from_slice(&need.group.to_le_bytes())?;
        text.extend_from_slice(&need.slots.to_le_bytes())?;
        text.extend_from_slice(need.kind.bytes())?;
    }
    Ok(())
}
