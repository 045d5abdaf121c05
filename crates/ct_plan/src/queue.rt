ghost use Rattle.std.specs.Prelude.{◌≡◌, ◌<◌, ◌≤◌, All, IfOk, IsPermutation, Some, length, map};
ghost use Rattle.std.specs.List.Sorted.{IsSortedBy};
ghost use Rattle.ct_history.specs.Plan.{IsAscendingFrom, enabled};
ghost use Rattle.ct_plan.specs.Linked.{standing_in};
ghost use Rattle.ct_plan.specs.Queue.{IsQueue, is_more_urgent};

use crate::standing::Standing;
use ct_base::{List, NoMemory, TestDef};
use ct_cost::CostData;
use ct_history::PlanTest;
use ct_props::Props;
use std::alloc::Global;

/// Returns the numbers of the tests that are not disabled, in the
/// order in which they are looked at.
///
/// Source: CMake manual, cmake-properties(7), COST; ctest(1), -j.
pub(crate) fn queue(
    alloc: Global,
    defs: &[TestDef],
    props: &[Props],
    level: u32,
    costs: &CostData,
    tests: &[PlanTest],
) -> Result<List<u32>, NoMemory>
    requires paired { length props.now ≡ length defs.now }
    requires ascending { IsAscendingFrom 1 (map (λ t. t.number) tests.now) }
    requires within { All (λ number. (0 < number) × (number ≤ length defs.now)) (map (λ t. t.number) tests.now) }
    ensures { IfOk result (IsQueue level (standing_in defs.now props.now costs.now) tests.now) }
{
    let numbers = enabled_numbers(alloc, tests)?;
    if level == 1 {
        return Ok(numbers);
    }
    let standings = sorted(standings(alloc, defs, props, costs, numbers.as_slice())?);
    numbers_of(alloc, standings.as_slice())
}

/// Returns the numbers of the tests that are not disabled, in order.
pub(crate) fn enabled_numbers(alloc: Global, tests: &[PlanTest]) -> Result<List<u32>, NoMemory>
    ensures { IfOk result (λ numbers. numbers ≡ map (λ t. t.number) (enabled tests.now)) }
{
    let mut numbers = List::new(alloc);
    for test in tests {
        if !test.disabled {
            numbers.push(test.number)?;
        }
    }
    Ok(numbers)
}

/// Returns the standing of each of these tests.
fn standings(
    alloc: Global,
    defs: &[TestDef],
    props: &[Props],
    costs: &CostData,
    numbers: &[u32],
) -> Result<Vec<Standing>, NoMemory>
    requires paired { length props.now ≡ length defs.now }
    requires within { All (λ number. (0 < number) × (number ≤ length defs.now)) numbers.now }
    ensures { IfOk result (λ standings. map Some standings.items ≡ map (standing_in defs.now props.now costs.now) numbers.now) }
{
    let mut standings = Vec::new(alloc);
    for number in numbers {
        let at = *number as usize - 1;
        standings.push(Standing::of(*number, &defs[at], &props[at], costs))?;
    }
    Ok(standings)
}

pub(crate) fn sorted(standings: Vec<Standing>) -> Vec<Standing>
    ensures same { IsPermutation standings.items result.items }
    ensures sorted { IsSortedBy is_more_urgent result.items }
{
    let mut standings = standings;
    standings.sort_unstable_by(|one, other| one.compare(other));
    standings
}

pub(crate) fn numbers_of(alloc: Global, standings: &[Standing]) -> Result<List<u32>, NoMemory>
    ensures { IfOk result (λ numbers. numbers ≡ map (λ s. s.number) standings.now) }
{
    let mut numbers = List::new(alloc);
    for standing in standings {
        numbers.push(standing.number)?;
    }
    Ok(numbers)
}
