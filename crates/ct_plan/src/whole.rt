ghost use Rattle.std.specs.Prelude.{◌≡◌, ◌+◌, ◌-◌, ◌<◌, ◌≤◌, ◌^◌, ◌++◌, All, IfOk, IfSome, OnOk, Some, length, map};
ghost use Rattle.std.specs.Option.{option_copied};
ghost use Rattle.ct_history.specs.Parts.{renumbered};
ghost use Rattle.ct_history.specs.Plan.{IsSound, enabled};
ghost use Rattle.ct_plan.specs.Queue.{IsQueue};
ghost use Rattle.ct_plan.specs.Whole.{AreTreeParts, IsPlannedTree, IsWholePlan, RunAlike, StaysNumbered, defined_in, standing_behind, standing_in_trees, tests_of_trees};

use crate::planned::copy_needs;
use crate::planning::copied_resources;
use crate::queue::{enabled_numbers, numbers_of, sorted};
use crate::standing::Standing;
use ct_base::{List, NoMemory, Resource, TestDef, copy_names};
use ct_cost::CostData;
use ct_history::{Plan, PlanParts, PlanTest};
use ct_props::Props;
use std::alloc::Global;

/// One of several trees: its tests and their properties, what earlier runs of it cost, and its plan.
///
/// The properties at a place are those of the test at that place.
#[derive(Drop)]
pub struct Tree {
    pub defs: List<TestDef>,
    pub props: List<Props>,
    pub costs: CostData,
    pub plan: Plan,
}

/// Plans the tests of several trees as those of one run.
///
/// A test gets the number of its tree's plan plus the number of tests that the trees in front define.
/// The queue has the tests of all trees in one order. The folder is that of the first tree.
///
/// Source: this project's choice.
pub fn whole_plan(alloc: Global, trees: &[Tree]) -> Result<Plan, NoMemory>
    requires trees { All IsPlannedTree trees.now }
    requires alike { RunAlike trees.now }
    requires few { defined_in trees.now < 2 ^ 32 - 1 }
    ensures whole { IfOk result (IsWholePlan trees.now) }
    ensures parts { IfOk result (λ plan. AreTreeParts plan 0 trees.now) }
{
    let first = trees[0].plan.parts();
    let tests = whole_tests(alloc, trees)?;
    let queue = whole_queue(alloc, trees, first.level, tests.as_slice())?;
    let dir = first.dir.copy(alloc)?;
    let resources = copied_if_given(alloc, first.resources.as_ref())?;
    Ok(Plan::new(PlanParts {
        dir,
        tests,
        queue,
        resources,
        level: first.level,
        repeat: first.repeat,
        stop_on_failure: first.stop_on_failure,
    }))
}

fn copied_if_given(
    alloc: Global,
    resources: Option<&List<Resource>>,
) -> Result<Option<List<Resource>>, NoMemory>
    ensures { IfOk result (λ copies. copies ≡ option_copied resources.entry) }
{
    match resources {
        None => Ok(None),
        Some(resources) => Ok(Some(copied_resources(alloc, resources.as_slice())?)),
    }
}

/// Returns the tests of all trees under their new numbers. Each tree's plan is sound.
fn whole_tests(alloc: Global, trees: &[Tree]) -> Result<List<PlanTest>, NoMemory>
    requires trees { All IsPlannedTree trees.now }
    requires few { defined_in trees.now < 2 ^ 32 - 1 }
    ensures tests { IfOk result (λ tests. tests ≡ tests_of_trees 0 trees.now) }
    ensures sound { IfOk result (λ tests. All (λ tree. IsSound tree.plan) trees.now) }
{
    let mut tests = List::new(alloc);
    let mut offset = 0;
    for tree in trees {
        add_tests(
            alloc,
            &mut tests,
            tree.plan.parts().tests.as_slice(),
            offset,
        )?;
        offset += tree.defs.len() as u32;
    }
    Ok(tests)
}

/// Adds these tests, with their numbers raised by the offset.
fn add_tests(
    alloc: Global,
    tests: &mut List<PlanTest>,
    more: &[PlanTest],
    offset: u32,
) -> Result<(), NoMemory>
    requires few { All (StaysNumbered offset) more.now }
    ensures { OnOk result (tests.new ≡ tests.old ++ map (renumbered offset) more.now) }
{
    for test in more {
        tests.push(copy_raised(alloc, test, offset)?)?;
    }
    Ok(())
}

/// Copies a test, with its numbers raised by the offset.
fn copy_raised(alloc: Global, test: &PlanTest, offset: u32) -> Result<PlanTest, NoMemory>
    requires few { StaysNumbered offset test.now }
    ensures { IfOk result (λ copy. copy ≡ renumbered offset test.now) }
{
    Ok(PlanTest {
        number: test.number + offset,
        name: test.name.copy(alloc)?,
        disabled: test.disabled,
        processors: test.processors,
        locks: copy_names(alloc, test.locks.as_slice())?,
        shared: copy_names(alloc, test.shared.as_slice())?,
        serial: test.serial,
        rules: test.rules,
        needs: copy_needs(alloc, test.needs.as_slice())?,
        before: raised(alloc, test.before.as_slice(), offset)?,
        setups: raised(alloc, test.setups.as_slice(), offset)?,
        rank: test.rank,
        fixed: test.fixed,
        labels: copy_names(alloc, test.labels.as_slice())?,
    })
}

fn raised(alloc: Global, numbers: &[u32], offset: u32) -> Result<List<u32>, NoMemory>
    requires few { All (λ n. n + offset < 2 ^ 32) numbers.now }
    ensures { IfOk result (λ raised. raised ≡ map (λ n. n + offset) numbers.now) }
{
    let mut raised = List::new(alloc);
    for number in numbers {
        raised.push(*number + offset)?;
    }
    Ok(raised)
}

/// Returns the numbers of the tests of all trees that are not disabled, in the order in which they
/// are looked at.
fn whole_queue(
    alloc: Global,
    trees: &[Tree],
    level: u32,
    tests: &[PlanTest],
) -> Result<List<u32>, NoMemory>
    requires trees { All IsPlannedTree trees.now }
    requires sound { All (λ tree. IsSound tree.plan) trees.now }
    requires few { defined_in trees.now < 2 ^ 32 - 1 }
    requires tests { tests.now ≡ tests_of_trees 0 trees.now }
    ensures { IfOk result (IsQueue level (standing_in_trees 0 trees.now) tests.now) }
{
    if level == 1 {
        return enabled_numbers(alloc, tests);
    }
    let standings = sorted(whole_standings(alloc, trees)?);
    numbers_of(alloc, standings.as_slice())
}

/// Returns the standings of the tests of all trees that are not disabled.
fn whole_standings(alloc: Global, trees: &[Tree]) -> Result<Vec<Standing>, NoMemory>
    requires trees { All IsPlannedTree trees.now }
    requires sound { All (λ tree. IsSound tree.plan) trees.now }
    requires few { defined_in trees.now < 2 ^ 32 - 1 }
    ensures { IfOk result (λ standings. map Some standings.items ≡ map (standing_in_trees 0 trees.now) (map (λ t. t.number) (enabled (tests_of_trees 0 trees.now)))) }
{
    let mut standings = Vec::new(alloc);
    let mut offset = 0;
    for tree in trees {
        let numbers = enabled_numbers(alloc, tree.plan.parts().tests.as_slice())?;
        add_standings(&mut standings, tree, numbers.as_slice(), offset)?;
        offset += tree.defs.len() as u32;
    }
    Ok(standings)
}

/// Adds the standings of the tests of a tree with these numbers, which are raised by the offset.
fn add_standings(
    standings: &mut Vec<Standing>,
    tree: &Tree,
    numbers: &[u32],
    offset: u32,
) -> Result<(), NoMemory>
    requires paired { length tree.now.props ≡ length tree.now.defs }
    requires within { All (λ number. (0 < number) × (number ≤ length tree.now.defs)) numbers.now }
    requires few { length tree.now.defs + offset < 2 ^ 32 }
    ensures { OnOk result (map Some standings.new.items ≡ map Some standings.old.items ++ map (standing_behind offset tree.now.defs tree.now.props tree.now.costs) numbers.now) }
{
    let (defs, props) = (tree.defs.as_slice(), tree.props.as_slice());
    for number in numbers {
        let at = *number as usize - 1;
        let standing = Standing::of(*number + offset, &defs[at], &props[at], &tree.costs);
        standings.push(standing)?;
    }
    Ok(())
}
