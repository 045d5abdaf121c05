ghost use Rattle.std.specs.Prelude.{◌≡◌, ◌<◌, ◌≤◌, ◌-◌, ◌^◌, All, IfOk, IfSome, OnOk, length};
ghost use Rattle.std.specs.Option.{option_copied};
ghost use Rattle.ct_base.specs.Resources.{AreDistinct};
ghost use Rattle.ct_graph.specs.Cycle.{HasCycle};
ghost use Rattle.ct_graph.specs.Order.{IsOrder, most_edges};
ghost use Rattle.ct_alloc.specs.Lent.{lent};
ghost use Rattle.ct_plan.specs.Linked.{IsUnused};
ghost use Rattle.ct_plan.specs.PlanOf.{IsPlanAnswer, IsPlanOf};
ghost use Rattle.ct_plan.specs.Source.{members_before, members_in, run_members, source};

use crate::PlanFault;
use crate::planned::plan_tests;
use crate::queue::queue;
use ct_alloc::Free;
use ct_base::{List, NoMemory, Resource, TestDef};
use ct_cost::CostData;
use ct_fixture::draw_in;
use ct_graph::{Links, order};
use ct_history::{Plan, PlanParts};
use ct_props::{Choice, Props, Wanted};
use ct_select::select;
use ct_spec::Spec;
use std::alloc::Global;

/// Plans a run: the chosen tests and those that fixtures draw in, in the order that DEPENDS and
/// fixtures ask for, each with what its properties say.
///
/// The properties at a place are those of the test at that place; each has at least one processor.
/// Where a specification is given, its resources are lent, and a test whose needs fit nowhere on
/// them is not run. A cycle is refused with its tests. More than `ct_graph::MOST_EDGES` edges are
/// refused too.
///
/// Source: CMake manual, ctest(1), Run Tests and Resource Allocation; cmake-properties(7), Properties
/// on Tests.
pub fn plan(
    alloc: Global,
    defs: &List<TestDef>,
    props: &List<Props>,
    wanted: &Wanted,
    spec: Option<&Spec>,
    costs: &CostData,
) -> Result<Plan, PlanFault>
    requires few { length defs.now < 2 ^ 32 - 1 }
    requires paired { length props.now ≡ length defs.now }
    requires processors { All (λ own. 1 ≤ own.processors) props.now }
    requires level { 1 ≤ wanted.now.level }
    requires times { 1 ≤ wanted.now.repeat.times }
    ensures answer { IsPlanAnswer most_edges (source defs.now props.now wanted.now (option_copied spec.entry) costs.now) result }
    ensures none { OnOk result (HasCycle (members_before (source defs.now props.now wanted.now (option_copied spec.entry) costs.now)) → ⊥) }
{
    let members = members(alloc, defs, props, &wanted.choice)?;
    let ordered = order(alloc, defs, props, &members)?;
    Ok(plan_in_order(alloc, defs, props, wanted, spec, costs, ordered.links)?)
}

/// Returns the numbers of the tests that are chosen, and of those that fixtures draw in, in order.
///
/// The properties at a place are those of the test at that place.
///
/// Source: CMake manual, ctest(1), Options; cmake-properties(7), FIXTURES_REQUIRED.
pub fn members(
    alloc: Global,
    defs: &List<TestDef>,
    props: &List<Props>,
    choice: &Choice,
) -> Result<List<u32>, NoMemory>
    requires few { length defs.now < 2 ^ 32 - 1 }
    requires paired { length props.now ≡ length defs.now }
    ensures { IfOk result (λ members. members ≡ members_in choice.now defs.now props.now) }
{
    let chosen = select(alloc, defs, props, choice)?;
    draw_in(alloc, props, &chosen, choice)
}

/// Plans the tests of the run in the order that these links give.
fn plan_in_order(
    alloc: Global,
    defs: &List<TestDef>,
    props: &List<Props>,
    wanted: &Wanted,
    spec: Option<&Spec>,
    costs: &CostData,
    links: List<Links>,
) -> Result<Plan, NoMemory>
    requires paired { length props.now ≡ length defs.now }
    requires processors { All (λ own. 1 ≤ own.processors) props.now }
    requires level { 1 ≤ wanted.now.level }
    requires times { 1 ≤ wanted.now.repeat.times }
    requires order { IsOrder defs.now props.now (run_members (source defs.now props.now wanted.now (option_copied spec) costs.now)) links }
    ensures { IfOk result (IsPlanOf (source defs.now props.now wanted.now (option_copied spec.entry) costs.now)) }
{
    let dir = wanted.dir.copy(alloc)?;
    let resources = copied(alloc, spec)?;
    let free = unused(alloc, spec)?;
    let (defs, props) = (defs.as_slice(), props.as_slice());
    let tests = plan_tests(alloc, defs, props, wanted.level, free.as_ref(), links)?;
    let queue = queue(alloc, defs, props, wanted.level, costs, tests.as_slice())?;
    Ok(Plan::new(PlanParts {
        dir,
        tests,
        queue,
        resources,
        level: wanted.level,
        repeat: wanted.repeat,
        stop_on_failure: wanted.stop_on_failure,
    }))
}

/// Copies the resources of a specification, where one is given.
fn copied(alloc: Global, spec: Option<&Spec>) -> Result<Option<List<Resource>>, NoMemory>
    ensures whole { IfOk result (λ resources. resources ≡ option_copied spec.entry) }
    ensures distinct { IfOk result (λ resources. IfSome resources AreDistinct) }
{
    match spec {
        None => Ok(None),
        Some(spec) => Ok(Some(copied_resources(alloc, spec.resources().as_slice())?)),
    }
}

pub(crate) fn copied_resources(
    alloc: Global,
    resources: &[Resource],
) -> Result<List<Resource>, NoMemory>
    ensures { IfOk result (λ copies. copies ≡ resources.now) }
{
    let mut copies = List::new(alloc);
    for resource in resources {
        copies.push(resource.copy(alloc)?)?;
    }
    Ok(copies)
}

/// Returns what is free of the resources of a specification, if one
/// is given, before a test runs: all.
fn unused(alloc: Global, spec: Option<&Spec>) -> Result<Option<Free>, NoMemory>
    ensures whole { IfOk result (λ free. lent free ≡ option_copied spec.entry) }
    ensures unused { IfOk result (λ free. IfSome free IsUnused) }
{
    match spec {
        None => Ok(None),
        Some(spec) => Ok(Some(all_free(alloc, spec.resources())?)),
    }
}

/// Returns what is free of resources of which nothing is used. More resources than a place can
/// count are beyond any memory.
fn all_free(alloc: Global, resources: &List<Resource>) -> Result<Free, NoMemory>
    ensures whole { IfOk result (λ free. free.resources ≡ resources.now) }
    ensures unused { IfOk result IsUnused }
{
    if resources.len() >= u32::MAX as usize {
        return Err(NoMemory);
    }
    Free::all(alloc, resources)
}
