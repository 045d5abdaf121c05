//! The plan of a run: its queue, and the locks that its tests share.

ghost use Rattle.ct_plan.specs.Source.{HaveProps};

use crate::entries::text_of;
use crate::planning::{Tests, invocation_of, numbers_told, tests_of};
use crate::row::{Given, RowFault};
use ct_base::Name;
use ct_cost::CostData;
use ct_history::Plan;
use ct_plan::plan;
use ct_props::Wanted;
use std::alloc::{AllocError, Global};

/// Tells the queue of a run.
pub(crate) fn queue(alloc: Global, given: Given<'_>) -> Result<String, RowFault> {
    let plan = plan_of(alloc, given)?;
    queue_told(alloc, &plan)
}

fn queue_told(alloc: Global, plan: &Plan) -> Result<String, RowFault> {
    Ok(numbers_told(alloc, plan.parts().queue.as_slice())?)
}

/// Tells the locks that the tests of a run share.
pub(crate) fn shared(alloc: Global, given: Given<'_>) -> Result<String, RowFault> {
    let plan = plan_of(alloc, given)?;
    shared_told(alloc, &plan)
}

/// Plans tests by words and the cost data of earlier runs.
fn plan_of(alloc: Global, given: Given<'_>) -> Result<Plan, RowFault> {
    let words = given.text("words")?;
    let costs = given.bytes("cost data")?;
    let tests = tests_of(alloc, given.text("tests")?)?;
    plan_by_costs(alloc, &tests, words, costs)
}

fn plan_by_costs(alloc: Global, tests: &Tests, words: &str, costs: &[u8]) -> Result<Plan, RowFault>
    requires { HaveProps tests.now.defs tests.now.props }
{
    let costs = CostData::read(alloc, costs)?;
    plan_by_words(alloc, tests, words, &costs)
}

fn plan_by_words(
    alloc: Global,
    tests: &Tests,
    words: &str,
    costs: &CostData,
) -> Result<Plan, RowFault>
    requires { HaveProps tests.now.defs tests.now.props }
{
    let invocation = invocation_of(alloc, words)?;
    planned(alloc, tests, &invocation.wanted, costs)
}

fn planned(
    alloc: Global,
    tests: &Tests,
    wanted: &Wanted,
    costs: &CostData,
) -> Result<Plan, RowFault>
    requires { HaveProps tests.now.defs tests.now.props }
{
    if tests.defs.len() >= 100 || wanted.level < 1 || wanted.repeat.times < 1 {
        return Err(RowFault::Unfit("words"));
    }
    Ok(plan(alloc, &tests.defs, &tests.props, wanted, None, costs)?)
}

/// Lists the locks that the tests of a plan share, with a `,` behind each.
fn shared_told(alloc: Global, plan: &Plan) -> Result<String, RowFault> {
    let mut told = String::new(alloc);
    for test in plan.parts().tests.as_slice() {
        put_names(&mut told, test.shared.as_slice())?;
    }
    Ok(told)
}

fn put_names(told: &mut String, names: &[Name]) -> Result<(), AllocError> {
    for name in names {
        told.push_str(text_of(name.bytes()))?;
        told.push_str(",")?;
    }
    Ok(())
}
