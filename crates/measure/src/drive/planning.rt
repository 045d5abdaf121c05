//! The plan of tests of one kind.

ghost use Rattle.std.specs.Prelude.{◌≤◌, IfOk};
ghost use Rattle.ct_plan.specs.Source.{HaveProps};

use crate::drive::kind::{Kind, name_at};
use anyhow::anyhow;
use ct_base::{List, Name, NoMemory, TestDef};
use ct_cost::CostData;
use ct_history::Plan;
use ct_plan::{PlanFault, plan};
use ct_props::{Choice, PropFault, Props, Wanted};
use ct_spec::{Spec, SpecFault};
use ct_verdict::{Mode, Repeat};
use std::alloc::Global;

/// One card, with 32 slots.
const CARD: &[u8] =
    b"{\"version\":{\"major\":1,\"minor\":0},\"local\":[{\"gpus\":[{\"id\":\"0\",\"slots\":32}]}]}";

/// Tests and their properties, which belong together by place.
#[derive(Drop)]
struct Tests {
    defs: List<TestDef>,
    props: List<Props>,
}

/// Plans a run of so many tests of a kind.
pub fn plan_of(alloc: Global, kind: Kind, count: u32) -> anyhow::Result<Plan> {
    let tests = tests_of(alloc, kind, count).map_err(|_| anyhow!("a test has no properties"))?;
    let card = card(alloc, kind).map_err(|_| anyhow!("the card is not read"))?;
    planned(alloc, &tests, card.as_ref(), kind.level()).map_err(|_| anyhow!(
        "the tests have no plan"
    ))
}

/// Plans a run of these tests, where the card is lent.
fn planned(alloc: Global, tests: &Tests, card: Option<&Spec>, level: u32) -> Result<Plan, PlanFault>
    requires props { HaveProps tests.now.defs tests.now.props }
    requires level { 1 ≤ level }
{
    if tests.defs.len() >= 4_294_967_295 {
        return Err(PlanFault::NoMemory);
    }
    let wanted = wanted(alloc, level)?;
    let costs = CostData::read(alloc, b"")?;
    plan(alloc, &tests.defs, &tests.props, &wanted, card, &costs)
}

/// Makes the tests of a kind.
fn tests_of(alloc: Global, kind: Kind, count: u32) -> Result<Tests, PropFault>
    ensures { IfOk result (λ tests. HaveProps tests.defs tests.props) }
{
    let mut tests = Tests {
        defs: List::new(alloc),
        props: List::new(alloc),
    };
    for place in 0..count {
        let def = def_at(alloc, kind, place, count)?;
        tests.props.push(Props::of(alloc, &def)?)?;
        tests.defs.push(def)?;
    }
    Ok(tests)
}

fn def_at(alloc: Global, kind: Kind, place: u32, count: u32) -> Result<TestDef, NoMemory> {
    let mut props = List::new(alloc);
    if let Some(property) = kind.property(alloc, place, count)? {
        props.push(property)?;
    }
    Ok(TestDef {
        name: name_at(alloc, place)?,
        command: List::new(alloc),
        dir: Name::of(alloc, b".")?,
        props,
        dir_labels: List::new(alloc),
    })
}

/// Every test is wanted, once.
fn wanted(alloc: Global, level: u32) -> Result<Wanted, NoMemory>
    requires { 1 ≤ level }
    ensures level { IfOk result (λ wanted. 1 ≤ wanted.level) }
    ensures times { IfOk result (λ wanted. 1 ≤ wanted.repeat.times) }
{
    let choice = Choice {
        name: None,
        not_name: None,
        labels: List::new(alloc),
        not_labels: List::new(alloc),
        numbers: None,
        union: false,
        keep_any: None,
        keep_setup: None,
        keep_cleanup: None,
        only: None,
    };
    Ok(Wanted {
        dir: Name::of(alloc, b".")?,
        choice,
        level,
        repeat: Repeat {
            mode: Mode::UntilFail,
            times: 1,
        },
        stop_on_failure: false,
    })
}

/// The card that the tests of this kind need.
fn card(alloc: Global, kind: Kind) -> Result<Option<Spec>, SpecFault> {
    match kind {
        Kind::Slots | Kind::Spent => Ok(Some(read_card(alloc, CARD)?)),
        _ => Ok(None),
    }
}

fn read_card(alloc: Global, text: &[u8]) -> Result<Spec, SpecFault> {
    Spec::parse(alloc, text)
}
