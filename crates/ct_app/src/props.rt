ghost use Rattle.std.specs.Prelude.{◌≡◌, ◌-◌, ◌^◌, ◌<◌, IfOk, IfErr, length, map};
ghost use Rattle.std.specs.Option.{option_copied};
ghost use Rattle.ct_props.specs.Numbered.{at_number};
ghost use Rattle.ct_plan.specs.Source.{HaveProps};
ghost use Rattle.ct_props.specs.PropsOf.{HasProps};
ghost use Rattle.ct_app.specs.Outcome.{outcome_of_prop};
ghost use Rattle.ct_app.specs.Tests.{IsUnrefused, RefusesTest, RefusesTests, without_links};

use crate::{Outcome, Refusal};
use ct_base::{List, TestDef};
use ct_props::{PropFault, Props};
use std::alloc::Global;

/// The tests of a call and their properties, in the same order.
#[derive(Drop)]
pub struct Tests {
    pub defs: List<TestDef>,
    pub props: List<Props>,
}

/// Looks up the item of a list for the test with this number.
pub(crate) fn at_number<T>(items: &[T], number: u32) -> Option<&T>
    ensures { option_copied result ≡ at_number items.now number }
{
    let place = number.checked_sub(1)?;
    items.get(place as usize)
}

/// Drops the names that link tests, which nothing needs behind a plan. They may take most of the memory.
pub(crate) fn without_links(alloc: Global, tests: Tests) -> Tests
    ensures { result ≡ record { defs = tests.defs; props = map without_links tests.props } }
{
    let Tests { defs, props } = tests;
    let mut props = props.into_vec();
    for own in props.iter_mut() {
        drop_links(alloc, own);
    }
    Tests {
        defs,
        props: List::from_vec(props),
    }
}

/// Drops what the test depends on, and its fixtures.
fn drop_links(alloc: Global, own: &mut Props)
    ensures { own.new ≡ without_links own.old }
{
    own.depends = List::new(alloc);
    own.setup = List::new(alloc);
    own.required = List::new(alloc);
    own.cleanup = List::new(alloc);
}

/// Reads the properties of each test, or refuses the first test that has a bad property.
#[tactic(auto, using(crate::proofs::TestLemmas::read_all, crate::proofs::TestLemmas::read_none, crate::proofs::TestLemmas::refuses))]
pub(crate) fn read_props(alloc: Global, defs: &[TestDef]) -> Result<List<Props>, Outcome>
    requires { length defs.now < 2 ^ 32 - 1 }
    ensures ok { IfOk result (λ props. HaveProps defs.now props) }
    ensures err { IfErr result (RefusesTests defs.now) }
{
    let mut props = List::new(alloc);
    let mut number: u32 = 1;
    for def in defs {
        let own = props_of(alloc, number, def)?;
        props.push(own)?;
        number += 1;
    }
    Ok(props)
}

/// Reads the properties of the test with this number.
#[tactic(auto, using(crate::proofs::TestLemmas::refuses_as))]
fn props_of(alloc: Global, number: u32, def: &TestDef) -> Result<Props, Outcome>
    ensures ok { IfOk result (HasProps def.now) }
    ensures unrefused { IfOk result (λ props. IsUnrefused def.now) }
    ensures err { IfErr result (RefusesTest number def.now) }
{
    match Props::of(alloc, def) {
        Ok(props) => Ok(props),
        Err(fault) => Err(refusal(number, fault)),
    }
}

/// Turns a fault of a test's properties into the outcome of the call.
fn refusal(test: u32, fault: PropFault) -> Outcome
    ensures { result ≡ outcome_of_prop test fault }
{
    match fault {
        PropFault::Bad { key, kind } => Outcome::Refused(Refusal::Prop { test, key, kind }),
        PropFault::NoMemory => Outcome::Memory,
    }
}
