ghost use Rattle.std.specs.Prelude.{◌≡◌, ◌<◌, ◌-◌, ◌^◌, length, IfOk};
ghost use Rattle.ct_select.specs.Chosen.{by_number as numbered_by, chosen_tests, is_chosen as is_chosen_by, is_chosen_by_options as options_choose};
ghost use Rattle.ct_select.specs.Others.{HasOthers};
ghost use Rattle.ct_select.specs.Names.{HasNames};
ghost use Rattle.ct_select.specs.Matching.{AreMatchersOf};

use crate::names::names_of;
use crate::numbers::{by_number, others_of};
use crate::patterns::{Matchers, admit, hit_labels, is_left_out, name_hit};
use ct_base::{List, NoMemory, TestDef};
use ct_props::{Choice, Props};
use std::alloc::Global;
use std::collections::BTreeSet;

/// Chooses the tests that a run is asked for, and gives their numbers in order.
///
/// Numbers count from 1, in the order of definition. The tests and their properties belong together
/// by place.
///
/// Where a choice has `only`, a test is chosen by its name alone.
///
/// Source: CMake manual, ctest(1), -R, -E, -L, -LE, -I, -U, --rerun-failed. That -U asks for one of
/// the two where both -R and -I are given, and that --rerun-failed goes by names, is this project's
/// choice.
pub fn select(
    alloc: Global,
    defs: &List<TestDef>,
    props: &List<Props>,
    choice: &Choice,
) -> Result<List<u32>, NoMemory>
    requires together { length defs.now ≡ length props.now }
    requires few { length defs.now < 2 ^ 32 - 1 }
    ensures { IfOk result (λ chosen. chosen ≡ chosen_tests defs.now props.now choice.now) }
{
    let sets = Sets::of(alloc, choice)?;
    let mut matchers = Matchers::of(alloc, choice)?;
    choose(
        alloc,
        defs.as_slice(),
        props.as_slice(),
        choice,
        &sets,
        &mut matchers,
    )
}

/// The names and the numbers that a choice asks for, kept to be looked up.
#[derive(Drop)]
struct Sets<'a> {
    names: BTreeSet<&'a [u8]>,
    others: BTreeSet<u32>,
}

impl<'a> Sets<'a> {
    /// Collects the names and the numbers.
    fn of(alloc: Global, choice: &'a Choice) -> Result<Sets<'a>, NoMemory>
        ensures names { IfOk result (λ sets. HasNames choice.now sets.names) }
        ensures others { IfOk result (λ sets. HasOthers choice.now sets.others) }
    {
        Ok(Sets {
            names: names_of(alloc, choice)?,
            others: others_of(alloc, choice)?,
        })
    }
}

/// Chooses the tests, with the sets and the matchers of the choice.
fn choose<'a>(
    alloc: Global,
    defs: &'a [TestDef],
    props: &[Props],
    choice: &Choice,
    sets: &Sets<'a>,
    matchers: &mut Matchers<'_>,
) -> Result<List<u32>, NoMemory>
    requires together { length defs.now ≡ length props.now }
    requires few { length defs.now < 2 ^ 32 - 1 }
    requires names { HasNames choice.now sets.now.names }
    requires others { HasOthers choice.now sets.now.others }
    requires matchers { AreMatchersOf choice.now matchers.old }
    ensures { IfOk result (λ chosen. chosen ≡ chosen_tests defs.now props.now choice.now) }
{
    let count = defs.len() as u32;
    let mut chosen = List::new(alloc);
    for at in 0..defs.len() {
        let number = at as u32 + 1;
        let numbered = by_number(choice, &sets.others, count, number);
        if is_chosen(
            choice,
            &sets.names,
            matchers,
            numbered,
            &defs[at],
            &props[at],
        ) {
            chosen.push(number)?;
        }
    }
    Ok(chosen)
}

/// Returns whether a test is chosen. `numbered` is what -I says of it, where -I was given.
///
/// Where names alone are asked for, no pattern is tried.
fn is_chosen<'a>(
    choice: &Choice,
    names: &BTreeSet<&'a [u8]>,
    matchers: &mut Matchers<'_>,
    numbered: Option<bool>,
    def: &'a TestDef,
    own: &Props,
) -> bool
    requires names { HasNames choice.now names.now }
    requires matchers { AreMatchersOf choice.now matchers.old }
    ensures chosen { result ≡ is_chosen_by choice.now numbered def.now own.now }
    ensures kept { AreMatchersOf choice.now matchers.new }
{
    match &choice.only {
        Some(_) => names.contains(&def.name.bytes()),
        None => is_chosen_by_options(choice, matchers, numbered, def, own),
    }
}

/// Returns whether the options choose a test.
fn is_chosen_by_options(
    choice: &Choice,
    matchers: &mut Matchers<'_>,
    numbered: Option<bool>,
    def: &TestDef,
    own: &Props,
) -> bool
    requires { AreMatchersOf choice.now matchers.old }
    ensures chosen { result ≡ options_choose choice.now numbered def.now own.now }
    ensures kept { AreMatchersOf choice.now matchers.new }
{
    let named = name_hit(&mut matchers.name, &def.name);
    if !admit(choice.union, named, numbered) {
        return false;
    }
    if name_hit(&mut matchers.not_name, &def.name).unwrap_or(false) {
        return false;
    }
    let labels = own.labels.as_slice();
    if !hit_labels(&mut matchers.labels, labels) {
        return false;
    }
    !is_left_out(&mut matchers.not_labels, labels)
}
