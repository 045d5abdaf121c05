ghost use Rattle.std.specs.Prelude.{◌≡◌, ◌<◌, ◌≤◌, ◌^◌, All, IfOk, IfSome, None, length, map};
ghost use Rattle.std.specs.Option.{option_copied};
ghost use Rattle.ct_alloc.specs.Lent.{lent};
ghost use Rattle.ct_plan.specs.Linked.{AreLinked, IsUnused, test_from};
ghost use Rattle.ct_plan.specs.Planned.{ArePlaceable, IsFixed, IsFixedBy, is_not_available as stands_for_none, own_cause as cause_of_words, rules_of, without as names_without};

use ct_alloc::Free;
use ct_base::{List, Name, Need, NoMemory, TestDef, copy_names, name_set};
use ct_env::bad_operation;
use ct_graph::Links;
use ct_history::PlanTest;
use ct_props::Props;
use ct_verdict::{Cause, Rules};
use std::alloc::Global;

/// Plans the tests with these links, at `level` processors. `free` is what is free of the
/// resources that are lent: all of them.
pub(crate) fn plan_tests(
    alloc: Global,
    defs: &[TestDef],
    props: &[Props],
    level: u32,
    free: Option<&Free>,
    links: List<Links>,
) -> Result<List<PlanTest>, NoMemory>
    requires paired { length props.now ≡ length defs.now }
    requires within { All (λ number. (0 < number) × (number ≤ length defs.now)) (map (λ l. l.number) links) }
    requires unused { IfSome (option_copied free) IsUnused }
    ensures { IfOk result (AreLinked (lent (option_copied free.entry)) level defs.now props.now links) }
{
    let mut tests = List::from_vec(Vec::with_capacity(alloc, links.len())?);
    for links in links.into_vec() {
        let at = links.number as usize - 1;
        let (def, own) = (&defs[at], &props[at]);
        let fixed = fixed(alloc, def, own, free)?;
        tests.push(plan_test(alloc, def, own, level, links, fixed)?)?;
    }
    Ok(tests)
}

/// Plans one test, with the cause that keeps it from running, if there is one.
fn plan_test(
    alloc: Global,
    def: &TestDef,
    own: &Props,
    level: u32,
    links: Links,
    fixed: Option<Cause>,
) -> Result<PlanTest, NoMemory>
    ensures { IfOk result (λ test. test ≡ test_from level links def.now own.now fixed) }
{
    Ok(PlanTest {
        number: links.number,
        name: def.name.copy(alloc)?,
        disabled: own.disabled,
        processors: own.processors.min(level),
        locks: copy_names(alloc, own.locks.as_slice())?,
        shared: without(alloc, own.locks.as_slice(), own.shared.as_slice())?,
        serial: own.serial,
        rules: rules(own),
        needs: copy_needs(alloc, own.groups.needs().as_slice())?,
        before: links.before,
        setups: links.setups,
        rank: links.rank,
        fixed,
        labels: copy_names(alloc, own.labels.as_slice())?,
    })
}

/// Copies the names that are none of the locks.
fn without(alloc: Global, locks: &[Name], names: &[Name]) -> Result<List<Name>, NoMemory>
    ensures { IfOk result (λ copies. copies ≡ names_without locks.now names.now) }
{
    let held = name_set(alloc, locks)?;
    let mut copies = List::new(alloc);
    for name in names {
        if !held.contains(&name.bytes()) {
            copies.push(name.copy(alloc)?)?;
        }
    }
    Ok(copies)
}

pub(crate) fn copy_needs(alloc: Global, needs: &[Need]) -> Result<List<Need>, NoMemory>
    ensures { IfOk result (λ copies. copies ≡ needs.now) }
{
    let mut copies = List::from_vec(Vec::with_capacity(alloc, needs.len())?);
    for need in needs {
        copies.push(Need {
            group: need.group,
            kind: need.kind.copy(alloc)?,
            slots: need.slots,
        })?;
    }
    Ok(copies)
}

fn rules(own: &Props) -> Rules
    ensures { result ≡ rules_of own.now }
{
    Rules {
        pass_wanted: !own.pass.is_empty(),
        skip_code: own.skip_code,
        will_fail: own.will_fail,
    }
}

/// Returns why a test can't run at all, if that is known before the run: because of its own command
/// or properties, or else because its needs fit nowhere.
///
/// A test with more entries than a place can count is beyond any memory.
///
/// Source: CMake manual, ctest(1), Resource Allocation. That a test whose needs fit nowhere is not
/// run while others run is this project's choice.
fn fixed(
    alloc: Global,
    def: &TestDef,
    own: &Props,
    free: Option<&Free>,
) -> Result<Option<Cause>, NoMemory>
    requires unused { IfSome (option_copied free) IsUnused }
    ensures { IfOk result (IsFixed (lent (option_copied free.entry)) def.now own.now) }
{
    if own.modification.len() > u32::MAX as usize {
        return Err(NoMemory);
    }
    match own_cause(def, own) {
        Some(cause) => Ok(Some(cause)),
        None => insufficient(alloc, own.groups.needs(), free),
    }
}

/// Returns why a test can't run at all because of its own command or properties.
fn own_cause(def: &TestDef, own: &Props) -> Option<Cause>
    requires few { length own.now.modification < 2 ^ 32 }
    ensures { result ≡ cause_of_words def.now own.now }
{
    if is_not_available(def.command.as_slice()) {
        return Some(Cause::NotAvailable);
    }
    match bad_operation(own) {
        None => None,
        Some(place) => Some(Cause::BadOperation(place)),
    }
}

/// Returns `Insufficient` where resources are lent and the needs fit nowhere while nothing is used.
fn insufficient(
    alloc: Global,
    needs: &List<Need>,
    free: Option<&Free>,
) -> Result<Option<Cause>, NoMemory>
    requires unused { IfSome (option_copied free) IsUnused }
    ensures { IfOk result (IsFixedBy None (ArePlaceable (lent (option_copied free.entry)) needs.now)) }
{
    let Some(free) = free else {
        return Ok(None);
    };
    match free.place(alloc, needs)? {
        Some(_) => Ok(None),
        None => Ok(Some(Cause::Insufficient)),
    }
}

/// Returns whether a command stands for a program that CMake did not find.
///
/// Source: CMake manual, add_test. CMake writes this for a target that was not built.
fn is_not_available(command: &[Name]) -> bool
    ensures { result ≡ stands_for_none command.now }
{
    match command {
        [word] => word.bytes() == b"NOT_AVAILABLE".as_slice(),
        _ => false,
    }
}
