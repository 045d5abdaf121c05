ghost use Rattle.std.specs.Prelude.{◌≡◌, ◌++◌, map, IfOk, OnOk};
ghost use Rattle.std.specs.Option.{option_copied};
ghost use Rattle.std.specs.Char.{to_ascii_uppercase};
ghost use Rattle.ct_env.specs.PlacementVariables.{group_name as name_of_group, needs_in as needs_of, need_text as text_of_need, joined_with, group_variable as variable_of_group, kind_variable as variable_of_kind, group_variables, placement_variables as variables_of_placement, given_variables as variables_of_given};

use crate::kinds::kinds_in;
use ct_alloc::{Pick, Placement};
use ct_base::{List, Name, NoMemory, Pair};
use std::alloc::Global;

/// Returns the variables that show a test its resources; without a placement, none.
pub fn given_variables(
    alloc: Global,
    groups: u32,
    given: Option<&Placement>,
) -> Result<List<Pair>, NoMemory>
    ensures { IfOk result (λ pairs. pairs ≡ variables_of_given groups (option_copied given.entry)) }
{
    match given {
        None => Ok(List::new(alloc)),
        Some(placement) => placement_variables(alloc, groups, placement.picks.as_slice()),
    }
}

/// Returns the variables that show a test the resources of its groups.
///
/// Source: CMake manual, ctest(1), Resource Allocation, Environment Variables.
fn placement_variables(alloc: Global, groups: u32, picks: &[Pick]) -> Result<List<Pair>, NoMemory>
    ensures { IfOk result (λ pairs. pairs ≡ variables_of_placement groups picks.now) }
{
    let mut pairs = List::new(alloc);
    let name = Name::of(alloc, b"CTEST_RESOURCE_GROUP_COUNT")?;
    let value = Name::of(alloc, groups.to_string(alloc)?.as_bytes())?;
    pairs.push(Pair { name, value })?;
    for group in 0..groups {
        push_group(alloc, &mut pairs, group, picks)?;
    }
    Ok(pairs)
}

/// Adds the variables of a group behind the others.
fn push_group(
    alloc: Global,
    pairs: &mut List<Pair>,
    group: u32,
    picks: &[Pick],
) -> Result<(), NoMemory>
    ensures { OnOk result (pairs.new ≡ pairs.old ++ group_variables picks.now group) }
{
    let kinds = kinds_in(alloc, group, picks)?;
    pairs.push(group_variable(alloc, group, kinds.as_slice())?)?;
    push_kinds(alloc, pairs, group, picks, kinds.as_slice())?;
    Ok(())
}

/// Returns the variable with the types of resources that a group has.
fn group_variable(alloc: Global, group: u32, kinds: &[Name]) -> Result<Pair, NoMemory>
    ensures { IfOk result (λ pair. pair ≡ variable_of_group group kinds.now) }
{
    Ok(Pair {
        name: Name::from_vec(group_name(alloc, group)?),
        value: joined(alloc, b',', kinds)?,
    })
}

/// Adds one variable for each of these types behind the others.
fn push_kinds(
    alloc: Global,
    pairs: &mut List<Pair>,
    group: u32,
    picks: &[Pick],
    kinds: &[Name],
) -> Result<(), NoMemory>
    ensures { OnOk result (pairs.new ≡ pairs.old ++ map (variable_of_kind group picks.now) kinds.now) }
{
    for kind in kinds {
        pairs.push(kind_variable(alloc, group, picks, kind)?)?;
    }
    Ok(())
}

/// Returns the variable with the resources of a type that a group has.
fn kind_variable(alloc: Global, group: u32, picks: &[Pick], kind: &Name) -> Result<Pair, NoMemory>
    ensures { IfOk result (λ pair. pair ≡ variable_of_kind group picks.now kind.now) }
{
    let mut name = group_name(alloc, group)?;
    name.push(b'_')?;
    name.extend_from_slice(in_capitals(alloc, kind.bytes())?.as_slice())?;
    let needs = needs_in(alloc, group, picks, kind)?;
    Ok(Pair {
        name: Name::from_vec(name),
        value: joined(alloc, b';', needs.as_slice())?,
    })
}

fn group_name(alloc: Global, group: u32) -> Result<Vec<u8>, NoMemory>
    ensures { IfOk result (λ name. name.items ≡ name_of_group group) }
{
    let mut name = Vec::from_slice(alloc, b"CTEST_RESOURCE_GROUP_")?;
    name.extend_from_slice(group.to_string(alloc)?.as_bytes())?;
    Ok(name)
}

fn in_capitals(alloc: Global, kind: &[u8]) -> Result<Vec<u8>, NoMemory>
    ensures { IfOk result (λ text. text.items ≡ map to_ascii_uppercase kind.now) }
{
    let text = kind
        .iter()
        .map(|byte| byte.to_ascii_uppercase())
        .collect(alloc)?;
    Ok(text)
}

/// Returns what a group has of the resources of a type: one text for each need, in order.
fn needs_in(alloc: Global, group: u32, picks: &[Pick], kind: &Name) -> Result<List<Name>, NoMemory>
    ensures { IfOk result (λ needs. needs ≡ needs_of group picks.now kind.now) }
{
    let mut needs = List::new(alloc);
    for pick in picks {
        if pick.group == group && pick.kind.is(kind) {
            needs.push(need_text(alloc, pick)?)?;
        }
    }
    Ok(needs)
}

fn need_text(alloc: Global, pick: &Pick) -> Result<Name, NoMemory>
    ensures { IfOk result (λ text. text ≡ text_of_need pick.now) }
{
    let mut text = Vec::from_slice(alloc, b"id:")?;
    text.extend_from_slice(pick.id.bytes())?;
    text.extend_from_slice(b",slots:")?;
    text.extend_from_slice(pick.slots.to_string(alloc)?.as_bytes())?;
    Ok(Name::from_vec(text))
}

/// Returns the texts in a row, with a separator between them.
fn joined(alloc: Global, separator: u8, texts: &[Name]) -> Result<Name, NoMemory>
    ensures { IfOk result (λ text. text ≡ joined_with separator texts.now) }
{
    let [first, rest @ ..] = texts else {
        return Name::of(alloc, &[]);
    };
    let mut text = Vec::from_slice(alloc, first.bytes())?;
    for next in rest {
        text.push(separator)?;
        text.extend_from_slice(next.bytes())?;
    }
    Ok(Name::from_vec(text))
}
