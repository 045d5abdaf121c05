//! The environment of a test's program, and the first entry of a modification that is no operation.

use crate::entries::text_of;
use crate::properties::{pair, props_of};
use crate::row::{Given, RowFault};
use ct_alloc::{Pick, Placement};
use ct_base::{List, Name, NoMemory, Pair};
use ct_env::{bad_operation, environment};
use ct_props::Props;
use std::alloc::{AllocError, Global};

/// Reads pairs of a name and a value, as `name=value` with a space between.
fn own_pairs(alloc: Global, text: &str) -> Result<List<Pair>, NoMemory> {
    let mut pairs = List::new(alloc);
    for word in text.split(' ') {
        if let Some((name, value)) = word.split_once('=') {
            pairs.push(pair(alloc, name, value)?)?;
        }
    }
    Ok(pairs)
}

fn number(text: Option<&str>) -> u32 {
    text.unwrap_or("").parse().unwrap_or(0)
}

/// Reads a pick from `group:type:id:slots`.
fn pick(alloc: Global, text: &str) -> Result<Pick, NoMemory> {
    let mut parts = text.split(':');
    Ok(Pick {
        group: number(parts.next()),
        kind: Name::of(alloc, parts.next().unwrap_or("").as_bytes())?,
        id: Name::of(alloc, parts.next().unwrap_or("").as_bytes())?,
        slots: number(parts.next()),
        resource: 0,
    })
}

fn placement(alloc: Global, text: &str) -> Result<Placement, NoMemory> {
    let mut picks = List::new(alloc);
    for word in text.split(' ') {
        if !word.is_empty() {
            picks.push(pick(alloc, word)?)?;
        }
    }
    Ok(Placement { picks })
}

/// Tells pairs with a space between, and names without `front`.
fn told(alloc: Global, front: &str, pairs: &[Pair]) -> Result<String, AllocError> {
    let mut told = String::new(alloc);
    for pair in pairs {
        let between = if told.is_empty() { "" } else { " " };
        let name = text_of(pair.name.bytes());
        let name = name.strip_prefix(front).unwrap_or(name);
        write!(told, "{between}{name}={}", text_of(pair.value.bytes()))?;
    }
    Ok(told)
}

/// Tells the environment of a test that sets and changes variables.
pub(crate) fn changed(alloc: Global, given: Given<'_>) -> Result<String, RowFault> {
    let own = own_pairs(alloc, given.text("own")?)?;
    let props = changing(alloc, given.text("sets")?, given.text("changes")?)?;
    changed_told(alloc, own.as_slice(), &props)
}

fn changed_told(alloc: Global, own: &[Pair], props: &Props) -> Result<String, RowFault> {
    let pairs = environment(alloc, own, props, None)?;
    Ok(told(alloc, "", pairs.as_slice())?)
}

/// Reads the properties of a test that sets and changes variables.
fn changing(alloc: Global, sets: &str, changes: &str) -> Result<Props, RowFault> {
    let text = format!(in alloc; "ENVIRONMENT={sets}&ENVIRONMENT_MODIFICATION={changes}")?;
    Ok(props_of(alloc, text.as_str())?)
}

/// Tells the environment of a test that needs groups, gets these picks, and changes a variable of a group.
pub(crate) fn placed(alloc: Global, given: Given<'_>) -> Result<String, RowFault> {
    let own = own_pairs(alloc, given.text("own")?)?;
    let placement = placement(alloc, given.text("picks")?)?;
    let props = grouped(alloc, given.text("groups")?)?;
    placed_told(alloc, own.as_slice(), &props, &placement)
}

fn placed_told(
    alloc: Global,
    own: &[Pair],
    props: &Props,
    placement: &Placement,
) -> Result<String, RowFault> {
    let pairs = environment(alloc, own, props, Some(placement))?;
    Ok(told(alloc, "CTEST_RESOURCE_GROUP_", pairs.as_slice())?)
}

/// Reads the properties of a test that needs groups, and changes a variable of one.
fn grouped(alloc: Global, groups: &str) -> Result<Props, RowFault> {
    let change = "ENVIRONMENT_MODIFICATION=CTEST_RESOURCE_GROUP_0=set:x";
    let text = format!(in alloc; "RESOURCE_GROUPS={groups}&{change}")?;
    Ok(props_of(alloc, text.as_str())?)
}

/// Tells the place of the first entry of a modification that names no operation.
pub(crate) fn first_bad(alloc: Global, given: Given<'_>) -> Result<String, RowFault> {
    let props = changing(alloc, "", given.text("changes")?)?;
    if props.modification.len() >= 4_294_967_296 {
        return Err(RowFault::Unfit("changes"));
    }
    bad_told(alloc, bad_operation(&props))
}

fn bad_told(alloc: Global, found: Option<u32>) -> Result<String, RowFault> {
    Ok(format!(in alloc; "{found:?}")?)
}
