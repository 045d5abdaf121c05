//! In which order tests run, and the cycle for which there is no order.

ghost use Rattle.std.specs.Bool.{OnTrue};
ghost use Rattle.std.specs.List.Sorted.{IsStrictlyIncreasing};

use crate::planning::{Tests, are_within, put_numbers, tests_of};
use crate::row::{Given, RowFault};
use ct_base::{List, NoMemory};
use ct_graph::{GraphFault, Links, Ordered, order};
use std::alloc::{AllocError, Global};

/// Tells the links of each member: behind `<` the tests before it, behind `/` its setups.
pub(crate) fn links(alloc: Global, given: Given<'_>) -> Result<String, RowFault> {
    let members = given.text("members")?;
    let tests = tests_of(alloc, given.text("tests")?)?;
    order_told(alloc, &tests, members)
}

fn order_told(alloc: Global, tests: &Tests, members: &str) -> Result<String, RowFault> {
    let members = members_of(alloc, members, tests.defs.len())?;
    let ordered = order_of(alloc, tests, &members)?;
    ranked_told(alloc, ordered.links.as_slice())
}

fn ranked_told(alloc: Global, links: &[Links]) -> Result<String, RowFault> {
    if !are_ranked(links) {
        return Ok(String::from_str(alloc, "no ranks")?);
    }
    Ok(links_told(alloc, links)?)
}

/// Tells whether the members have an order, or else whether the cycle that is found is one by the links.
pub(crate) fn cycle(alloc: Global, given: Given<'_>) -> Result<String, RowFault> {
    let members = given.text("members")?;
    let links = given.text("links")?;
    let tests = tests_of(alloc, given.text("tests")?)?;
    let found = cycle_of(alloc, &tests, members, links)?;
    Ok(String::from_str(alloc, found)?)
}

fn cycle_of(
    alloc: Global,
    tests: &Tests,
    members: &str,
    links: &str,
) -> Result<&'static str, NoMemory> {
    let members = members_of(alloc, members, tests.defs.len())?;
    match order_of(alloc, tests, &members) {
        Ok(_ordered) => Ok("an order"),
        Err(fault) => Ok(cycle_told(&fault, links)),
    }
}

/// Tells whether what was found in place of an order is a cycle by the links.
fn cycle_told(fault: &GraphFault, links: &str) -> &'static str {
    match fault {
        GraphFault::Cycle(cycle) => {
            if is_cycle(links, cycle.as_slice()) {
                "a cycle"
            } else {
                "no cycle"
            }
        }
        GraphFault::TooManyEdges => "too many edges",
        GraphFault::NoMemory => "no memory",
    }
}

/// Tells whether tests that stand there 2,000 times, with some more behind, have an order.
pub(crate) fn many(alloc: Global, given: Given<'_>) -> Result<String, RowFault> {
    let text = many_rows(alloc, given.text("tests")?, given.text("last")?)?;
    let tests = tests_of(alloc, text.as_str())?;
    let found = edges_told(alloc, &tests)?;
    Ok(String::from_str(alloc, found)?)
}

fn edges_told(alloc: Global, tests: &Tests) -> Result<&'static str, NoMemory> {
    let members = members_of(alloc, "all", tests.defs.len())?;
    Ok(match order_of(alloc, tests, &members) {
        Ok(_) => "ordered",
        Err(GraphFault::TooManyEdges) => "too many edges",
        Err(_) => "no order",
    })
}

fn many_rows(alloc: Global, tests: &str, last: &str) -> Result<String, AllocError> {
    let mut text = String::new(alloc);
    for _ in 0..2_000 {
        write!(text, "{tests}, ")?;
    }
    text.push_str(last)?;
    Ok(text)
}

/// Returns whether each number is less than the next.
fn ascend(numbers: &[u32]) -> bool
    ensures { OnTrue result (IsStrictlyIncreasing numbers.now) }
{
    for at in 1..numbers.len() {
        if numbers[at] <= numbers[at - 1] {
            return false;
        }
    }
    true
}

/// Reads the numbers of a row: `all` from 1 to `count`, `none`, or numbers with a `,` between.
fn members_of(alloc: Global, text: &str, count: usize) -> Result<List<u32>, NoMemory> {
    let mut members = List::new(alloc);
    if text == "all" {
        for number in 1..=count.min(5_000) {
            members.push(number as u32)?;
        }
    } else if text != "none" {
        for number in text.split(',') {
            members.push(number.parse().unwrap_or(0))?;
        }
    }
    Ok(members)
}

/// Returns the order of the members, or why there is none. Members that are no tests have no memory.
fn order_of(alloc: Global, tests: &Tests, members: &List<u32>) -> Result<Ordered, GraphFault> {
    let count = tests.defs.len();
    let is_fit = ascend(members.as_slice())
        && are_within(members.as_slice(), count)
        && tests.props.len() == count
        && count < 5_000;
    if !is_fit {
        return Err(GraphFault::NoMemory);
    }
    order(alloc, &tests.defs, &tests.props, members)
}

/// Appends the number of a member, the tests before it, and its setups.
fn put_link(told: &mut String, link: &Links) -> Result<(), AllocError> {
    let between = if told.is_empty() { "" } else { " " };
    write!(told, "{between}{}", link.number)?;
    put_numbers(told, "<", link.before.as_slice())?;
    put_numbers(told, "/", link.setups.as_slice())
}

/// Tells the links of the members, with a space between.
fn links_told(alloc: Global, links: &[Links]) -> Result<String, AllocError> {
    let mut told = String::new(alloc);
    for link in links {
        put_link(&mut told, link)?;
    }
    if links.is_empty() {
        told.push_str("none")?;
    }
    Ok(told)
}

/// Returns whether a rank is greater than the rank of each of these tests.
fn is_above(links: &[Links], tests: &[u32], rank: u32) -> bool {
    links
        .iter()
        .all(|link| link.rank < rank || !tests.contains(&link.number))
}

/// Returns whether the rank of each member is greater than the rank of each test before it.
fn are_ranked(links: &[Links]) -> bool {
    links
        .iter()
        .all(|link| is_above(links, link.before.as_slice(), link.rank))
}

/// Returns whether one test comes before another, by the links as text.
fn is_before(rows: &str, earlier: u32, later: u32) -> bool {
    for row in rows.split(' ') {
        let (number, before) = row.split_once('<').unwrap_or((row, ""));
        if number.parse() == Ok(later) {
            return before.split(',').any(|other| other.parse() == Ok(earlier));
        }
    }
    false
}

/// Returns whether each test comes after the next one in the list, and the last after the first.
fn is_cycle(rows: &str, tests: &[u32]) -> bool {
    let Some(last) = tests.last() else {
        return false;
    };
    let mut later = *last;
    for test in tests {
        if !is_before(rows, *test, later) {
            return false;
        }
        later = *test;
    }
    true
}
