//! The journal of a run: which lines are read, and which line of a text is the first that is not good.

use crate::row::{Given, RowFault};
use ct_base::{Blob, List, NoMemory, Resource};
use ct_history::{Plan, PlanTest};
use ct_journal_text::{check_text, line_text, read_line};
use std::alloc::Global;
use tests_samples::{Manner, cards, free, needs, parts_of, plan_of};

/// Tells what is written of a line again; `no line` where it is none.
pub(crate) fn line_again(alloc: Global, given: Given<'_>) -> Result<Blob, RowFault> {
    match read_line(alloc, given.bytes("line")?)? {
        Some(line) => Ok(line_text(alloc, &line)?),
        None => Ok(Blob::of(alloc, b"no line")?),
    }
}

/// Tells the number of the first line that is not good for the plan; `good` where there is none.
pub(crate) fn first_bad(alloc: Global, given: Given<'_>) -> Result<String, RowFault> {
    let journal = given.bytes("journal")?;
    match plan_named(alloc, given.text("plan")?)? {
        Some(plan) => check_told(alloc, &plan, journal),
        None => Err(RowFault::Unfit("plan")),
    }
}

fn check_told(alloc: Global, plan: &Plan, journal: &[u8]) -> Result<String, RowFault> {
    match check_text(alloc, plan, journal)? {
        Some(line) => Ok(format!(in alloc; "{line}")?),
        None => Ok(String::from_str(alloc, "good")?),
    }
}

/// Makes the plan of a name: of `one test`, `no test`, or `cards`, which is three tests that take two slots
/// each of cards of three slots and of two. Each test takes one processor.
fn plan_named(alloc: Global, name: &str) -> Result<Option<Plan>, NoMemory> {
    match name {
        "one test" => planned(alloc, 1, one(alloc)?, None),
        "no test" => planned(alloc, 1, List::new(alloc), None),
        "cards" => {
            let cards = cards(alloc, &[3, 2])?;
            planned(alloc, 3, three_on_cards(alloc)?, Some(cards))
        }
        _ => Ok(None),
    }
}

fn planned(
    alloc: Global,
    level: u32,
    tests: List<PlanTest>,
    resources: Option<List<Resource>>,
) -> Result<Option<Plan>, NoMemory> {
    let parts = parts_of(alloc, Manner::once(level), tests, resources)?;
    plan_of(alloc, parts)
}

fn one(alloc: Global) -> Result<List<PlanTest>, NoMemory> {
    let mut tests = List::new(alloc);
    tests.push(free(alloc, 1)?)?;
    Ok(tests)
}

/// Makes three tests, each of which needs two slots of a card.
fn three_on_cards(alloc: Global) -> Result<List<PlanTest>, NoMemory> {
    let mut tests = List::new(alloc);
    for number in 1..4 {
        tests.push(on_a_card(alloc, number)?)?;
    }
    Ok(tests)
}

/// Makes a test that needs two slots of a card.
fn on_a_card(alloc: Global, number: u32) -> Result<PlanTest, NoMemory> {
    let mut test = free(alloc, number)?;
    test.needs = needs(alloc, &[2])?;
    Ok(test)
}
