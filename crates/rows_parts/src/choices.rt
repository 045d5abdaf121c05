//! Which tests the words choose, and which their fixtures draw in.

use crate::planning::{Tests, are_within, chosen, invocation_of, numbers_told, tests_of};
use crate::row::{Given, RowFault};
use ct_args::Invocation;
use ct_base::{List, Name};
use ct_fixture::draw_in;
use ct_select::failed_names;
use std::alloc::Global;

/// Tells the numbers of the tests that the words choose.
pub(crate) fn by_words(alloc: Global, given: Given<'_>) -> Result<String, RowFault> {
    let words = given.text("words")?;
    let tests = tests_of(alloc, given.text("tests")?)?;
    words_told(alloc, &tests, words)
}

fn words_told(alloc: Global, tests: &Tests, words: &str) -> Result<String, RowFault> {
    let invocation = invocation_of(alloc, words)?;
    chosen_told(alloc, tests, &invocation)
}

fn chosen_told(alloc: Global, tests: &Tests, invocation: &Invocation) -> Result<String, RowFault> {
    let chosen = chosen(alloc, tests, invocation)?;
    Ok(numbers_told(alloc, chosen.as_slice())?)
}

/// Tells the numbers of the tests that the words choose where those of a log alone are asked for.
pub(crate) fn of_log(alloc: Global, given: Given<'_>) -> Result<String, RowFault> {
    let words = given.text("words")?;
    let log = given.bytes("log")?;
    let tests = tests_of(alloc, given.text("tests")?)?;
    log_told(alloc, &tests, words, log)
}

fn log_told(alloc: Global, tests: &Tests, words: &str, log: &[u8]) -> Result<String, RowFault> {
    let only = failed_names(alloc, log)?;
    names_told(alloc, tests, words, only)
}

fn names_told(
    alloc: Global,
    tests: &Tests,
    words: &str,
    only: List<Name>,
) -> Result<String, RowFault> {
    let mut invocation = invocation_of(alloc, words)?;
    invocation.wanted.choice.only = Some(only);
    chosen_told(alloc, tests, &invocation)
}

/// Tells the numbers of the tests that the words choose, and of those that their fixtures draw in.
pub(crate) fn drawn_in(alloc: Global, given: Given<'_>) -> Result<String, RowFault> {
    let words = given.text("words")?;
    let tests = tests_of(alloc, given.text("tests")?)?;
    drawn_told(alloc, &tests, words)
}

fn drawn_told(alloc: Global, tests: &Tests, words: &str) -> Result<String, RowFault> {
    let invocation = invocation_of(alloc, words)?;
    members_told(alloc, tests, &invocation)
}

fn members_told(alloc: Global, tests: &Tests, invocation: &Invocation) -> Result<String, RowFault> {
    let members = members(alloc, tests, invocation)?;
    Ok(numbers_told(alloc, members.as_slice())?)
}

fn members(alloc: Global, tests: &Tests, invocation: &Invocation) -> Result<List<u32>, RowFault> {
    let chosen = chosen(alloc, tests, invocation)?;
    if !are_within(chosen.as_slice(), tests.props.len()) || tests.props.len() >= 100 {
        return Err(RowFault::Unfit("tests"));
    }
    let choice = &invocation.wanted.choice;
    Ok(draw_in(alloc, &tests.props, &chosen, choice)?)
}
