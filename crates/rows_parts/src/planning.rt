//! Reads tests, words and numbers from text.
//!
//! The tests are parted by `, `. A test is its name, and behind spaces its properties. A
//! property is a key and its value, or `off` for a disabled test.

ghost use Rattle.std.specs.Prelude.{◌<◌, ◌≤◌, All, IfOk};
ghost use Rattle.std.specs.Bool.{OnTrue};
ghost use Rattle.ct_plan.specs.Source.{HaveProps};

use crate::row::RowFault;
use ct_args::{Invocation, UsageFault, read_words};
use ct_base::{List, Name, NoMemory, Pair, TestDef};
use ct_props::{PropFault, Props};
use ct_select::select;
use std::alloc::{AllocError, Global};

/// Tests and their properties, in the same order.
#[derive(Drop)]
pub(crate) struct Tests {
    pub(crate) defs: List<TestDef>,
    pub(crate) props: List<Props>,
}

pub(crate) fn tests_of(alloc: Global, text: &str) -> Result<Tests, PropFault>
    ensures { IfOk result (λ tests. HaveProps tests.defs tests.props) }
{
    let mut tests = Tests {
        defs: List::new(alloc),
        props: List::new(alloc),
    };
    for row in text.split(", ") {
        let def = def_of(alloc, row)?;
        tests.props.push(Props::of(alloc, &def)?)?;
        tests.defs.push(def)?;
    }
    Ok(tests)
}

fn def_of(alloc: Global, row: &str) -> Result<TestDef, NoMemory> {
    let (name, props) = row.split_once(' ').unwrap_or((row, ""));
    Ok(TestDef {
        name: Name::of(alloc, name.as_bytes())?,
        command: List::new(alloc),
        dir: Name::of(alloc, b".")?,
        props: props_of(alloc, props)?,
        dir_labels: List::new(alloc),
    })
}

fn props_of(alloc: Global, text: &str) -> Result<List<Pair>, NoMemory> {
    let mut props = List::new(alloc);
    for word in text.split(' ') {
        if !word.is_empty() {
            props.push(prop_of(alloc, word)?)?;
        }
    }
    Ok(props)
}

fn prop_of(alloc: Global, word: &str) -> Result<Pair, NoMemory> {
    let (key, value) = word.split_once('=').unwrap_or((word, "ON"));
    Ok(Pair {
        name: Name::of(alloc, key_of(key).as_bytes())?,
        value: Name::of(alloc, value.as_bytes())?,
    })
}

/// Returns the key that a word of a row stands for.
fn key_of(word: &str) -> &str {
    match word {
        "off" => "DISABLED",
        "depends" => "DEPENDS",
        "setup" => "FIXTURES_SETUP",
        "required" => "FIXTURES_REQUIRED",
        "cleanup" => "FIXTURES_CLEANUP",
        "labels" => "LABELS",
        other => other,
    }
}

/// Reads the words of a command line, with a space between. `''` is an empty word.
fn words_of(alloc: Global, text: &str) -> Result<List<Name>, NoMemory> {
    let mut words = List::new(alloc);
    for word in text.split(' ') {
        if !word.is_empty() {
            let word = if word == "''" { "" } else { word };
            words.push(Name::of(alloc, word.as_bytes())?)?;
        }
    }
    Ok(words)
}

pub(crate) fn invocation_of(alloc: Global, text: &str) -> Result<Invocation, UsageFault> {
    let words = words_of(alloc, text)?;
    if words.len() >= 100 {
        return Err(UsageFault::NoMemory);
    }
    read_words(alloc, words.as_slice())
}

/// Returns whether each number is from 1 to `count`.
pub(crate) fn are_within(numbers: &[u32], count: usize) -> bool
    ensures { OnTrue result (All (λ number. (0 < number) × (number ≤ count)) numbers.now) }
{
    for number in numbers {
        if *number == 0 || (*number as usize) > count {
            return false;
        }
    }
    true
}

/// Returns the tests that the invocation chooses.
pub(crate) fn chosen(
    alloc: Global,
    tests: &Tests,
    invocation: &Invocation,
) -> Result<List<u32>, RowFault> {
    if tests.defs.len() != tests.props.len() || tests.defs.len() >= 100 {
        return Err(RowFault::Unfit("tests"));
    }
    Ok(select(alloc, &tests.defs, &tests.props, &invocation.wanted.choice)?)
}

/// Appends numbers with a `,` between, and `front` before the first.
pub(crate) fn put_numbers(
    told: &mut String,
    front: &str,
    numbers: &[u32],
) -> Result<(), AllocError> {
    let mut between = front;
    for number in numbers {
        write!(told, "{between}{number}")?;
        between = ",";
    }
    Ok(())
}

/// Makes a text of numbers with a `,` between; `none` if there are none.
pub(crate) fn numbers_told(alloc: Global, numbers: &[u32]) -> Result<String, AllocError> {
    let mut told = String::new(alloc);
    put_numbers(&mut told, "", numbers)?;
    if numbers.is_empty() {
        told.push_str("none")?;
    }
    Ok(told)
}
