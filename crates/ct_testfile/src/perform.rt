ghost use Rattle.std.specs.Prelude.{◌≡◌, ◌-◌, ◌^◌, ◌==◌, ◌||◌, min, length, Result};
ghost use Rattle.ct_testfile.specs.declared.fault.ReadKind.{ReadKind as Kind};
ghost use Rattle.ct_testfile.specs.declared.state.State.{State as Known};
ghost use Rattle.std.specs.List.{list_any};
ghost use Rattle.ct_suite.specs.Tests.{AreShort, most_bytes};
ghost use Rattle.ct_suite.specs.Values.{texts};
ghost use Rattle.ct_testfile.specs.Says.{AreBounded, Follows};
ghost use Rattle.ct_testfile.specs.Commands.{add_test, carried_out, included, is_bad_name, is_full, opening_nothing, performed, set, set_directory_properties, set_tests_properties};

use crate::command::Command;
use crate::fault::{ReadKind, Stop};
use crate::limits::Limits;
use crate::opening::Opens;
use crate::state::State;
use ct_base::{List, Name};
use ct_lex::Args;
use ct_suite::{
    Suite, Value, count_named, distinct, label_bytes, labels_of, list_value, names_and_pairs,
    pairs_behind, prop_bytes, set_named, take_apart, texts,
};
use std::alloc::Global;

/// Carries out a command of a file in this folder.
pub(crate) fn carry_out(
    alloc: Global,
    limits: &Limits,
    dir: &Name,
    command: Command,
    args: &Args,
    state: State,
) -> Result<(State, Opens), Stop>
    requires { AreBounded limits.now }
    ensures { Follows result (carried_out limits.now dir.now command args.now state) }
{
    let (values, state) = state.begin(alloc, limits, args)?;
    perform(alloc, limits, dir, command, values, state)
}

/// Does what a command does with these values.
fn perform(
    alloc: Global,
    limits: &Limits,
    dir: &Name,
    command: Command,
    values: List<Value>,
    state: State,
) -> Result<(State, Opens), Stop>
    requires limits { AreBounded limits.now }
    requires values { AreShort most_bytes (texts values) }
    ensures { Follows result (performed limits.now dir.now command (texts values) state) }
{
    match command {
        Command::AddTest => {
            let values = texts(alloc, values)?;
            opening_nothing(alloc, add_test(alloc, limits, dir, values, state))
        }
        Command::SetTestsProperties => {
            opening_nothing(alloc, set_tests_properties(alloc, limits, values, state))
        }
        Command::SetDirectoryProperties => {
            opening_nothing(
                alloc,
                set_directory_properties(alloc, limits, dir, values, state),
            )
        }
        Command::Subdirs => Ok((state, Opens::folders(texts(alloc, values)?))),
        Command::Include => include(alloc, texts(alloc, values)?, state),
        Command::Set => opening_nothing(alloc, set(alloc, texts(alloc, values)?, state)),
        Command::Unknown => Err(Stop::Refused(ReadKind::UnknownCommand)),
    }
}

fn opening_nothing(alloc: Global, done: Result<State, Stop>) -> Result<(State, Opens), Stop>
    ensures { (says : Result Known Kind) → Follows done says → Follows result (opening_nothing says) }
{
    match done {
        Ok(state) => Ok((state, Opens::nothing(alloc))),
        Err(stop) => Err(stop),
    }
}

/// Defines a test of this folder.
///
/// Source: CMake manual, add_test. This project's choice: a name is not empty and has no line feed.
fn add_test(
    alloc: Global,
    limits: &Limits,
    dir: &Name,
    values: List<Name>,
    state: State,
) -> Result<State, Stop>
    requires limits { AreBounded limits.now }
    requires values { AreShort most_bytes values }
    ensures { Follows result (add_test limits.now dir.now values state) }
{
    let Some((name, command)) = take_apart(values) else {
        return Err(Stop::Refused(ReadKind::BadCall));
    };
    if is_bad_test(name.bytes(), &command) {
        return Err(Stop::Refused(ReadKind::BadCall));
    }
    if is_full(limits, &state.tests) {
        return Err(Stop::Refused(ReadKind::TooManyTests));
    }
    let dir = dir.copy(alloc)?;
    let state = state.taken(limits, length(dir.bytes()))?;
    Ok(State {
        tests: state.tests.with_test(alloc, name, command, dir)?,
        ..state
    })
}

/// Returns whether a test may not have this name and command.
fn is_bad_test(name: &[u8], command: &List<Name>) -> bool
    ensures { result ≡ (length command.now == 0 || is_bad_name name.now) }
{
    command.is_empty() || is_bad_name(name)
}

/// Returns whether there is no room for one more test.
fn is_full(limits: &Limits, tests: &Suite) -> bool
    ensures { result ≡ is_full limits.now tests.now }
{
    limits.tests as usize <= tests.len()
}

/// Counts the bytes of a text.
fn length(text: &[u8]) -> u64
    ensures { result ≡ min (length text.now) (2 ^ 64 - 1) }
{
    0u64.saturating_add(text.len() as u64)
}

fn is_bad_name(name: &[u8]) -> bool
    ensures { result ≡ is_bad_name name.now }
{
    name.is_empty() || has_feed(name)
}

fn has_feed(name: &[u8]) -> bool
    ensures { result ≡ list_any (λ byte. byte == 10) name.now }
{
    name.iter().any(|byte| *byte == b'\n')
}

/// Sets properties of all tests so far that have one of these names.
///
/// Source: CMake manual, set_tests_properties. This project's choice: a name that no test has is
/// passed over.
fn set_tests_properties(
    alloc: Global,
    limits: &Limits,
    values: List<Value>,
    state: State,
) -> Result<State, Stop>
    requires { AreShort most_bytes (texts values) }
    ensures { Follows result (set_tests_properties limits.now (texts values) state) }
{
    let Some((names, props)) = names_and_pairs(alloc, values)? else {
        return Err(Stop::Refused(ReadKind::BadCall));
    };
    let different = distinct(alloc, names)?;
    let tests = count_named(&state.tests, different.as_slice());
    let bytes = tests.saturating_mul(prop_bytes(props.as_slice()));
    let state = state.taken(limits, bytes)?;
    Ok(State {
        tests: set_named(alloc, state.tests, different.as_slice(), props)?,
        ..state
    })
}

/// Adds labels to all tests so far of this folder.
///
/// Source: CMake manual, set_directory_properties. This project's choice: LABELS alone has an
/// effect.
fn set_directory_properties(
    alloc: Global,
    limits: &Limits,
    dir: &Name,
    values: List<Value>,
    state: State,
) -> Result<State, Stop>
    requires { AreShort most_bytes (texts values) }
    ensures { Follows result (set_directory_properties limits.now dir.now (texts values) state) }
{
    let Some(props) = pairs_behind(alloc, values)? else {
        return Err(Stop::Refused(ReadKind::BadCall));
    };
    let tests = state.tests.placed(dir) as u64;
    let bytes = tests.saturating_mul(label_bytes(props.as_slice()));
    let state = state.taken(limits, bytes)?;
    let labels = labels_of(alloc, props.as_slice())?;
    Ok(State {
        tests: state.tests.with_labels(alloc, dir, labels.as_slice())?,
        ..state
    })
}

/// Sets a variable, or removes its value if the name stands alone.
///
/// Source: CMake manual, set and unset. This project's choice: all files share one table.
fn set(alloc: Global, values: List<Name>, state: State) -> Result<State, Stop>
    ensures { Follows result (set values state) }
{
    let Some((name, values)) = take_apart(values) else {
        return Err(Stop::Refused(ReadKind::BadCall));
    };
    let value = list_value(alloc, values.as_slice())?;
    Ok(State {
        variables: state.variables.with(name, value)?,
        ..state
    })
}

/// Reads the call of `include`, which takes one value.
///
/// Source: CMake manual, include.
fn include(alloc: Global, values: List<Name>, state: State) -> Result<(State, Opens), Stop>
    ensures { Follows result (included values state) }
{
    let Some((name, rest)) = take_apart(values) else {
        return Err(Stop::Refused(ReadKind::BadCall));
    };
    match take_apart(rest) {
        None => Ok((state, Opens::file(alloc, name)?)),
        Some(_) => Err(Stop::Refused(ReadKind::BadCall)),
    }
}
