ghost use Rattle.std.specs.Prelude.{◌≡◌, ◌<◌, ◌^◌, length, IfOk, IfSome};
ghost use Rattle.std.specs.Option.{option_copied};
ghost use Rattle.ct_props.specs.Values.{value_of_key};
ghost use Rattle.ct_env.specs.Modification.{first_bad, is_bad_entry as is_bad};
ghost use Rattle.ct_env.specs.Environment.{IsEnvironment, base_value};
ghost use Rattle.ct_env.specs.Variables.{AreBase, ChangesAll};

use crate::assignment::assignments_in;
use crate::modification::Modification;
use crate::placement::given_variables;
use crate::variables::Variables;
use ct_alloc::Placement;
use ct_base::{List, Name, NoMemory, Pair};
use ct_props::Props;
use std::alloc::Global;

/// Finds the first entry of ENVIRONMENT_MODIFICATION that names no operation, by its place from 0.
///
/// Source: CMake manual, cmake-properties(7), ENVIRONMENT_MODIFICATION.
pub fn bad_operation(props: &Props) -> Option<u32>
    requires few { length props.now.modification < 2 ^ 32 }
    ensures { result ≡ first_bad props.now.modification }
{
    match first_bad_place(props.modification.as_slice()) {
        None => None,
        Some(at) => Some(at as u32),
    }
}

/// Returns the environment of a test's program, in byte order of names, each name once.
///
/// It is made of the run's own environment, ENVIRONMENT, ENVIRONMENT_MODIFICATION, and, where a
/// placement is given, what the test has of the machine's resources. An entry of the modification
/// that names no operation changes nothing; `bad_operation` finds it.
///
/// Source: CMake manual, cmake-properties(7), ENVIRONMENT and ENVIRONMENT_MODIFICATION, and
/// ctest(1), Resource Allocation, Environment Variables. That an inherited count of groups is taken
/// out is this project's choice.
pub fn environment(
    alloc: Global,
    own: &[Pair],
    props: &Props,
    given: Option<&Placement>,
) -> Result<List<Pair>, NoMemory>
    ensures { IfOk result (λ pairs. IsEnvironment own.now props.now (option_copied given.entry) pairs) }
{
    let base = base_variables(alloc, own, props.environment.as_slice())?;
    let told = given_variables(alloc, props.groups.count(), given)?;
    let changed = modified(alloc, base, props.modification.as_slice())?;
    changed.with_all(alloc, told.as_slice())?.into_list(alloc)
}

/// Returns the variables without any modification.
fn base_variables(alloc: Global, own: &[Pair], entries: &[Name]) -> Result<Variables, NoMemory>
    ensures { IfOk result (λ variables. AreBase own.now entries.now variables) }
{
    let assigned = assignments_in(alloc, entries)?;
    let own = Variables::new(alloc).with_all(alloc, own)?;
    let kept = own.without(b"CTEST_RESOURCE_GROUP_COUNT");
    let variables = kept.with_all(alloc, assigned.as_slice())?;
    Ok(variables)
}

/// Changes variables by the entries of a modification. Most tests have none.
fn modified(alloc: Global, base: Variables, entries: &[Name]) -> Result<Variables, NoMemory>
    ensures { IfOk result (ChangesAll base entries.now base) }
{
    match entries {
        [] => Ok(base),
        [_, ..] => base.copy()?.changed_by(alloc, &base, entries),
    }
}

fn first_bad_place(entries: &[Name]) -> Option<usize>
    ensures place { result ≡ first_bad entries.now }
    ensures within { IfSome result (λ at. at < length entries.now) }
{
    entries.iter().position(|entry| is_bad_entry(entry))
}

fn is_bad_entry(entry: &Name) -> bool
    ensures { result ≡ is_bad entry.now }
{
    Modification::of(entry.bytes()).is_none()
}
