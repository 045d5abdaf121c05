ghost use Rattle.std.specs.Prelude.{◌≡◌, IfOk, IfErr};
ghost use Rattle.ct_app.specs.Ends.{HasTests, IsReadList, IsUnread, IsUnreadList};
ghost use Rattle.ct_app.specs.Outcome.{name_there, names_at as names_of};
ghost use Rattle.ct_props.specs.Numbered.{at_number as stands_at};

use crate::Outcome;
use crate::props::{Tests, at_number, read_props};
use crate::rerun::read_only;
use ct_args::Invocation;
use ct_base::{Files, List, Name, NoMemory, TestDef};
use ct_testfile::read_tree;
use std::alloc::Global;

/// Reads the tests of the folder that an invocation names, and their properties.
///
/// A test file or a property that is refused, a fault of the files, or want of memory is the outcome
/// of the call. The files stay as they are.
///
/// Source: CMake manual, cmake-properties(7), Properties on Tests.
#[tactic(auto, using(crate::proofs::ReadLemmas::unread_props, crate::proofs::ReadLemmas::unread_tree))]
pub fn read_tests<F: Files>(
    alloc: Global,
    files: &mut F,
    invocation: &Invocation,
) -> Result<Tests, Outcome>
    ensures ok { IfOk result (λ tests. HasTests invocation.now (F.tells files.old) (F.tells files.new) tests) }
    ensures err { IfErr result (IsUnread invocation.now (F.tells files.old) (F.tells files.new)) }
{
    let defs = read_tree(alloc, files, &invocation.wanted.dir, &invocation.config)?;
    let props = read_props(alloc, defs.as_slice())?;
    Ok(Tests { defs, props })
}

/// What is read for a list.
#[derive(Drop)]
pub(crate) struct ListFolder {
    pub(crate) tests: Tests,
    /// The names that the list is limited to, if the words ask for the tests that failed last.
    pub(crate) only: Option<List<Name>>,
}

/// Reads the tests of a list, and the names that the list is limited to, if any.
#[tactic(auto, using(crate::proofs::ReadLemmas::read_listed, crate::proofs::ReadLemmas::unread_listed, crate::proofs::ReadLemmas::unread_only))]
pub(crate) fn read_listed<F: Files>(
    alloc: Global,
    files: &mut F,
    invocation: &Invocation,
) -> Result<ListFolder, Outcome>
    ensures ok { IfOk result (λ folder. IsReadList invocation.now (F.tells files.old) (F.tells files.new) folder.tests folder.only) }
    ensures err { IfErr result (IsUnreadList invocation.now (F.tells files.old) (F.tells files.new)) }
{
    let tests = read_tests(alloc, files, invocation)?;
    let only = read_only(alloc, files, invocation.rerun, &invocation.wanted.dir)?;
    Ok(ListFolder { tests, only })
}

/// Copies the names of the tests with these numbers.
pub(crate) fn names_at(
    alloc: Global,
    defs: &[TestDef],
    numbers: &[u32],
) -> Result<List<Name>, NoMemory>
    ensures { IfOk result (λ names. names ≡ names_of defs.now numbers.now) }
{
    let mut names = List::new(alloc);
    for number in numbers {
        names.push(name_at(alloc, defs, *number)?)?;
    }
    Ok(names)
}

fn name_at(alloc: Global, defs: &[TestDef], number: u32) -> Result<Name, NoMemory>
    ensures { IfOk result (λ name. name ≡ name_there (stands_at defs.now number)) }
{
    match at_number(defs, number) {
        Some(def) => def.name.copy(alloc),
        None => Name::of(alloc, b""),
    }
}
