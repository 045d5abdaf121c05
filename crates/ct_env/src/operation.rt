ghost use Rattle.std.specs.Prelude.{◌≡◌, IfOk, Some, ◌++◌, bytes_eq};
ghost use Rattle.std.specs.Option.{option_map, option_copied};
ghost use Rattle.ct_env.specs.Operation.{operation_named, value_after, set_behind as behind, set_in_front as in_front};

use ct_base::NoMemory;
use std::alloc::Global;

/// What an entry of ENVIRONMENT_MODIFICATION does to a variable.
///
/// Source: CMake manual, cmake-properties(7), ENVIRONMENT_MODIFICATION.
#[derive(Clone, Copy, Debug, PartialEq, Eq)]
pub enum Operation {
    /// Gives it the value that it has without any modification.
    Reset,
    Set,
    Unset,
    StringAppend,
    StringPrepend,
    /// Puts a value behind the others of a list with `:` between.
    PathListAppend,
    PathListPrepend,
    /// Puts a value behind the others of a list with `;` between.
    CmakeListAppend,
    CmakeListPrepend,
}

impl Operation {
    /// Finds the operation of a name.
    pub fn named(word: &[u8]) -> Option<Operation>
        ensures { result ≡ operation_named word.now }
    {
        if is(word, b"reset") {
            Some(Operation::Reset)
        } else if is(word, b"set") {
            Some(Operation::Set)
        } else if is(word, b"unset") {
            Some(Operation::Unset)
        } else if is(word, b"string_append") {
            Some(Operation::StringAppend)
        } else if is(word, b"string_prepend") {
            Some(Operation::StringPrepend)
        } else if is(word, b"path_list_append") {
            Some(Operation::PathListAppend)
        } else if is(word, b"path_list_prepend") {
            Some(Operation::PathListPrepend)
        } else if is(word, b"cmake_list_append") {
            Some(Operation::CmakeListAppend)
        } else if is(word, b"cmake_list_prepend") {
            Some(Operation::CmakeListPrepend)
        } else {
            None
        }
    }

    /// Returns the value of a variable after the operation; `None` is a variable that is not set.
    pub fn value_after(
        self,
        alloc: Global,
        value: &[u8],
        base: Option<&[u8]>,
        old: Option<&[u8]>,
    ) -> Result<Option<Vec<u8>>, NoMemory>
        ensures { IfOk result (λ new. option_map (λ text. text.items) new ≡ value_after self value.now (option_copied base.entry) (option_copied old.entry)) }
    {
        let text = old.unwrap_or(&[]);
        match self {
            Operation::Reset => copied(alloc, base),
            Operation::Set => copied(alloc, Some(value)),
            Operation::Unset => Ok(None),
            Operation::StringAppend => joined(alloc, text, &[], value),
            Operation::StringPrepend => joined(alloc, value, &[], text),
            Operation::PathListAppend => set_behind(alloc, b':', text, value),
            Operation::PathListPrepend => set_in_front(alloc, b':', text, value),
            Operation::CmakeListAppend => set_behind(alloc, b';', text, value),
            Operation::CmakeListPrepend => set_in_front(alloc, b';', text, value),
        }
    }
}

fn is(word: &[u8], name: &[u8]) -> bool
    ensures { result ≡ bytes_eq word.now name.now }
{
    word == name
}

fn copied(alloc: Global, value: Option<&[u8]>) -> Result<Option<Vec<u8>>, NoMemory>
    ensures { IfOk result (λ new. option_map (λ text. text.items) new ≡ option_copied value.entry) }
{
    match value {
        None => Ok(None),
        Some(text) => Ok(Some(Vec::from_slice(alloc, text)?)),
    }
}

/// Returns a list with a value behind its others, as the value of a variable that is set.
fn set_behind(
    alloc: Global,
    separator: u8,
    list: &[u8],
    value: &[u8],
) -> Result<Option<Vec<u8>>, NoMemory>
    ensures { IfOk result (λ new. option_map (λ text. text.items) new ≡ Some (behind separator list.now value.now)) }
{
    match list {
        [] => copied(alloc, Some(value)),
        _ => joined(alloc, list, &[separator], value),
    }
}

/// Returns a list with a value in front of its others, as the value of a variable that is set.
fn set_in_front(
    alloc: Global,
    separator: u8,
    list: &[u8],
    value: &[u8],
) -> Result<Option<Vec<u8>>, NoMemory>
    ensures { IfOk result (λ new. option_map (λ text. text.items) new ≡ Some (in_front separator list.now value.now)) }
{
    match list {
        [] => copied(alloc, Some(value)),
        _ => joined(alloc, value, &[separator], list),
    }
}

/// Returns three texts as one, as the value of a variable that is set.
fn joined(
    alloc: Global,
    front: &[u8],
    between: &[u8],
    behind: &[u8],
) -> Result<Option<Vec<u8>>, NoMemory>
    ensures { IfOk result (λ new. option_map (λ text. text.items) new ≡ Some (front.now ++ (between.now ++ behind.now))) }
{
    let mut text = Vec::from_slice(alloc, front)?;
    text.extend_from_slice(between)?;
    text.extend_from_slice(behind)?;
    Ok(Some(text))
}
