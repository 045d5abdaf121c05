ghost use Rattle.std.specs.Prelude.{◌≡◌, IfOk, option_map};
ghost use Rattle.ct_env.specs.Assignment.{split_first as parts_of, assignment_in as assignment_of, assignments_in as assignments_of};

use ct_base::{List, Name, NoMemory, Pair, first_place};
use std::alloc::Global;

/// Splits a text at the first place of a byte.
pub fn split_first(text: &[u8], byte: u8) -> Option<(&[u8], &[u8])>
    ensures { option_map (λ parts. (parts.0.now, parts.1.now)) result ≡ parts_of byte text.now }
{
    let at = first_place(text, byte)?;
    Some((&text[..at], &text[at + 1..]))
}

/// Splits an entry into the name of a variable and what stands behind its `=`.
///
/// Source: CMake manual, cmake-properties(7), ENVIRONMENT. That an entry with an empty name sets no
/// variable is this project's choice.
pub fn assignment_in(entry: &[u8]) -> Option<(&[u8], &[u8])>
    ensures { option_map (λ parts. record { name = parts.0.now; value = parts.1.now }) result ≡ assignment_of entry.now }
{
    let (name, value) = split_first(entry, b'=')?;
    if name.is_empty() {
        return None;
    }
    Some((name, value))
}

/// Returns the variables that entries set, in order. An entry that sets none is passed over.
pub fn assignments_in(alloc: Global, entries: &[Name]) -> Result<List<Pair>, NoMemory>
    ensures { IfOk result (λ pairs. pairs ≡ assignments_of entries.now) }
{
    let mut pairs = List::new(alloc);
    for entry in entries {
        if let Some((name, value)) = assignment_in(entry.bytes()) {
            pairs.push(Pair {
                name: Name::of(alloc, name)?,
                value: Name::of(alloc, value)?,
            })?;
        }
    }
    Ok(pairs)
}
