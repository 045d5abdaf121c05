ghost use Rattle.std.specs.Prelude.{◌≡◌, ◌++◌, ◌∷◌, [], IfOk, OnOk, filter};
ghost use Rattle.ct_base.specs.Entries.{entries_of, is_entry, is_escape as begins_with_escape};

use crate::{List, Name, NoMemory};
use std::alloc::Global;

/// Reads a text as a list of entries: a `;` ends an entry, `\;` is a `;` inside an entry, and empty
/// entries are dropped.
///
/// Source: CMake manual, cmake-language(7), Lists. This project's choice: square brackets protect
/// nothing.
#[tactic(auto, using(crate::proofs::EntryLemmas::reads_all, crate::proofs::EntryLemmas::reads_byte, crate::proofs::EntryLemmas::reads_end, crate::proofs::EntryLemmas::reads_escape, crate::proofs::EntryLemmas::reads_none))]
pub fn split_list(alloc: Global, text: &[u8]) -> Result<List<Name>, NoMemory>
    ensures { IfOk result (λ entries. entries ≡ entries_of text.now) }
{
    let mut entries = List::from_vec(Vec::with_capacity(alloc, pieces(text))?);
    let mut entry = Vec::new(alloc);
    let mut at = 0;
    while at < text.len() {
        if is_escape(&text[at..]) {
            entry.push(b';')?;
            at += 2;
        } else if text[at] == b';' {
            push_entry(&mut entries, entry)?;
            entry = Vec::new(alloc);
            at += 1;
        } else {
            entry.push(text[at])?;
            at += 1;
        }
    }
    push_entry(&mut entries, entry)?;
    Ok(entries)
}

/// Counts the pieces between all semicolons that are not empty, so that their list has the room that it takes.
fn pieces(text: &[u8]) -> usize {
    text.split(|byte| *byte == b';')
        .filter(|piece| !piece.is_empty())
        .count()
}

/// Appends an entry, if it is not empty.
fn push_entry(entries: &mut List<Name>, entry: Vec<u8>) -> Result<(), NoMemory>
    ensures { OnOk result (entries.new ≡ entries.old ++ filter is_entry (entry.items ∷ [])) }
{
    if entry.is_empty() {
        return Ok(());
    }
    entries.push(Name::from_vec(entry))
}

fn is_escape(text: &[u8]) -> bool
    ensures { result ≡ begins_with_escape text.now }
{
    matches!(text, [b'\\', b';', ..])
}
