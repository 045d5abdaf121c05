//! The small texts of ct_base: paths, lists and times.

use crate::row::{Given, RowFault};
use ct_base::{Name, NoMemory, join_path, micros, split_list};
use std::alloc::Global;
use std::str;

/// Returns the text that the bytes are; `?` if they are none.
pub(crate) fn text_of(bytes: &[u8]) -> &str {
    str::from_utf8(bytes).unwrap_or("?")
}

/// Tells the path of a folder and a name.
pub(crate) fn joined(alloc: Global, given: Given<'_>) -> Result<String, RowFault> {
    let path = path_of(alloc, given.bytes("folder")?, given.bytes("name")?)?;
    Ok(String::from_str(alloc, text_of(path.bytes()))?)
}

fn path_of(alloc: Global, dir: &[u8], name: &[u8]) -> Result<Name, NoMemory> {
    let dir = Name::of(alloc, dir)?;
    let name = Name::of(alloc, name)?;
    join_path(alloc, &dir, &name)
}

/// Tells how many entries a text has, and in a line behind it the last one.
pub(crate) fn split(alloc: Global, given: Given<'_>) -> Result<String, RowFault> {
    let entries = split_list(alloc, given.bytes("text")?)?;
    let last = last_of(entries.as_slice());
    Ok(format!(in alloc; "{}\n{last}", entries.len())?)
}

/// Returns the last entry; empty if there is none.
fn last_of(entries: &[Name]) -> &str {
    match entries.last() {
        Some(entry) => text_of(entry.bytes()),
        None => "",
    }
}

/// Tells the microseconds of a time in seconds, if it is one.
pub(crate) fn seconds(alloc: Global, given: Given<'_>) -> Result<String, RowFault> {
    let found = micros(given.bytes("seconds")?);
    Ok(format!(in alloc; "{found:?}")?)
}
