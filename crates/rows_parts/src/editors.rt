//! The tests of a run as JSON, for editors, byte for byte.

use crate::row::{Given, RowFault};
use ct_base::{Blob, List, Name, NoMemory, Pair, TestDef};
use ct_info::info;
use std::alloc::Global;

/// Makes the JSON text of the members among tests with these names, one a line. Each has these labels.
pub(crate) fn told(alloc: Global, given: Given<'_>) -> Result<Blob, RowFault> {
    let defs = defs_of(alloc, given.bytes("names")?, given.bytes("labels")?)?;
    let members = members_of(alloc, given.text("members")?)?;
    let config = Name::of(alloc, given.bytes("config")?)?;
    Ok(info(alloc, &defs, &members, &config)?)
}

fn defs_of(alloc: Global, names: &[u8], labels: &[u8]) -> Result<List<TestDef>, NoMemory> {
    let mut defs = List::new(alloc);
    for name in names.split(|byte| *byte == b'\n') {
        defs.push(test(alloc, name, labels)?)?;
    }
    Ok(defs)
}

fn test(alloc: Global, name: &[u8], labels: &[u8]) -> Result<TestDef, NoMemory> {
    let mut command = List::new(alloc);
    command.push(Name::of(alloc, b"true")?)?;
    let mut props = List::new(alloc);
    if !labels.is_empty() {
        props.push(Pair {
            name: Name::of(alloc, b"LABELS")?,
            value: Name::of(alloc, labels)?,
        })?;
    }
    Ok(TestDef {
        name: Name::of(alloc, name)?,
        command,
        dir: Name::of(alloc, b".")?,
        props,
        dir_labels: List::new(alloc),
    })
}

fn members_of(alloc: Global, text: &str) -> Result<List<u32>, NoMemory> {
    let mut members = List::new(alloc);
    for number in text.split(',') {
        members.push(number.parse().unwrap_or(0))?;
    }
    Ok(members)
}
