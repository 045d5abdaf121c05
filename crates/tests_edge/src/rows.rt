//! The rows of the tests' tables: the requests and the names that they write, and what is wanted of them.
//!
//! In most tables ` is ` stands in a row in front of what is wanted.

use ct_base::{Blob, List, Name, NoMemory, Pair};
use ct_core::Request;
use std::alloc::Global;
use std::str;
use std::test::Fail;

/// Makes the request that a row writes: the folder, and the words of the program, with A=b as its
/// whole environment. Behind ` needs ` stand the required files.
///
/// One space stands behind each part, and a tab in place of a space inside of a word.
pub(crate) fn request(alloc: Global, row: &str, limit: Option<u64>) -> Result<Request, NoMemory> {
    let (run, _) = row.split_once(" needs ").unwrap_or((row, ""));
    let (dir, line) = run.split_once(' ').unwrap_or(("", run));
    Ok(Request {
        test: 1,
        attempt: 1,
        name: Name::of(alloc, b"t")?,
        command: names(alloc, line, ' ')?,
        dir: Name::of(alloc, dir.as_bytes())?,
        env: environment(alloc)?,
        limit,
        required: required(alloc, row)?,
    })
}

fn environment(alloc: Global) -> Result<List<Pair>, NoMemory> {
    let mut env = List::new(alloc);
    env.push(Pair {
        name: Name::of(alloc, b"A")?,
        value: Name::of(alloc, b"b")?,
    })?;
    Ok(env)
}

/// Returns the files that a row requires.
fn required(alloc: Global, row: &str) -> Result<List<Name>, NoMemory> {
    match row.split_once(" needs ") {
        Some((_, files)) => names(alloc, files, ','),
        None => Ok(List::new(alloc)),
    }
}

pub(crate) fn names(alloc: Global, text: &str, between: char) -> Result<List<Name>, NoMemory> {
    let mut names = List::new(alloc);
    for name in text.split(between) {
        names.push(Name::of(alloc, name.as_bytes())?)?;
    }
    Ok(names)
}

/// Returns what a row asks, and what is wanted of it.
pub(crate) fn asked_and_wanted(row: &str) -> (&str, &str) {
    row.split_once(" is ").unwrap_or((row, ""))
}

/// Returns the first cell of a row, and the others.
pub(crate) fn cell(row: &str) -> (&str, &str) {
    row.split_once(' ').unwrap_or((row, ""))
}

pub(crate) fn number(cell: &str) -> u64 {
    cell.parse().unwrap_or(0)
}

/// Returns the limit that a cell writes, in microseconds, or `None` for a word.
pub(crate) fn limit(cell: &str) -> Option<u64> {
    cell.parse().ok()
}

pub(crate) fn text(bytes: &Blob) -> &str {
    str::from_utf8(bytes.bytes()).unwrap_or("no text")
}

/// Fails unless what is told of a row is what is wanted.
pub(crate) fn expect(row: &str, told: &str, want: &str) -> Result<(), Fail> {
    if told == want {
        return Ok(());
    }
    Err(Fail::new(format_args!("{row}: wanted {want}, got {told}")))
}
