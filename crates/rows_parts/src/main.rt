//! The program `rows_parts`: it runs the rows of every file in the folder that it is started in.
//! It prints each row that comes to something else than is wanted, and the counts.
//!
//! Hands up: nothing; it is the program. docs/CONTRIBUTING.md says how a row is added.
//! Read first: `sheet.rt`, the form of a file of rows; then `parts.rt`, the parts that a file may ask.
#![tactic(auto)]

mod choices;
mod costs;
mod editors;
mod entries;
mod environment;
mod groups;
mod journal;
mod lexer;
mod orders;
mod parts;
mod past;
mod patterns;
mod planning;
mod plans;
mod properties;
mod report;
mod row;
mod sheet;
mod specification;
mod trees;
mod words;

use crate::entries::text_of;
use crate::row::{Given, RowFault};
use crate::sheet::Sheet;
use anyhow::{anyhow, bail};
use ct_base::{Blob, NoMemory};
use std::alloc::Global;
use std::fs;
use std::io::Print;

/// How many files and rows were run, and how many of them did not come to what is wanted.
#[derive(Clone, Copy)]
struct Tally {
    files: u64,
    rows: u64,
    differ: u64,
    unread: u64,
}

fn main(rt: HostRuntime) -> anyhow::Result<()> {
    let names = names_of(&rt)?;
    let mut tally = Tally {
        files: 0,
        rows: 0,
        differ: 0,
        unread: 0,
    };
    for name in names.as_slice() {
        tally.files = tally.files.saturating_add(1);
        run_file(&rt, name.as_str(), &mut tally)?;
    }
    println!(rt;
        "{} files, {} rows, {} differ",
        tally.files, tally.rows, tally.differ
    )?;
    if tally.rows == 0 || tally.differ > 0 || tally.unread > 0 {
        bail!(
            "{} rows differ, and {} files were not read",
            tally.differ,
            tally.unread
        );
    }
    Ok(())
}

/// Returns the names in the folder that the program is started in, in byte order.
fn names_of(rt: &(impl fs::Files + AllocGlobal + Clone + Drop)) -> anyhow::Result<Vec<String>> {
    let mut names = Vec::new(rt.alloc());
    for entry in fs::read_dir(rt, ".")? {
        let entry = entry?;
        names.push(String::from_str(rt.alloc(), entry.file_name())?)?;
    }
    names.sort()?;
    Ok(names)
}

/// Runs the rows of a file. A file that is not read, or that has no row, is counted as unread.
fn run_file(
    rt: &(impl fs::Files + AllocGlobal + Print),
    name: &str,
    tally: &mut Tally,
) -> anyhow::Result<()> {
    let sheet = match fs::read_to_string(rt, name) {
        Ok(text) => Sheet::read(rt.alloc(), text.as_str()),
        Err(_) => Err(RowFault::NoText),
    };
    match sheet {
        Ok(sheet) => run_rows(rt, name, &sheet, tally),
        Err(fault) => {
            tally.unread = tally.unread.saturating_add(1);
            println!(rt; "{name}: {fault:?}")?;
            Ok(())
        }
    }
}

fn run_rows(
    rt: &(impl AllocGlobal + Print),
    name: &str,
    sheet: &Sheet,
    tally: &mut Tally,
) -> anyhow::Result<()> {
    for row in sheet.rows.as_slice() {
        tally.rows = tally.rows.saturating_add(1);
        let given = sheet.given(row);
        let told = told(rt.alloc(), given)?;
        let want = given
            .bytes("want")
            .unwrap_or(b"(no line of the key `want`)");
        if told.bytes() != want {
            tally.differ = tally.differ.saturating_add(1);
            show(rt, name, row.name.as_str(), want, told.bytes())?;
        }
    }
    Ok(())
}

/// Returns what a row comes to; where its part cannot be asked, why.
fn told(alloc: Global, given: Given<'_>) -> anyhow::Result<Blob> {
    let told = match parts::told(alloc, given) {
        Ok(told) => Ok(told),
        Err(fault) => fault_told(alloc, fault),
    };
    told.map_err(|_| anyhow!("memory was wanting"))
}

fn fault_told(alloc: Global, fault: RowFault) -> Result<Blob, NoMemory> {
    let told = format!(in alloc; "(no answer: {fault:?})")?;
    Blob::of(alloc, told.as_bytes())
}

/// Prints both sides of a row.
fn show(rt: &impl Print, file: &str, row: &str, want: &[u8], told: &[u8]) -> anyhow::Result<()> {
    println!(rt; "{file}: {row}")?;
    println!(rt; "want: {}", text_of(want))?;
    println!(rt; "told: {}", text_of(told))?;
    Ok(())
}
