//! The program that makes the calls of rows: each file of the folder that it is started in is read, each call of
//! its rows is made over stand-ins, and what it comes to is compared with what is wanted.
//!
//! It prints each want that is not met, with both sides, and then how many files, rows, calls and wants there
//! were, and how many differ. It fails where a want is not met, where a file is no text of rows, and where there
//! is no row.
//!
//! Hands up: nothing; it is the program.
//! Read first: `rows.rt`, then `came.rt`.
#![tactic(auto)]

mod came;
mod judged;
mod rows;
mod tells;

use crate::rows::{Counts, run_file};
use anyhow::{anyhow, bail};
use std::fs;

fn main(rt: HostRuntime) -> anyhow::Result<()> {
    let mut counts = Counts::none();
    for path in file_names(rt)?.as_slice() {
        let text = fs::read_to_string(&rt, path.as_str()).map_err(|why| anyhow!("{path}: {why}"))?;
        run_file(&rt, path.as_str(), text.as_str(), &mut counts)?;
    }
    println!(rt; "{counts}")?;
    if counts.are_well() {
        Ok(())
    } else {
        bail!("not each want is met, or there is none")
    }
}

/// Returns the names of the files in the folder, in order.
fn file_names(rt: HostRuntime) -> anyhow::Result<Vec<String>> {
    let mut names = Vec::new(rt.alloc());
    for entry in fs::read_dir(&rt, ".")? {
        names.push(String::from_str(rt.alloc(), entry?.file_name())?)?;
    }
    names.sort()?;
    Ok(names)
}
