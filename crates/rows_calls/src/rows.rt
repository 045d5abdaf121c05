//! The rows of a file, and how many of them there are.

use crate::came::{Came, Machine, come};
use crate::tells::tell;
use anyhow::{anyhow, bail};
use ct_base::NoMemory;
use std::fmt;
use tests_calls::{CallRow, Want, calls_of, count_rows, keeps_files, odd_line};

/// How many files, rows, calls and wants there were, and how many wants were not met.
#[derive(Clone, Copy)]
pub(crate) struct Counts {
    files: usize,
    rows: usize,
    calls: usize,
    wants: usize,
    differ: usize,
}

impl Counts {
    pub(crate) fn none() -> Counts {
        Counts {
            files: 0,
            rows: 0,
            calls: 0,
            wants: 0,
            differ: 0,
        }
    }

    /// Returns whether there are wants, and each one was met.
    pub(crate) fn are_well(&self) -> bool {
        self.wants > 0 && self.differ == 0
    }

    fn add_file(&mut self, rows: usize) {
        self.files = self.files.saturating_add(1);
        self.rows = self.rows.saturating_add(rows);
    }

    fn add_call(&mut self) {
        self.calls = self.calls.saturating_add(1);
    }

    fn add_want(&mut self, is_met: bool) {
        self.wants = self.wants.saturating_add(1);
        if !is_met {
            self.differ = self.differ.saturating_add(1);
        }
    }
}

impl fmt::Display for Counts {
    fn fmt<W: fmt::Write>(&self, f: &mut fmt::Formatter<W>) -> fmt::Result {
        let Counts {
            files,
            rows,
            calls,
            wants,
            differ,
        } = *self;
        write!(
            f,
            "{files} files, {rows} rows, {calls} calls, {wants} wants, {differ} differ"
        )
    }
}

/// Makes the calls of a file, compares what they come to with what is wanted, and counts.
pub(crate) fn run_file(
    rt: &impl Machine,
    path: &str,
    text: &str,
    counts: &mut Counts,
) -> anyhow::Result<()> {
    if let Some(line) = odd_line(text) {
        bail!("{path}: this line cannot stand where it does: {line}");
    }
    counts.add_file(count_rows(text));
    let calls = calls_of(rt.alloc(), text).map_err(wanting)?;
    if calls.is_empty() {
        bail!("{path}: there is no row");
    }
    for call in &calls {
        run_call(rt, path, call, counts)?;
    }
    Ok(())
}

/// Makes a call, compares what it comes to with what is wanted, and counts.
fn run_call(
    rt: &impl Machine,
    path: &str,
    call: &CallRow<'_>,
    counts: &mut Counts,
) -> anyhow::Result<()> {
    let Some(mut came) = come(rt, call).map_err(wanting)? else {
        bail!("{path}: {call}: there is no such call");
    };
    let wants = call.wants(rt.alloc()).map_err(wanting)?;
    if wants.is_empty() {
        bail!("{path}: {call}: nothing is wanted");
    }
    counts.add_call();
    counts.add_want(keeps(rt, path, call, &came)?);
    for want in &wants {
        counts.add_want(meets(rt, path, call, want, &mut came)?);
    }
    Ok(())
}

/// Returns whether the files of a row hold behind a call of `ctest` what they held, and prints where not.
fn keeps(rt: &impl Machine, path: &str, call: &CallRow<'_>, came: &Came) -> anyhow::Result<bool> {
    if !call.top.starts_with("ctest")
        || keeps_files(rt.alloc(), call, &came.files).map_err(wanting)?
    {
        return Ok(true);
    }
    println!(rt; "{path}: {call}: a file has changed")?;
    Ok(false)
}

/// Returns whether what came is what is wanted, and prints both where not.
fn meets(
    rt: &impl Machine,
    path: &str,
    call: &CallRow<'_>,
    want: &Want<'_>,
    came: &mut Came,
) -> anyhow::Result<bool> {
    let asked = want.tell;
    let Some(text) = tell(rt.alloc(), came, asked).map_err(wanting)? else {
        bail!("{path}: {call}: nothing tells {asked}");
    };
    if want.allows(rt.alloc(), text.as_str()).map_err(wanting)? {
        return Ok(true);
    }
    println!(rt; "{path}: {call}: {asked}\nwanted:\n{want}\ncame:\n{text}")?;
    Ok(false)
}

fn wanting(_: NoMemory) -> anyhow::Error {
    anyhow!("memory was wanting")
}
