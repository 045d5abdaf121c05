//! Cost data: what is read of a text, and what a run leaves in it.

ghost use Rattle.std.specs.Prelude.{◌≡◌, true};
ghost use Rattle.ct_history.specs.Verdicts.{are_all_final};

use crate::past::{Record, record_of};
use crate::row::{Given, RowFault};
use ct_base::{Blob, Name, NoMemory};
use ct_cost::{CostData, failed_log};
use std::alloc::Global;

/// Tells what is written of cost data again.
pub(crate) fn again(alloc: Global, given: Given<'_>) -> Result<Blob, RowFault> {
    Ok(text_again(alloc, given.bytes("cost data")?)?)
}

fn text_again(alloc: Global, old: &[u8]) -> Result<Blob, NoMemory> {
    let costs = CostData::read(alloc, old)?;
    costs.text(alloc)
}

/// Tells the cost of a name, if one is known, and how its test ended.
pub(crate) fn known(alloc: Global, given: Given<'_>) -> Result<String, RowFault> {
    let name = Name::of(alloc, given.bytes("name")?)?;
    let costs = CostData::read(alloc, given.bytes("cost data")?)?;
    known_told(alloc, &costs, &name)
}

fn known_told(alloc: Global, costs: &CostData, name: &Name) -> Result<String, RowFault> {
    let end = if costs.failed(name) {
        "failed"
    } else {
        "passed"
    };
    match costs.cost(name) {
        Some(cost) => Ok(format!(in alloc; "{cost} {end}")?),
        None => Ok(format!(in alloc; "none {end}")?),
    }
}

/// Tells the cost data that a run leaves.
pub(crate) fn after(alloc: Global, given: Given<'_>) -> Result<Blob, RowFault> {
    let old = given.bytes("cost data")?;
    let record = record_of(alloc, given.text("run")?)?;
    text_after(alloc, &record, old)
}

fn text_after(alloc: Global, past: &Record, old: &[u8]) -> Result<Blob, RowFault>
    requires { are_all_final past.now.plan past.now.history.entries.items ≡ true }
{
    let costs = CostData::read(alloc, old)?;
    let costs = costs.after(alloc, &past.plan, &past.history)?;
    Ok(costs.text(alloc)?)
}

/// Tells the log of failed tests that a run leaves.
pub(crate) fn log(alloc: Global, given: Given<'_>) -> Result<Blob, RowFault> {
    let record = record_of(alloc, given.text("run")?)?;
    log_of(alloc, &record)
}

fn log_of(alloc: Global, past: &Record) -> Result<Blob, RowFault>
    requires { are_all_final past.now.plan past.now.history.entries.items ≡ true }
{
    Ok(failed_log(alloc, &past.plan, &past.history)?)
}
