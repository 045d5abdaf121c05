ghost use Rattle.std.specs.Prelude.{◌≡◌, IfOk, drop, map};
ghost use Rattle.ct_groups.specs.Description.{pieces_of as parts};
ghost use Rattle.ct_args.specs.Values.{numbers_in, numbers_of as numbers_by, entry_in as entry_by, entries_in as entries_by, number_at as number_by, numbers_among as numbers_found, or_one as one_for_none};
ghost use Rattle.ct_args.specs.Read.{IsValue};

use crate::usage::{UsageKind, ValueFault};
use ct_base::{List, NoMemory, number};
use ct_props::Numbers;
use std::alloc::Global;

/// Reads the value of -I: start, end, stride and single numbers, with commas between.
///
/// Source: CMake manual, ctest(1), -I. That zero stands for 1 as start and as stride is this
/// project's choice.
#[tactic(auto, unfolding(crate::specs::Values::numbers_in))]
pub fn numbers(alloc: Global, text: &[u8]) -> Result<Numbers, ValueFault>
    ensures { IsValue (λ x. x) (numbers_in text.now) result }
{
    let entries = entries_in(alloc, text)?;
    Ok(numbers_of(alloc, entries.as_slice())?)
}

fn entries_in(alloc: Global, text: &[u8]) -> Result<List<Option<u32>>, ValueFault>
    ensures { IsValue (λ x. x) (entries_by (parts text.now)) result }
{
    let pieces = pieces_of(alloc, text)?;
    let mut entries = List::new(alloc);
    for piece in &pieces {
        entries.push(entry_in(piece)?)?;
    }
    Ok(entries)
}

/// The pieces of a text between its commas.
fn pieces_of(alloc: Global, text: &[u8]) -> Result<Vec<&[u8]>, NoMemory>
    ensures { IfOk result (λ pieces. map (λ piece. piece.now) pieces.items ≡ parts text.now) }
{
    Ok(text.split(|byte| *byte == b',').collect(alloc)?)
}

/// A number, or `None` where nothing stands.
fn entry_in(text: &[u8]) -> Result<Option<u32>, UsageKind>
    ensures { result ≡ entry_by text.now }
{
    if text.is_empty() {
        return Ok(None);
    }
    match number(text) {
        None => Err(UsageKind::BadNumber),
        Some(read) => Ok(Some(read.min(u64::from(u32::MAX)) as u32)),
    }
}

fn numbers_of(alloc: Global, entries: &[Option<u32>]) -> Result<Numbers, NoMemory>
    ensures { IfOk result (λ numbers. numbers ≡ numbers_by entries.now) }
{
    Ok(Numbers {
        start: or_one(number_at(entries, 0)),
        end: number_at(entries, 1),
        stride: or_one(number_at(entries, 2)),
        more: numbers_among(alloc, behind_stride(entries))?,
    })
}

fn number_at(entries: &[Option<u32>], at: usize) -> Option<u32>
    ensures { result ≡ number_by at entries.now }
{
    match entries.get(at) {
        None => None,
        Some(entry) => *entry,
    }
}

fn or_one(number: Option<u32>) -> u32
    ensures { result ≡ one_for_none number }
{
    number.unwrap_or(1).max(1)
}

fn behind_stride(entries: &[Option<u32>]) -> &[Option<u32>]
    ensures { result.now ≡ drop 3 entries.now }
{
    match entries {
        [_, _, _, more @ ..] => more,
        _ => &[],
    }
}

fn numbers_among(alloc: Global, entries: &[Option<u32>]) -> Result<List<u32>, NoMemory>
    ensures { IfOk result (λ numbers. numbers ≡ numbers_found entries.now) }
{
    let mut numbers = List::new(alloc);
    for entry in entries {
        if let Some(number) = entry {
            numbers.push(*number)?;
        }
    }
    Ok(numbers)
}
