ghost use Rattle.std.specs.Prelude.{◌≡◌, ℕ, ◌+◌, ◌<◌, ◌≤◌, ◌^◌, ◌==◌, [], ◌∷◌, ◌++◌, drop, length, slice_index, IfOk, if◌then◌else◌, ◌&&◌, not};
ghost use Rattle.ct_regex.specs.Bytes.{open_set, close_set};
ghost use Rattle.ct_regex.specs.Limits.{most_pattern_bytes};
ghost use Rattle.ct_regex.specs.Signs.{begins_negated, is_range as is_range_in, item_high, set_of, is_none, atom};
ghost use Rattle.ct_regex.specs.Tree.{one};
ghost use Rattle.ct_regex.specs.Meaning.{byte_test};
ghost use Rattle.ct_regex.specs.Gives.{ReadsSign};

use crate::RegexFault;
use crate::tree::{ByteTest, Span};
use ct_base::NoMemory;
use std::alloc::Global;

/// Reads the set whose `[` stands at a place, and returns the place behind it.
pub(crate) fn set_at(
    alloc: Global,
    text: &[u8],
    opened: usize,
) -> Result<(ByteTest, usize), RegexFault>
    requires opens { slice_index text.now opened ≡ open_set }
    requires within { opened < length text.now }
    requires few { length text.now ≤ most_pattern_bytes }
    ensures { ReadsSign (λ test. atom (one (byte_test test))) text.now opened result }
{
    let negated = is_negated(&text[opened + 1..]);
    let mut at = opened + first_item(negated);
    let mut items = Vec::new(alloc);
    'items: while at < text.len() {
        let low = text[at];
        if ends_set(low, &items) {
            return Ok((of_items(negated, items), at + 1));
        }
        let rest = &text[at + 1..];
        let high = high_of(low, rest);
        if high < low {
            return Err(RegexFault::BadRange(at as u32));
        }
        items = with_item(items, Span { low, high })?;
        at += item_len(rest);
    }
    Err(RegexFault::OpenSet(opened as u32))
}

/// Returns how many bytes stand in front of the first item of a set, the `[` included.
fn first_item(negated: bool) -> usize
    ensures value { result ≡ (if negated then 2 else 1) }
    ensures some { 0 < result }
    ensures few { result ≤ 2 }
{
    if negated { 2 } else { 1 }
}

/// Returns whether the byte is the `]` that ends the set. The first byte of a set does not end it.
fn ends_set(byte: u8, items: &[Span]) -> bool
    ensures { result ≡ ((byte == close_set) && not (is_none items.now)) }
{
    byte == b']' && !items.is_empty()
}

/// Returns how many bytes the item has.
fn item_len(rest: &[u8]) -> usize
    ensures value { result ≡ (if is_range_in rest.now then 3 else 1) }
    ensures some { 0 < result }
    ensures few { result ≤ 3 }
{
    if is_range(rest) { 3 } else { 1 }
}

/// Returns whether the set is negated by a `^`.
fn is_negated(rest: &[u8]) -> bool
    ensures { result ≡ begins_negated rest.now }
{
    match rest.first() {
        Some(first) => *first == b'^',
        None => false,
    }
}

/// Returns whether the bytes behind the first byte of an item make it a range.
fn is_range(rest: &[u8]) -> bool
    ensures { result ≡ is_range_in rest.now }
{
    rest.len() > 1 && rest[0] == b'-' && rest[1] != b']'
}

/// Returns the last byte of the item that begins with `low`.
fn high_of(low: u8, rest: &[u8]) -> u8
    ensures { result ≡ item_high low rest.now }
{
    if is_range(rest) { rest[1] } else { low }
}

fn with_item(mut items: Vec<Span>, item: Span) -> Result<Vec<Span>, NoMemory>
    ensures { IfOk result (λ all. all.items ≡ items.items ++ item ∷ []) }
{
    items.push(item)?;
    Ok(items)
}

fn of_items(negated: bool, items: Vec<Span>) -> ByteTest
    ensures { byte_test result ≡ set_of negated items.items }
{
    if negated {
        ByteTest::Outside(items)
    } else {
        ByteTest::Inside(items)
    }
}
