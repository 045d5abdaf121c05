ghost use Rattle.std.specs.Prelude.{◌≡◌, IfErr};
ghost use Rattle.std.specs.Option.{option_map, option_and_then};
ghost use Rattle.ct_props.specs.Values.{value_of_key as value_by, processors_in, seconds_in, skip_code_in, code_in as code_by, code_from_zero as code_up, code_to_zero as code_down, bounded_processors};
ghost use Rattle.ct_props.specs.Refusal.{ReadsKey, HasReason};

use crate::fault::bad;
use crate::texts::value_of;
use crate::{PropFault, PropKind};
use ct_base::{Pair, micros, number};
use std::alloc::Global;

/// The greatest number of processors that a test can ask for.
///
/// Source: this project's choice.
const MOST_PROCESSORS: u64 = 65_535;

/// Returns how many processors a test takes: 1 without the key and for 0, and at most 65,535.
pub fn processors(alloc: Global, props: &[Pair], key: &[u8]) -> Result<u32, PropFault>
    ensures value { ReadsKey (λ x. x) key.now (processors_in (value_by props.now key.now)) result }
    ensures reason { IfErr result HasReason }
{
    let Some(text) = value_of(props, key) else {
        return Ok(1);
    };
    let Some(read) = number(text) else {
        return Err(bad(alloc, key, PropKind::BadNumber));
    };
    Ok(bounded(read))
}

fn bounded(number: u64) -> u32
    ensures { result ≡ bounded_processors number }
{
    number.max(1).min(MOST_PROCESSORS) as u32
}

/// Returns a time or a cost in microseconds, if the test has the key.
pub fn seconds(alloc: Global, props: &[Pair], key: &[u8]) -> Result<Option<u64>, PropFault>
    ensures value { ReadsKey (λ x. x) key.now (seconds_in (value_by props.now key.now)) result }
    ensures reason { IfErr result HasReason }
{
    let Some(text) = value_of(props, key) else {
        return Ok(None);
    };
    let Some(read) = micros(text) else {
        return Err(bad(alloc, key, PropKind::BadNumber));
    };
    Ok(Some(read))
}

/// Returns an exit code, if the test has the key.
pub fn skip_code(alloc: Global, props: &[Pair], key: &[u8]) -> Result<Option<i32>, PropFault>
    ensures value { ReadsKey (λ x. x) key.now (skip_code_in (value_by props.now key.now)) result }
    ensures reason { IfErr result HasReason }
{
    let Some(text) = value_of(props, key) else {
        return Ok(None);
    };
    let Some(read) = code_in(text) else {
        return Err(bad(alloc, key, PropKind::BadNumber));
    };
    Ok(Some(read))
}

fn code_in(text: &[u8]) -> Option<i32>
    ensures { result ≡ code_by text.now }
{
    match text {
        [] => None,
        [first, rest @ ..] => {
            if *first == b'-' {
                match number(rest) {
                    None => None,
                    Some(read) => code_to_zero(read),
                }
            } else {
                match number(text) {
                    None => None,
                    Some(read) => code_from_zero(read),
                }
            }
        }
    }
}

fn code_from_zero(number: u64) -> Option<i32>
    ensures { result ≡ code_up number }
{
    if number < 2_147_483_648 {
        Some(number as i32)
    } else {
        None
    }
}

fn code_to_zero(number: u64) -> Option<i32>
    ensures { result ≡ code_down number }
{
    if number <= 2_147_483_648 {
        Some(-(number as i64) as i32)
    } else {
        None
    }
}
