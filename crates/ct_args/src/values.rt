ghost use Rattle.std.specs.Prelude.{◌≡◌};
ghost use Rattle.ct_regex.specs.TreeOf.{regex_tree};
ghost use Rattle.ct_args.specs.Values.{pattern_in, level_in, level_of as level_by, limit_in, repeat_in, mode_in as mode_named, times_in as times_by, times_of as times_from, is_error_in, list_form_in};
ghost use Rattle.ct_args.specs.Read.{IsValue};

use crate::usage::{UsageKind, ValueFault};
use ct_base::{first_place, micros, number};
use ct_regex::{Regex, RegexFault};
use ct_verdict::{Mode, Repeat};
use std::alloc::Global;

/// The greatest level.
///
/// Source: this project's choice.
const MOST_LEVEL: u64 = 65_535;

/// How often a test can be tried at most.
///
/// Source: this project's choice.
const MOST_TIMES: u64 = 99_999;

/// Reads a pattern.
#[tactic(auto, unfolding(crate::specs::Values::pattern_in))]
pub fn pattern(alloc: Global, text: &[u8]) -> Result<Regex, ValueFault>
    ensures { IsValue regex_tree (pattern_in text.now) result }
{
    match Regex::parse(alloc, text) {
        Ok(pattern) => Ok(pattern),
        Err(RegexFault::NoMemory) => Err(ValueFault::NoMemory),
        Err(_) => Err(ValueFault::Bad(UsageKind::BadPattern)),
    }
}

/// Reads the value of -j: digits, at least 1. A level above the greatest is taken as that.
#[tactic(auto, unfolding(crate::specs::Values::level_in))]
pub fn level(text: &[u8]) -> Result<u32, UsageKind>
    ensures { result ≡ level_in text.now }
{
    match number(text) {
        None => Err(UsageKind::BadNumber),
        Some(level) => level_of(level),
    }
}

fn level_of(level: u64) -> Result<u32, UsageKind>
    ensures { result ≡ level_by level }
{
    if level == 0 {
        return Err(UsageKind::BadNumber);
    }
    Ok(level.min(MOST_LEVEL) as u32)
}

/// Reads the value of --timeout, in microseconds.
#[tactic(auto, unfolding(crate::specs::Values::limit_in))]
pub fn limit(text: &[u8]) -> Result<u64, UsageKind>
    ensures { result ≡ limit_in text.now }
{
    micros(text).ok_or(UsageKind::BadNumber)
}

/// Reads the value of --repeat: a mode, a `:` and how often a test is tried at most.
#[tactic(auto, unfolding(crate::specs::Values::repeat_in))]
pub fn repeat(text: &[u8]) -> Result<Repeat, UsageKind>
    ensures { result ≡ repeat_in text.now }
{
    let Some(at) = first_place(text, b':') else {
        return Err(UsageKind::BadMode);
    };
    let mode = mode_in(&text[..at])?;
    let times = times_in(&text[at + 1..])?;
    Ok(Repeat { mode, times })
}

fn mode_in(word: &[u8]) -> Result<Mode, UsageKind>
    ensures { result ≡ mode_named word.now }
{
    if word == b"until-fail".as_slice() {
        Ok(Mode::UntilFail)
    } else if word == b"until-pass".as_slice() {
        Ok(Mode::UntilPass)
    } else if word == b"after-timeout".as_slice() {
        Ok(Mode::AfterTimeout)
    } else {
        Err(UsageKind::BadMode)
    }
}

fn times_in(text: &[u8]) -> Result<u32, UsageKind>
    ensures { result ≡ times_by text.now }
{
    match number(text) {
        None => Err(UsageKind::BadNumber),
        Some(times) => times_of(times),
    }
}

fn times_of(times: u64) -> Result<u32, UsageKind>
    ensures { result ≡ times_from times }
{
    if times == 0 || times > MOST_TIMES {
        return Err(UsageKind::BadNumber);
    }
    Ok(times as u32)
}

/// Reads the value of --no-tests: whether it is an error that there is no test.
#[tactic(auto, unfolding(crate::specs::Values::is_error_in))]
pub fn is_error(text: &[u8]) -> Result<bool, UsageKind>
    ensures { result ≡ is_error_in text.now }
{
    if text == b"error".as_slice() {
        Ok(true)
    } else if text == b"ignore".as_slice() {
        Ok(false)
    } else {
        Err(UsageKind::BadMode)
    }
}

/// Reads the value of --show-only: the one form of the list that can be named.
#[tactic(auto, unfolding(crate::specs::Values::list_form_in))]
pub fn json(text: &[u8]) -> Result<(), UsageKind>
    ensures { result ≡ list_form_in text.now }
{
    if text == b"json-v1".as_slice() {
        Ok(())
    } else {
        Err(UsageKind::BadMode)
    }
}
