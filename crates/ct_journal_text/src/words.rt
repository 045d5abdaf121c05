ghost use Rattle.std.specs.Prelude.{◌≡◌, ◌++◌, OnOk, take, drop, decimal};
ghost use Rattle.ct_journal_text.specs.Journal.{not_run_word as cause_written, hit_digit as digit_of, hits_text as hits_written, how_text as how_written};
ghost use Rattle.ct_journal_text.specs.Guess.{cause_in as cause_by, numbered_cause_in as numbered_cause_by, hit_in as hit_by, how_in as how_by};

use crate::numbers::{append_code, code_in, short_in};
use ct_base::{Blob, NoMemory};
use ct_verdict::{Cause, How, Seen};
use std::alloc::Global;

/// Puts how an attempt ended behind the text, as a word.
pub(crate) fn append_how(alloc: Global, text: &mut Blob, how: How) -> Result<(), NoMemory>
    ensures { OnOk result (text.new ≡ text.old ++ how_written how) }
{
    match how {
        How::Exited(code) => {
            text.append(b"exit:")?;
            append_code(alloc, text, code)
        }
        How::Signalled => text.append(b"signal"),
        How::TimedOut => text.append(b"timeout"),
        How::NotStarted => text.append(b"unstarted"),
        How::Lacks(place) => append_numbered(alloc, text, b"lacks:", place),
        How::NoMemory => text.append(b"memory"),
    }
}

/// Puts why a test did not run behind the text, as a word.
pub(crate) fn append_cause(alloc: Global, text: &mut Blob, cause: Cause) -> Result<(), NoMemory>
    ensures { OnOk result (text.new ≡ text.old ++ cause_written cause) }
{
    match cause {
        Cause::Unstarted => text.append(b"unstarted"),
        Cause::Lacks(place) => append_numbered(alloc, text, b"lacks:", place),
        Cause::Fixture(setup) => append_numbered(alloc, text, b"fixture:", setup),
        Cause::NotAvailable => text.append(b"notavailable"),
        Cause::BadOperation(place) => append_numbered(alloc, text, b"badoperation:", place),
        Cause::Insufficient => text.append(b"insufficient"),
        Cause::Stopped => text.append(b"stopped"),
        Cause::Memory => text.append(b"memory"),
    }
}

fn append_numbered(alloc: Global, text: &mut Blob, name: &[u8], number: u32) -> Result<(), NoMemory>
    ensures { OnOk result (text.new ≡ text.old ++ name.now ++ decimal number) }
{
    text.append(name)?;
    text.append_number(alloc, u128::from(number))
}

/// Gives the hits of the patterns for fail, pass and skip, as three digits.
pub(crate) fn hits_text(seen: &Seen) -> [u8; 3]
    ensures { result ≡ hits_written seen.now }
{
    [
        hit_digit(seen.fail_hit),
        hit_digit(seen.pass_hit),
        hit_digit(seen.skip_hit),
    ]
}

fn hit_digit(hit: bool) -> u8
    ensures { result ≡ digit_of hit }
{
    if hit { b'1' } else { b'0' }
}

/// Takes a word for how an attempt ended.
pub(crate) fn how_in(word: &[u8]) -> How
    ensures { result ≡ how_by word.now }
{
    if word == b"signal".as_slice() {
        How::Signalled
    } else if word == b"timeout".as_slice() {
        How::TimedOut
    } else if word == b"unstarted".as_slice() {
        How::NotStarted
    } else if word == b"memory".as_slice() {
        How::NoMemory
    } else if front(word, 6) == b"lacks:".as_slice() {
        How::Lacks(short_in(behind(word, 6)))
    } else {
        How::Exited(code_in(behind(word, 5)))
    }
}

/// Takes a word for why a test did not run.
pub(crate) fn cause_in(word: &[u8]) -> Cause
    ensures { result ≡ cause_by word.now }
{
    if word == b"unstarted".as_slice() {
        Cause::Unstarted
    } else if word == b"notavailable".as_slice() {
        Cause::NotAvailable
    } else if word == b"insufficient".as_slice() {
        Cause::Insufficient
    } else if word == b"stopped".as_slice() {
        Cause::Stopped
    } else if word == b"memory".as_slice() {
        Cause::Memory
    } else {
        numbered_cause_in(word)
    }
}

fn numbered_cause_in(word: &[u8]) -> Cause
    ensures { result ≡ numbered_cause_by word.now }
{
    if front(word, 6) == b"lacks:".as_slice() {
        Cause::Lacks(short_in(behind(word, 6)))
    } else if front(word, 8) == b"fixture:".as_slice() {
        Cause::Fixture(short_in(behind(word, 8)))
    } else {
        Cause::BadOperation(short_in(behind(word, 13)))
    }
}

/// Takes the byte at a place of a word for the digit of a hit.
pub(crate) fn hit_in(word: &[u8], place: usize) -> bool
    ensures { result ≡ hit_by word.now place }
{
    place < word.len() && word[place] == b'1'
}

fn front(word: &[u8], len: usize) -> &[u8]
    ensures { result.now ≡ take len word.now }
{
    if len <= word.len() {
        &word[..len]
    } else {
        word
    }
}

fn behind(word: &[u8], len: usize) -> &[u8]
    ensures { result.now ≡ drop len word.now }
{
    if len <= word.len() { &word[len..] } else { &[] }
}
