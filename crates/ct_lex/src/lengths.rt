ghost use Rattle.std.specs.Prelude.{◌≡◌, ◌≤◌, ◌<◌, ◌+◌, drop, length, slice_index, false, Some, IfOk};
ghost use Rattle.ct_lex.specs.Argument.{ends_text};
ghost use Rattle.ct_lex.specs.Bracket.{opening};
ghost use Rattle.ct_lex.specs.Extent.{bytes_read};
ghost use Rattle.ct_lex.specs.Text.{text_from, quoted_by, plain_argument, argument_by, may_follow, argument};

use crate::bracket::{closing, opening};
use crate::bytes::{is_gap, stands};
use crate::call::ArgKind;
use crate::plain::{ends_text, plain_len};
use crate::stop::{Cause, Stop};
use crate::unit::unit_at;

/// Counts the bytes of the argument at the front of a text. The next argument must not touch it.
pub fn argument_len(text: &[u8]) -> Result<usize, Stop>
    requires { may_follow text.now ≡ false }
    ensures value { result ≡ bytes_read (argument text.now) }
    ensures some { IfOk result (λ taken. 0 < taken) }
    ensures within { IfOk result (λ taken. taken ≤ length text.now) }
{
    let taken = lone_len(text)?;
    let behind = &text[taken..];
    if may_follow(behind) {
        Ok(taken)
    } else {
        Err(Stop::at(Cause::BadChar, behind))
    }
}

/// Counts the bytes of the argument at the front of a text, whatever stands behind it.
fn lone_len(text: &[u8]) -> Result<usize, Stop>
    requires { may_follow text.now ≡ false }
    ensures value { result ≡ bytes_read (argument_by text.now (opening text.now)) }
    ensures some { IfOk result (λ taken. 0 < taken) }
    ensures within { IfOk result (λ taken. taken ≤ length text.now) }
{
    match opening(text) {
        Some(n) => bracketed_len(n, text),
        None => unbracketed_len(text),
    }
}

/// Counts the bytes of the bracket argument with `n` times `=` at the front of a text.
fn bracketed_len(n: usize, text: &[u8]) -> Result<usize, Stop>
    requires { n + 2 ≤ length text.now }
    ensures value { result ≡ bytes_read (argument_by text.now (Some n)) }
    ensures some { IfOk result (λ taken. 0 < taken) }
    ensures within { IfOk result (λ taken. taken ≤ length text.now) }
{
    match closing(n, &text[n + 2..]) {
        None => Err(Stop::at(Cause::OpenBracket, text)),
        Some(inside) => Ok(inside + 2 * (n + 2)),
    }
}

/// Counts the bytes of the argument at the front of a text, if it is no bracket argument.
fn unbracketed_len(text: &[u8]) -> Result<usize, Stop>
    requires { may_follow text.now ≡ false }
    ensures value { result ≡ bytes_read (plain_argument text.now) }
    ensures some { IfOk result (λ taken. 0 < taken) }
    ensures within { IfOk result (λ taken. taken ≤ length text.now) }
{
    if stands(text, 0, b'(') {
        return Err(Stop::at(Cause::BadChar, text));
    }
    if stands(text, 0, b'"') {
        return quoted_len(text);
    }
    text_len(ArgKind::Unquoted, text)
}

/// Counts the bytes of the quoted argument whose `"` is the first byte of a text.
fn quoted_len(text: &[u8]) -> Result<usize, Stop>
    requires { 0 < length text.now }
    ensures value { result ≡ bytes_read (quoted_by text.now (text_from ArgKind.Quoted 0 (drop 1 text.now))) }
    ensures some { IfOk result (λ taken. 0 < taken) }
    ensures within { IfOk result (λ taken. taken ≤ length text.now) }
{
    match text_len(ArgKind::Quoted, &text[1..]) {
        Ok(inside) => Ok(inside + 2),
        Err(Stop::Ended) => Err(Stop::at(Cause::OpenString, text)),
        Err(stop) => Err(stop),
    }
}

/// Returns whether a text can stand directly behind an argument.
fn may_follow(text: &[u8]) -> bool
    ensures { result ≡ may_follow text.now }
{
    match text.first() {
        None => true,
        Some(byte) => is_gap(*byte) || *byte == b')' || *byte == b'#',
    }
}

/// Counts the bytes of the text of a quoted or unquoted argument, in front of the byte that ends it.
fn text_len(kind: ArgKind, text: &[u8]) -> Result<usize, Stop>
    ensures value { result ≡ bytes_read (text_from kind 0 text.now) }
    ensures within { IfOk result (λ inside. inside < length text.now) }
    ensures some { IfOk result (λ inside. ends_text kind (slice_index text.now 0) ≡ false → 0 < inside) }
{
    let mut at = 0;
    while at < text.len() {
        if ends_text(kind, text[at]) {
            return Ok(at);
        }
        let plain = plain_len(kind, &text[at..]);
        if plain == 0 {
            let (_, taken) = unit_at(kind, &text[at..])?;
            at += taken;
        } else {
            at += plain;
        }
    }
    Err(Stop::Ended)
}
