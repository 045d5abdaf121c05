ghost use Rattle.std.specs.Prelude.{◌≡◌, ◌≤◌, ◌<◌, ◌+◌, length, IfOk, OnOk, option_map};
ghost use Rattle.ct_lex.specs.Argument.{escaped, joined_line, begins_reference};
ghost use Rattle.ct_lex.specs.Unit.{escape_at, name_len, reference_at, dollar_at, unit_at};
ghost use Rattle.ct_lex.specs.Seen.{piece_of, seen};

use crate::bytes::{is_name, stands};
use crate::call::ArgKind;
use crate::stop::{Cause, Stop};

/// What stands at the front of the text of an argument.
#[derive(Clone, Copy, Debug, PartialEq, Eq)]
pub enum Unit<'a> {
    Byte(u8),
    /// The two bytes `\;`, which keep a list from being split there.
    Semicolon,
    /// A line feed behind a backslash, which stands for nothing.
    Nothing,
    /// The name of a variable whose value stands here.
    Ref(&'a [u8]),
}

/// Returns what a backslash in front of a line feed stands for.
fn joined_line(kind: ArgKind) -> Option<Unit<'static>>
    ensures { option_map (λ unit. piece_of unit) result ≡ joined_line kind }
{
    match kind {
        ArgKind::Quoted => Some(Unit::Nothing),
        ArgKind::Unquoted | ArgKind::Bracket => None,
    }
}

/// Returns what a backslash and the byte behind it stand for.
fn escaped(kind: ArgKind, byte: u8) -> Option<Unit<'static>>
    ensures { option_map (λ unit. piece_of unit) result ≡ escaped kind byte }
{
    match byte {
        b't' => Some(Unit::Byte(b'\t')),
        b'r' => Some(Unit::Byte(b'\r')),
        b'n' => Some(Unit::Byte(b'\n')),
        b';' => Some(Unit::Semicolon),
        b'\n' => joined_line(kind),
        _ if byte.is_ascii_alphanumeric() => None,
        _ => Some(Unit::Byte(byte)),
    }
}

/// Reads the escape whose backslash is the first byte of a text, and counts its bytes.
fn escape_at(kind: ArgKind, text: &[u8]) -> Result<(Unit<'static>, usize), Stop>
    requires { 0 < length text.now }
    ensures value { seen result ≡ escape_at kind text.now }
    ensures within { IfOk result (λ x. (0 < x.1) × (x.1 ≤ length text.now)) }
{
    if text.len() < 2 {
        return Err(Stop::Ended);
    }
    match escaped(kind, text[1]) {
        None => Err(Stop::at(Cause::BadEscape, text)),
        Some(unit) => Ok((unit, 2)),
    }
}

/// Counts the bytes of a variable's name at the front of a text.
fn name_len(text: &[u8]) -> usize
    ensures count { result ≡ name_len text.now }
    ensures within { result ≤ length text.now }
{
    text.iter().take_while(|byte| is_name(**byte)).count()
}

/// Reads the reference whose `${` stands at the front of a text, and counts its bytes.
fn reference_at(text: &[u8]) -> Result<(Unit<'_>, usize), Stop>
    requires { 2 ≤ length text.now }
    ensures value { seen result ≡ reference_at text.now }
    ensures within { IfOk result (λ x. (0 < x.1) × (x.1 ≤ length text.now)) }
{
    let name = &text[2..];
    let n = name_len(name);
    if n + 2 == text.len() {
        return Err(Stop::Ended);
    }
    if 0 < n && stands(text, n + 2, b'}') {
        Ok((Unit::Ref(&name[..n]), n + 3))
    } else {
        Err(Stop::at(Cause::BadReference, text))
    }
}

/// Returns whether a `$` in front of this text begins a reference, be it one that is refused.
fn begins_reference(text: &[u8]) -> bool
    ensures { result ≡ begins_reference text.now }
{
    text.starts_with(b"{") || text.starts_with(b"ENV{") || text.starts_with(b"CACHE{")
}

/// Reads what stands at the front of a text that begins with `$`, and counts its bytes.
fn dollar_at(text: &[u8]) -> Result<(Unit<'_>, usize), Stop>
    requires { 0 < length text.now }
    ensures value { seen result ≡ dollar_at text.now }
    ensures within { IfOk result (λ x. (0 < x.1) × (x.1 ≤ length text.now)) }
{
    let behind = &text[1..];
    if behind.starts_with(b"{") {
        reference_at(text)
    } else if begins_reference(behind) {
        Err(Stop::at(Cause::BadReference, text))
    } else {
        Ok((Unit::Byte(b'$'), 1))
    }
}

/// Reads what stands at the front of the text of an argument, and counts its bytes.
pub fn unit_at(kind: ArgKind, text: &[u8]) -> Result<(Unit<'_>, usize), Stop>
    ensures value { seen result ≡ unit_at kind text.now }
    ensures within { IfOk result (λ x. (0 < x.1) × (x.1 ≤ length text.now)) }
{
    match text.first() {
        None => Err(Stop::Ended),
        Some(b'\\') => escape_at(kind, text),
        Some(b'$') => dollar_at(text),
        Some(byte) => Ok((Unit::Byte(*byte), 1)),
    }
}
