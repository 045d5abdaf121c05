ghost use Rattle.std.specs.Prelude.{◌≡◌, ◌≤◌, length};
ghost use Rattle.std.specs.List.{prefix_len};
ghost use Rattle.ct_lex.specs.Argument.{ends_text, is_plain};

use crate::bytes::is_gap;
use crate::call::ArgKind;

/// Returns whether a byte ends the text of an argument.
pub fn ends_text(kind: ArgKind, byte: u8) -> bool
    ensures { result ≡ ends_text kind byte }
{
    match kind {
        ArgKind::Quoted => byte == b'"',
        ArgKind::Unquoted => {
            is_gap(byte) || byte == b'(' || byte == b')' || byte == b'#' || byte == b'"'
        }
        ArgKind::Bracket => false,
    }
}

/// Returns whether a byte stands for itself in the text of an argument.
fn is_plain(kind: ArgKind, byte: u8) -> bool
    ensures { result ≡ is_plain kind byte }
{
    !(ends_text(kind, byte) || (byte == b'\\' || byte == b'$'))
}

/// Returns whether a byte stands for itself in a quoted argument.
///
/// Nearly every byte is greater than `$`, so two comparisons are enough.
fn is_plain_quoted(byte: u8) -> bool
    ensures { result ≡ is_plain ArgKind.Quoted byte }
{
    if byte > b'$' {
        byte != b'\\'
    } else {
        is_plain(ArgKind::Quoted, byte)
    }
}

/// Returns whether a byte stands for itself in an unquoted argument.
///
/// Nearly every byte is greater than `)`, so two comparisons are enough.
fn is_plain_unquoted(byte: u8) -> bool
    ensures { result ≡ is_plain ArgKind.Unquoted byte }
{
    if byte > b')' {
        byte != b'\\'
    } else {
        is_plain(ArgKind::Unquoted, byte)
    }
}

/// Counts the bytes at the front of the text of an argument that stand for themselves.
///
/// The kind is checked once, not for each byte.
pub fn plain_len(kind: ArgKind, text: &[u8]) -> usize
    ensures count { result ≡ prefix_len (is_plain kind) text.now }
    ensures within { result ≤ length text.now }
{
    match kind {
        ArgKind::Quoted => text
            .iter()
            .take_while(|byte| is_plain_quoted(**byte))
            .count(),
        ArgKind::Unquoted => text
            .iter()
            .take_while(|byte| is_plain_unquoted(**byte))
            .count(),
        ArgKind::Bracket => text
            .iter()
            .take_while(|byte| is_plain(ArgKind::Bracket, **byte))
            .count(),
    }
}
