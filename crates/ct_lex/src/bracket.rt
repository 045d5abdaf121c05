ghost use Rattle.std.specs.Prelude.{◌≡◌, ◌≤◌, ◌<◌, ◌+◌, ◌*◌, length, IfSome, IfOk, IsTrue};
ghost use Rattle.ct_lex.specs.Text.{HasNoGap};
ghost use Rattle.ct_lex.specs.Bracket.{equals_count, opening, closes, closing, line_len, bracket_len, comment, gap_at};

use crate::bytes::{is_gap, stands};
use crate::stop::{Cause, Stop};

/// Counts the `=` at the front of a text.
fn equals(text: &[u8]) -> usize
    ensures count { result ≡ equals_count text.now }
    ensures within { result ≤ length text.now }
{
    text.iter().take_while(|byte| **byte == b'=').count()
}

/// Returns how many `=` the bracket opening at the front of a text has, if there is one.
pub fn opening(text: &[u8]) -> Option<usize>
    ensures value { result ≡ opening text.now }
    ensures within { IfSome result (λ n. n + 2 ≤ length text.now) }
{
    if !stands(text, 0, b'[') {
        return None;
    }
    let n = equals(&text[1..]);
    if stands(text, n + 1, b'[') {
        Some(n)
    } else {
        None
    }
}

/// Returns whether a text begins with a bracket closing with `n` times `=`.
fn closes(n: usize, text: &[u8]) -> bool
    ensures value { result ≡ closes n text.now }
    ensures within { IsTrue result → n + 2 ≤ length text.now }
{
    stands(text, 0, b']') && equals(&text[1..]) == n && stands(text, n + 1, b']')
}

/// Counts the bytes in front of the first bracket closing with `n` times `=`, if there is one.
pub fn closing(n: usize, text: &[u8]) -> Option<usize>
    ensures value { result ≡ closing n text.now }
    ensures within { IfSome result (λ inside. inside + n + 2 ≤ length text.now) }
{
    for i in 0..text.len() {
        if closes(n, &text[i..]) {
            return Some(i);
        }
    }
    None
}

/// Counts the bytes in front of the first line feed of a text.
fn line_len(text: &[u8]) -> usize
    ensures count { result ≡ line_len text.now }
    ensures within { result ≤ length text.now }
{
    text.iter().take_while(|byte| **byte != b'\n').count()
}

/// Counts the bytes of the comment that begins with a text's first byte, a `#`.
///
/// It is a function of its own, so that the test of a blank takes little room in each loop.
#[inline(never)]
fn comment(text: &[u8]) -> Result<usize, Stop>
    requires { 0 < length text.now }
    ensures value { result ≡ comment text.now }
    ensures within { IfOk result (λ taken. taken ≤ length text.now) }
{
    match opening(&text[1..]) {
        None => Ok(line_len(&text[1..]) + 1),
        Some(n) => match closing(n, &text[n + 3..]) {
            None => Err(Stop::at(Cause::OpenBracket, text)),
            Some(inside) => Ok(inside + 2 * (n + 2) + 1),
        },
    }
}

/// Counts the bytes of the blank, line feed or comment at the front of a text;
/// 0 if something else stands there.
pub fn gap_at(text: &[u8]) -> Result<usize, Stop>
    ensures value { result ≡ gap_at text.now }
    ensures within { IfOk result (λ taken. taken ≤ length text.now) }
    ensures none { result ≡ Ok 0 → HasNoGap text.now }
{
    let Some(first) = text.first() else {
        return Ok(0);
    };
    if is_gap(*first) {
        Ok(1)
    } else if *first == b'#' {
        comment(text)
    } else {
        Ok(0)
    }
}
