ghost use Rattle.std.specs.Prelude.{◌≡◌, ◌<◌, ◌≤◌, ℕ, length};
ghost use Rattle.ct_regex.specs.Limits.{most_pattern_bytes};
ghost use Rattle.ct_regex.specs.Signs.{plain_sign as plain_sign_at};
ghost use Rattle.ct_regex.specs.Meaning.{sign_of};
ghost use Rattle.ct_regex.specs.Gives.{ReadsSign};

use crate::RegexFault;
use crate::set::set_at;
use crate::tree::{ByteTest, Node, Quantifier};
use std::alloc::Global;

/// One sign of a pattern.
///
/// Source: CMake manual, string(REGEX), Regex Specification.
#[derive(Drop)]
pub enum Sign {
    /// `^`, `$`, or an atom that takes one byte.
    Atom(Node),
    /// `(`.
    Opens,
    /// `)`.
    Closes,
    /// `|`.
    Bar,
    /// `*`, `+` or `?`.
    Often(Quantifier),
}

/// Reads the sign at a place, and returns the place behind it.
pub(crate) fn sign_at(alloc: Global, text: &[u8], at: usize) -> Result<(Sign, usize), RegexFault>
    requires within { at < length text.now }
    requires few { length text.now ≤ most_pattern_bytes }
    ensures { ReadsSign (sign_of at) text.now at result }
{
    let byte = text[at];
    if byte == b'[' {
        let (test, behind) = set_at(alloc, text, at)?;
        return Ok((Sign::Atom(Node::One(test)), behind));
    }
    if byte != b'\\' {
        return Ok((plain_sign(byte), at + 1));
    }
    if at + 1 == text.len() {
        return Err(RegexFault::EndsInBackslash(at as u32));
    }
    Ok((Sign::Atom(Node::One(ByteTest::Same(text[at + 1]))), at + 2))
}

/// Returns the sign of a single byte.
fn plain_sign(byte: u8) -> Sign
    ensures { (place : ℕ) → sign_of place result ≡ plain_sign_at place byte }
{
    match byte {
        b'^' => Sign::Atom(Node::Start),
        b'$' => Sign::Atom(Node::End),
        b'.' => Sign::Atom(Node::One(ByteTest::Any)),
        b'(' => Sign::Opens,
        b')' => Sign::Closes,
        b'|' => Sign::Bar,
        b'*' => Sign::Often(Quantifier::ZeroOrMore),
        b'+' => Sign::Often(Quantifier::OneOrMore),
        b'?' => Sign::Often(Quantifier::ZeroOrOne),
        _ => Sign::Atom(Node::One(ByteTest::Same(byte))),
    }
}
