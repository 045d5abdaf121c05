ghost use Rattle.std.specs.Prelude.{◌≡◌, ◌≤◌, ◌<◌, ◌+◌, drop, length, option_map, Ok, Some, IfOk};
ghost use Rattle.std.specs.Result.{IsOk};
ghost use Rattle.ct_lex.specs.Args.{BeginsArguments, IsFirst};
ghost use Rattle.ct_lex.specs.Argument.{without_feed};
ghost use Rattle.ct_lex.specs.Bracket.{gap_at, opening};
ghost use Rattle.ct_lex.specs.Extent.{bytes_read};
ghost use Rattle.ct_lex.specs.Next.{read_as};
ghost use Rattle.ct_lex.specs.Text.{text_from, plain_argument, argument_by, argument, arguments_from, moved, HasNoGap};

use crate::bracket::{closing, gap_at, opening};
use crate::bytes::stands;
use crate::call::{Arg, ArgKind, NextArg, Part};
use crate::lengths::argument_len;
use crate::parts::Parts;
use crate::plain::{ends_text, plain_len};
use crate::stop::Stop;
use crate::unit::unit_at;
use ct_base::{List, NoMemory};
use std::alloc::Global;

/// Counts the bytes of the arguments of a command behind its `(`, the `)` included.
pub fn arguments_len(text: &[u8]) -> Result<usize, Stop>
    ensures value { result ≡ bytes_read (arguments_from 0 text.now) }
    ensures within { IfOk result (λ taken. taken ≤ length text.now) }
{
    let mut at = 0;
    while at < text.len() {
        if text[at] == b')' {
            return Ok(at + 1);
        }
        let gap = gap_at(&text[at..])?;
        if gap == 0 {
            at += argument_len(&text[at..])?;
        } else {
            at += gap;
        }
    }
    Err(Stop::Ended)
}

/// Finds the first argument of a text, and counts the bytes up to its end.
pub fn first_argument(alloc: Global, text: &[u8]) -> Result<Option<(NextArg<'_>, usize)>, NoMemory>
    requires { BeginsArguments text.now }
    ensures { IfOk result (λ found. IsFirst text.now (option_map (λ x. read_as x) found)) }
{
    let at = gaps(text);
    if text[at] == b')' {
        return Ok(None);
    }
    let (arg, taken) = argument_at(alloc, &text[at..])?;
    Ok(Some((arg, at + taken)))
}

/// Counts the bytes of the gaps in front of the first argument, or of the `)`.
fn gaps(text: &[u8]) -> usize
    requires { BeginsArguments text.now }
    ensures same { moved result (arguments_from 0 (drop result text.now)) ≡ arguments_from 0 text.now }
    ensures within { result < length text.now }
    ensures none { gap_at (drop result text.now) ≡ Ok 0 }
    ensures front { HasNoGap (drop result text.now) }
{
    let mut at = 0;
    while at < text.len() {
        match gap_at(&text[at..]) {
            Ok(0) => return at,
            Ok(gap) => at += gap,
            Err(_) => unreachable!(),
        }
    }
    unreachable!()
}

/// Finds the argument at the front of a text, and counts its bytes.
fn argument_at(alloc: Global, text: &[u8]) -> Result<(NextArg<'_>, usize), NoMemory>
    requires whole { IsOk (argument text.now) }
    ensures read { IfOk result (λ x. argument_by text.now (opening text.now) ≡ Ok (read_as x)) }
    ensures within { IfOk result (λ x. x.1 ≤ length text.now) }
{
    match opening(text) {
        Some(n) => Ok(bracket_at(n, text)),
        None => plain_at(alloc, text),
    }
}

/// Finds the bracket argument with `n` times `=` at the front of a text, and counts its bytes.
fn bracket_at(n: usize, text: &[u8]) -> (NextArg<'_>, usize)
    requires whole { IsOk (argument_by text.now (Some n)) }
    requires opened { n + 2 ≤ length text.now }
    ensures read { argument_by text.now (Some n) ≡ Ok (read_as result) }
    ensures within { result.1 ≤ length text.now }
{
    let behind = &text[n + 2..];
    let Some(inside) = closing(n, behind) else {
        unreachable!()
    };
    let run = without_feed(&behind[..inside]);
    (NextArg::Run(ArgKind::Bracket, run), inside + 2 * (n + 2))
}

/// Finds the quoted or unquoted argument at the front of a text, and counts its bytes.
fn plain_at(alloc: Global, text: &[u8]) -> Result<(NextArg<'_>, usize), NoMemory>
    requires whole { IsOk (plain_argument text.now) }
    ensures read { IfOk result (λ x. plain_argument text.now ≡ Ok (read_as x)) }
    ensures within { IfOk result (λ x. x.1 ≤ length text.now) }
{
    if stands(text, 0, b'"') {
        let (arg, inside) = text_at(alloc, ArgKind::Quoted, &text[1..])?;
        Ok((arg, inside + 2))
    } else {
        let (arg, inside) = text_at(alloc, ArgKind::Unquoted, text)?;
        Ok((arg, inside))
    }
}

/// Finds the quoted or unquoted argument with this text, and counts the bytes in front of the one
/// that ends it.
fn text_at(alloc: Global, kind: ArgKind, text: &[u8]) -> Result<(NextArg<'_>, usize), NoMemory>
    requires whole { IsOk (text_from kind 0 text.now) }
    ensures kind { IfOk result (λ x. (read_as x).0.kind ≡ kind) }
    ensures read { IfOk result (λ x. text_from kind 0 text.now ≡ Ok ((read_as x).0.parts, x.1)) }
    ensures within { IfOk result (λ x. x.1 < length text.now) }
{
    let plain = plain_len(kind, text);
    if plain < text.len() && ends_text(kind, text[plain]) {
        return Ok((NextArg::Run(kind, &text[..plain]), plain));
    }
    let (parts, inside) = parts_of(alloc, kind, text)?;
    Ok((NextArg::Made(Arg { kind, parts }), inside))
}

/// Makes the parts of the text of a quoted or unquoted argument, and counts the bytes in front of
/// the one that ends it.
fn parts_of(alloc: Global, kind: ArgKind, text: &[u8]) -> Result<(List<Part>, usize), NoMemory>
    requires whole { IsOk (text_from kind 0 text.now) }
    ensures read { IfOk result (λ x. text_from kind 0 text.now ≡ Ok x) }
    ensures within { IfOk result (λ x. x.1 < length text.now) }
{
    let mut parts = Parts::new(alloc)?;
    let mut at = 0;
    while at < text.len() {
        if ends_text(kind, text[at]) {
            return Ok((parts.finish(alloc)?, at));
        }
        let rest = &text[at..];
        let plain = plain_len(kind, rest);
        if plain == 0 {
            let Ok((unit, taken)) = unit_at(kind, rest) else {
                unreachable!()
            };
            parts.add(alloc, unit)?;
            at += taken;
        } else {
            parts.add_plain(&rest[..plain])?;
            at += plain;
        }
    }
    unreachable!()
}

/// Drops a line feed, or a carriage return and line feed, at the front of a text.
fn without_feed(text: &[u8]) -> &[u8]
    ensures { result.now ≡ without_feed text.now }
{
    if stands(text, 0, b'\n') {
        &text[1..]
    } else if stands(text, 0, b'\r') && stands(text, 1, b'\n') {
        &text[2..]
    } else {
        text
    }
}
