//! What texts are read as: each command with its line and arguments, and then the end or the first fault.
//!
//! A command is told as `name:line(arguments)`, the end as `.`, and a fault with its line. An argument is the
//! letter of its kind and its parts, `'bytes'` or `$name$`.

ghost use Rattle.std.specs.Prelude.{◌<◌, length};

use crate::row::{Given, RowFault};
use ct_base::{Blob, NoMemory};
use ct_lex::{Arg, ArgKind, Call, LexFault, Lexer, Part};
use std::alloc::Global;

fn put_part(out: &mut Blob, part: &Part) -> Result<(), NoMemory> {
    match part {
        Part::Bytes(bytes) => put_between(out, b"'", bytes.bytes()),
        Part::Ref(name) => put_between(out, b"$", name.bytes()),
    }
}

/// Appends the bytes with the mark in front of them and behind them.
fn put_between(out: &mut Blob, mark: &[u8], bytes: &[u8]) -> Result<(), NoMemory> {
    out.append(mark)?;
    out.append(bytes)?;
    out.append(mark)
}

/// Returns the letter of a kind.
fn letter_of(kind: ArgKind) -> &'static [u8] {
    match kind {
        ArgKind::Bracket => b"B",
        ArgKind::Quoted => b"Q",
        ArgKind::Unquoted => b"U",
    }
}

fn put_arg(out: &mut Blob, arg: &Arg) -> Result<(), NoMemory> {
    out.append(letter_of(arg.kind))?;
    for part in arg.parts.as_slice() {
        put_part(out, part)?;
    }
    Ok(())
}

fn put_line(alloc: Global, out: &mut Blob, line: u32) -> Result<(), NoMemory> {
    let digits = line.to_string(alloc)?;
    out.append(b":")?;
    out.append(digits.as_bytes())
}

fn put_call(alloc: Global, out: &mut Blob, call: &Call) -> Result<(), NoMemory> {
    out.append(call.name.bytes())?;
    put_line(alloc, out, call.line)?;
    out.append(b"(")?;
    let mut reader = call.args.reader();
    for at in 0..100 {
        let Some(arg) = reader.next(alloc)? else {
            break;
        };
        if at > 0 {
            out.append(b" ")?;
        }
        put_arg(out, &arg)?;
    }
    out.append(b") ")?;
    Ok(())
}

fn put_fault(alloc: Global, out: &mut Blob, fault: &LexFault) -> Result<(), NoMemory> {
    let (word, line) = match fault {
        LexFault::OpenString { line } => ("OpenString", *line),
        LexFault::OpenBracket { line } => ("OpenBracket", *line),
        LexFault::OpenCall { line } => ("OpenCall", *line),
        LexFault::BadEscape { line } => ("BadEscape", *line),
        LexFault::BadChar { line } => ("BadChar", *line),
        LexFault::BadReference { line } => ("BadReference", *line),
        LexFault::NoMemory => ("NoMemory", 0),
    };
    out.append(word.as_bytes())?;
    put_line(alloc, out, line)
}

/// Reads a text to its end or its first fault. Then it asks once more, which has to return the same.
pub(crate) fn told(alloc: Global, given: Given<'_>) -> Result<Blob, RowFault> {
    let text = given.bytes("text")?;
    if text.len() >= 65536 {
        return Err(RowFault::Unfit("text"));
    }
    Ok(transcript(alloc, text)?)
}

fn transcript(alloc: Global, text: &[u8]) -> Result<Blob, NoMemory>
    requires { length text.now < 65536 }
{
    let mut out = Blob::new(alloc);
    let mut lexer = Lexer::new(text);
    for _ in 0..100 {
        match lexer.next(alloc) {
            Ok(Some(call)) => put_call(alloc, &mut out, &call)?,
            Ok(None) => {
                let is_end = matches!(lexer.next(alloc), Ok(None));
                out.append(if is_end {
                    b".".as_slice()
                } else {
                    b". and more".as_slice()
                })?;
                break;
            }
            Err(fault) => {
                put_fault(alloc, &mut out, &fault)?;
                let is_same = matches!(lexer.next(alloc), Err(again) if again == fault);
                out.append(if is_same {
                    b"".as_slice()
                } else {
                    b" once".as_slice()
                })?;
                break;
            }
        }
    }
    Ok(out)
}
