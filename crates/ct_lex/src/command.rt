ghost use Rattle.std.specs.Prelude.{◌≡◌, ◌≤◌, ◌<◌, ◌+◌, length, IfOk, IfSome};
ghost use Rattle.std.specs.List.{prefix_len};
ghost use Rattle.ct_lex.specs.Bytes.{is_space, lower};
ghost use Rattle.ct_lex.specs.Stop.{GivesRead};
ghost use Rattle.ct_lex.specs.Command.{word_len, paren_at, command, stays_behind, start_from};

use crate::args::Args;
use crate::bracket::gap_at;
use crate::bytes::{begins_word, is_space, is_word, stands};
use crate::stop::{Cause, Halt, Stop};
use ct_base::{Name, NoMemory};
use std::alloc::Global;

/// Counts the bytes of the identifier at the front of a text.
fn word_len(text: &[u8]) -> usize
    ensures count { result ≡ word_len text.now }
    ensures within { result ≤ length text.now }
{
    text.iter().take_while(|byte| is_word(**byte)).count()
}

/// Counts the spaces and tabs at the front of a text.
fn space_len(text: &[u8]) -> usize
    ensures count { result ≡ prefix_len (λ byte. is_space byte) text.now }
    ensures within { result ≤ length text.now }
{
    text.iter().take_while(|byte| is_space(**byte)).count()
}

/// Finds the first byte behind the identifier at the front of a text, which has `word` bytes, and
/// behind the spaces and tabs that follow it.
fn paren_at(word: usize, text: &[u8]) -> usize
    requires identifier { word ≡ word_len text.now }
    requires inside { word ≤ length text.now }
    ensures place { result ≡ paren_at text.now }
    ensures within { result ≤ length text.now }
{
    word + space_len(&text[word..])
}

/// Makes the name of a command from its identifier.
fn lower(alloc: Global, word: &[u8]) -> Result<Name, NoMemory>
    ensures { IfOk result (λ name. name ≡ lower word.now) }
{
    Ok(Name::from_vec(word.to_ascii_lowercase(alloc)?))
}

/// Reads the command at the front of a text: its name, its arguments, and how many bytes it takes.
pub fn command(alloc: Global, text: &[u8]) -> Result<(Name, Args, usize), Halt>
    ensures value { GivesRead result (command text.now) }
    ensures within { IfOk result (λ x. (0 < x.2) × (x.2 ≤ length text.now)) }
{
    let word = word_len(text);
    let paren = paren_at(word, text);
    if paren == text.len() {
        return Err(Halt::Text(Stop::Ended));
    }
    if !stands(text, paren, b'(') {
        return Err(Halt::Text(Stop::at(Cause::BadChar, &text[paren..])));
    }
    let (args, taken) = Args::read(alloc, &text[paren + 1..])?;
    let name = lower(alloc, &text[..word])?;
    Ok((name, args, taken + paren + 1))
}

/// Returns whether the text behind a gap is still on the line of the command in front of it. Only a
/// line feed ends that.
fn stays_behind(behind: bool, first: u8) -> bool
    ensures { result ≡ stays_behind behind first }
{
    behind && first != b'\n'
}

/// Counts the bytes in front of the next command; `None` if none follows. Behind a command, the
/// next one begins only after a line feed outside a comment.
pub fn start(behind_command: bool, text: &[u8]) -> Result<Option<usize>, Stop>
    ensures value { result ≡ start_from behind_command 0 text.now }
    ensures within { IfOk result (λ start. IfSome start (λ n. n < length text.now)) }
{
    let mut behind = behind_command;
    let mut at = 0;
    while at < text.len() {
        let first = text[at];
        let gap = gap_at(&text[at..])?;
        if gap == 0 {
            if behind || !begins_word(first) {
                return Err(Stop::at(Cause::BadChar, &text[at..]));
            }
            return Ok(Some(at));
        }
        behind = stays_behind(behind, first);
        at += gap;
    }
    Ok(None)
}
