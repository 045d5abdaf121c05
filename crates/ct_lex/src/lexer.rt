ghost use Rattle.std.specs.Prelude.{◌≡◌, ◌≤◌, ◌<◌, ◌+◌, ◌^◌, length, drop, IfOk, IsSome};
ghost use Rattle.ct_lex.specs.Bytes.{feeds};
ghost use Rattle.ct_lex.specs.Place.{unmarked, fault_of};

use crate::bytes::feeds;
use crate::call::Call;
use crate::command::{command, start};
use crate::fault::LexFault;
use crate::stop::{Cause, Halt, Stop};
use std::alloc::Global;
use std::marker::Model;

/// Reads a text command by command.
#[derive(Debug, Drop)]
pub struct Lexer<'a> {
    rest: &'a [u8],
    /// The line on which the rest begins, counted from 1.
    line: u32,
    /// Whether the rest begins behind a command on the same line.
    behind: bool,
}

impl<'a> Model for Lexer<'a> {
    ghost use Rattle.std.specs.Prelude.{◌+◌, ◌<◌, ◌^◌, length};
    ghost use Rattle.ct_lex.specs.Place.{Place};

    ghost Value = { Place };

    ghost view = { λ l. record { rest = l.rest.now; line = l.line; behind = l.behind } };

    ghost invariant = { λ l. l.line + length l.rest.now < 2 ^ 32 };
}

impl<'a> Lexer<'a> {
    ghost use Rattle.ct_lex.specs.Place.{beginning, line_behind, fault_at};
    ghost use Rattle.ct_lex.specs.Reads.{AnswersNext, HasOneReading, ReadsOn};
    ghost use Rattle.ct_lex.specs.Written.{ReadsWritten};
    ghost use Rattle.ct_lex.specs.Files.{BreaksOn, HasSoleAnswer, ReadsFiles, RefusesFiles, WritesOn};

    /// Begins at the front of a text, which it borrows.
    pub fn new(text: &'a [u8]) -> Lexer<'a>
        requires { length text.now < 4294967295 }
        ensures place { result ≡ beginning text.now }
        // A text has one list of calls, and then its end or one first fault.
        ensures one { HasOneReading (beginning text.now) }
        // The reading is what the grammar writes. The grammar does not depend on how a text is read.
        ensures grammar { ReadsFiles text.now }
        // A fault is returned exactly where the grammar of what is broken has it.
        ensures refusals { RefusesFiles text.now }
        // So the grammar has one answer for a text: its commands, and then its end or one fault.
        ensures sole { HasSoleAnswer (beginning text.now) }
        // Commands that are written as CMake writes them are read back.
        ensures again { ReadsWritten text.now }
    {
        Lexer {
            rest: unmarked(text),
            line: 1,
            behind: false,
        }
    }

    /// Reads the next command; `None` exactly at the end of the text.
    ///
    /// An `Err` changes nothing, so a refusal is returned again at each further call.
    ///
    /// Source: CMake manual, cmake-language(7), Syntax. This project's choice: which forms are left out,
    /// and that a bracket comment may stand beside a command on its line.
    pub fn next(&mut self, alloc: Global) -> Result<Option<Call>, LexFault>
        ensures answer { AnswersNext self.old result self.new }
        // The answer in terms of the whole reading.
        ensures reading { ReadsOn self.old result self.new }
        // The answer in terms of the grammar: a text that is refused is no list of commands.
        ensures grammar { WritesOn self.old result self.new }
        // A refusal comes exactly where the grammar of what is broken has one, with its kind and line.
        ensures refusal { BreaksOn self.old result self.new }
        // Behind a command, less of the text is left.
        ensures shrinks { IfOk result (λ found. IsSome found → length self.new.rest < length self.old.rest) }
    {
        self.advance(alloc)
    }

    /// Reads the next command, and steps behind it.
    fn advance(&mut self, alloc: Global) -> Result<Option<Call>, LexFault>
        ensures answer { AnswersNext self.old result self.new }
        ensures shrinks { IfOk result (λ found. IsSome found → length self.new.rest < length self.old.rest) }
    {
        let text = self.rest;
        let at = match start(self.behind, text) {
            Ok(Some(at)) => at,
            Ok(None) => return Ok(None),
            Err(stop) => return Err(self.fault(0, stop)),
        };
        match command(alloc, &text[at..]) {
            Ok((name, args, taken)) => {
                let line = self.line_behind(at);
                self.line = self.line_behind(at + taken);
                self.rest = &text[at + taken..];
                self.behind = true;
                Ok(Some(Call { name, args, line }))
            }
            Err(Halt::Text(stop)) => Err(self.fault(at, stop)),
            Err(Halt::Memory) => Err(LexFault::NoMemory),
        }
    }

    /// Returns the line of the place behind the next bytes.
    fn line_behind(&self, bytes: usize) -> u32
        requires { bytes ≤ length self.now.rest }
        ensures value { result ≡ line_behind self.now bytes }
        ensures within { result + length (drop bytes self.now.rest) < 2 ^ 32 }
    {
        self.line + feeds(&self.rest[..bytes]) as u32
    }

    /// Returns the fault of a refusal, with its line. If the text ends inside a command, the line
    /// is that of the command, which begins behind these bytes.
    fn fault(&self, bytes: usize, stop: Stop) -> LexFault
        requires { bytes ≤ length self.now.rest }
        ensures { result ≡ fault_at self.now bytes stop }
    {
        match stop {
            Stop::Ended => fault_of(Cause::OpenCall, self.line_behind(bytes)),
            Stop::At(cause, left) => {
                fault_of(
                    cause,
                    self.line_behind(self.rest.len().saturating_sub(left)),
                )
            }
        }
    }
}

/// Lends a text without the byte order mark of UTF-8 that it may begin with.
fn unmarked(text: &[u8]) -> &[u8]
    ensures value { result.now ≡ unmarked text.now }
    ensures within { length result.now ≤ length text.now }
{
    if text.starts_with(b"\xEF\xBB\xBF") {
        &text[3..]
    } else {
        text
    }
}

/// Makes the fault of a cause on a line.
fn fault_of(cause: Cause, line: u32) -> LexFault
    ensures { result ≡ fault_of cause line }
{
    match cause {
        Cause::OpenString => LexFault::OpenString { line },
        Cause::OpenBracket => LexFault::OpenBracket { line },
        Cause::OpenCall => LexFault::OpenCall { line },
        Cause::BadEscape => LexFault::BadEscape { line },
        Cause::BadChar => LexFault::BadChar { line },
        Cause::BadReference => LexFault::BadReference { line },
    }
}
