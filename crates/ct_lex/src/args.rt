ghost use Rattle.std.specs.Prelude.{◌≡◌, ◌≤◌, length, IfOk};
ghost use Rattle.ct_lex.specs.Args.{TakesFirst};
ghost use Rattle.ct_lex.specs.Next.{next_arg};
ghost use Rattle.ct_lex.specs.Stop.{GivesRead};
ghost use Rattle.ct_lex.specs.Text.{arguments_from};

use crate::argument::{arguments_len, first_argument};
use crate::call::{Arg, NextArg};
use crate::stop::Halt;
use ct_base::NoMemory;
use std::alloc::Global;
use std::marker::Model;

/// The arguments of a command, in order. Contracts see the list of them.
///
/// The text is kept as it is written, at one byte for each byte. The arguments are made from it one by one.
#[derive(Debug, Drop)]
pub struct Args {
    /// The text behind the `(` of the command, up to and with the `)`.
    text: Vec<u8>,
}

impl Model for Args {
    ghost use Rattle.std.specs.Prelude.{List};
    ghost use Rattle.ct_lex.specs.declared.call.Arg.{Arg};
    ghost use Rattle.ct_lex.specs.Args.{arguments_in, BeginsArguments};

    ghost Value = { List Arg };

    ghost view = { λ a. arguments_in a.text.items };

    ghost invariant = { λ a. BeginsArguments a.text.items };
}

impl Args {
    /// Reads the arguments of a command behind its `(`, and counts their bytes, the `)` included.
    pub(crate) fn read(alloc: Global, text: &[u8]) -> Result<(Args, usize), Halt>
        ensures value { GivesRead result (arguments_from 0 text.now) }
        ensures within { IfOk result (λ x. x.1 ≤ length text.now) }
    {
        let taken = arguments_len(text)?;
        let args = Args {
            text: copy(alloc, &text[..taken])?,
        };
        Ok((args, taken))
    }

    /// Returns a reader that makes the arguments, from the first one on.
    pub fn reader(&self) -> ArgReader<'_>
        ensures { result ≡ self.now }
    {
        ArgReader {
            rest: self.text.as_slice(),
        }
    }
}

/// Makes the arguments of a command one by one. Contracts see the list of the arguments left.
#[derive(Debug, Drop)]
pub struct ArgReader<'a> {
    rest: &'a [u8],
}

impl<'a> Model for ArgReader<'a> {
    ghost use Rattle.std.specs.Prelude.{List};
    ghost use Rattle.ct_lex.specs.declared.call.Arg.{Arg};
    ghost use Rattle.ct_lex.specs.Args.{arguments_in, BeginsArguments};

    ghost Value = { List Arg };

    ghost view = { λ r. arguments_in r.rest.now };

    ghost invariant = { λ r. BeginsArguments r.rest.now };
}

impl<'a> ArgReader<'a> {
    /// Makes the next argument; `None` exactly if none is left.
    ///
    /// An `Err` changes nothing.
    pub fn next(&mut self, alloc: Global) -> Result<Option<Arg>, NoMemory>
        ensures { TakesFirst self.old result self.new }
    {
        match first_argument(alloc, self.rest)? {
            None => Ok(None),
            Some((first, taken)) => {
                let arg = first.made(alloc)?;
                self.rest = &self.rest[taken..];
                Ok(Some(arg))
            }
        }
    }

    /// Lends the next argument, or makes it if it is more than one run; `None` exactly if none is left.
    ///
    /// An `Err` changes nothing.
    pub fn lend_next(&mut self, alloc: Global) -> Result<Option<NextArg<'a>>, NoMemory>
        ensures { TakesFirst self.old (next_arg result) self.new }
    {
        let text = self.rest;
        match first_argument(alloc, text)? {
            None => Ok(None),
            Some((first, taken)) => {
                self.rest = &text[taken..];
                Ok(Some(first))
            }
        }
    }
}

fn copy(alloc: Global, text: &[u8]) -> Result<Vec<u8>, NoMemory>
    ensures { IfOk result (λ copy. copy.items ≡ text.now) }
{
    Ok(Vec::from_slice(alloc, text)?)
}
