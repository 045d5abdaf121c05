ghost use Rattle.std.specs.Prelude.{◌≡◌, [], IfOk};
ghost use Rattle.ct_lex.specs.Argument.{with_bytes};
ghost use Rattle.ct_lex.specs.Next.{arg_of};

use crate::args::Args;
use ct_base::{List, Name, NoMemory};
use std::alloc::Global;

/// A piece of an argument's text.
///
/// Source: CMake manual, cmake-language(7), Variable References.
#[derive(Debug, Drop)]
pub enum Part {
    /// Bytes that stand for themselves, at least one, with escapes already evaluated.
    Bytes(Name),
    /// `${name}`: the value of that variable.
    Ref(Name),
}

/// How an argument is written.
///
/// Source: CMake manual, cmake-language(7), Command Arguments.
#[derive(Clone, Copy, Debug, PartialEq, Eq)]
pub enum ArgKind {
    /// `[=[text]=]`, in which nothing is evaluated.
    Bracket,
    /// `"text"`, which is one value.
    Quoted,
    /// `text`, which may be several values or none.
    Unquoted,
}

/// One argument of a command.
#[derive(Debug, Drop)]
pub struct Arg {
    pub kind: ArgKind,
    /// The parts in order, with no two `Bytes` beside each other. An empty argument has no part.
    pub parts: List<Part>,
}

/// The next argument of a command. It is lent if its text is one run of bytes that stand for
/// themselves, and made if not.
#[derive(Debug, Drop)]
pub enum NextArg<'a> {
    /// The bytes of the run. The argument has them as its one part, or no part if there are none.
    Run(ArgKind, &'a [u8]),
    /// The argument that was made; its parts have bytes of their own.
    Made(Arg),
}

impl<'a> NextArg<'a> {
    /// Makes the argument, if it is lent.
    pub(crate) fn made(self, alloc: Global) -> Result<Arg, NoMemory>
        ensures { IfOk result (λ arg. arg ≡ arg_of self.entry) }
    {
        match self {
            NextArg::Made(arg) => Ok(arg),
            NextArg::Run(kind, bytes) => {
                let parts = plain_parts(alloc, bytes)?;
                Ok(Arg { kind, parts })
            }
        }
    }
}

/// Makes the parts of a text in which nothing is evaluated.
fn plain_parts(alloc: Global, text: &[u8]) -> Result<List<Part>, NoMemory>
    ensures { IfOk result (λ parts. parts ≡ with_bytes text.now []) }
{
    if text.is_empty() {
        return Ok(List::new(alloc));
    }
    let bytes = Name::of(alloc, text)?;
    let mut parts = Vec::with_capacity(alloc, 1)?;
    parts.push(Part::Bytes(bytes))?;
    Ok(List::from_vec(parts))
}

/// One command of a test file.
#[derive(Debug, Drop)]
pub struct Call {
    /// The name in lower case, since the names of commands do not depend on case.
    pub name: Name,
    pub args: Args,
    /// The line of the name's first byte, from 1.
    pub line: u32,
}
