use ct_base::NoMemory;
use thiserror::Error;

/// Why a text is no list of commands: the first place at which it has no reading. Lines count from 1.
#[derive(Debug, PartialEq, Eq, Drop, Error)]
pub enum LexFault {
    /// The text ends in a quoted argument that began on that line.
    #[error("line {line}: unclosed quoted argument")]
    OpenString { line: u32 },
    /// The text ends in a bracket argument or a bracket comment that began on that line.
    #[error("line {line}: unclosed bracket")]
    OpenBracket { line: u32 },
    /// The text ends inside a command whose name stands on that line,
    /// outside a quoted argument and a bracket.
    #[error("line {line}: unclosed command")]
    OpenCall { line: u32 },
    /// A backslash in front of a letter or digit other than `t`, `r`, `n`, or of a line feed in an
    /// unquoted argument.
    #[error("line {line}: bad escape")]
    BadEscape { line: u32 },
    /// A byte that can begin neither a command nor an argument at its place.
    #[error("line {line}: unexpected byte")]
    BadChar { line: u32 },
    /// A `${` without a name and `}` behind it, or `$ENV{` or `$CACHE{`.
    #[error("line {line}: bad variable reference")]
    BadReference { line: u32 },
    /// Memory was wanting.
    #[error("out of memory")]
    NoMemory,
}

impl From<NoMemory> for LexFault {
    ghost use Rattle.std.specs.Prelude.{◌≡◌};
    ghost use Rattle.ct_lex.specs.declared.fault.LexFault.TheVariants.{NoMemory as wanting};

    ghost from_gives = { λ _ e. e ≡ wanting };

    fn from(_e: NoMemory) -> LexFault {
        LexFault::NoMemory
    }
}
