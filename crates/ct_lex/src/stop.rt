ghost use Rattle.std.specs.Prelude.{◌≡◌, length};
ghost use Rattle.ct_lex.specs.declared.stop.Halt.TheVariants.{Memory, Text};
ghost use Rattle.ct_lex.specs.declared.stop.Stop.TheVariants.{At};

use ct_base::NoMemory;

/// What is wrong at a place of a text.
#[derive(Clone, Copy, Debug, PartialEq, Eq)]
pub enum Cause {
    OpenString,
    OpenBracket,
    OpenCall,
    BadEscape,
    BadChar,
    BadReference,
}

/// Why the reading of a text stops.
#[derive(Clone, Copy, Debug, PartialEq, Eq)]
pub enum Stop {
    /// The text ends where more has to come.
    Ended,
    /// The text has no reading at a place. The number says how many bytes are left from there on.
    At(Cause, usize),
}

impl Stop {
    /// Refuses what is left of a text at its first byte.
    pub fn at(cause: Cause, left: &[u8]) -> Stop
        ensures { result ≡ At cause (length left.now) }
    {
        Stop::At(cause, left.len())
    }
}

/// Why a reader that takes memory returns no value.
#[derive(Clone, Copy, Debug, PartialEq, Eq)]
pub enum Halt {
    Memory,
    Text(Stop),
}

impl From<NoMemory> for Halt {
    ghost from_gives = { λ _ e. e ≡ Memory };

    fn from(_e: NoMemory) -> Halt {
        Halt::Memory
    }
}

impl From<Stop> for Halt {
    ghost from_gives = { λ stop e. e ≡ Text stop };

    fn from(stop: Stop) -> Halt {
        Halt::Text(stop)
    }
}
