use ct_base::NoMemory;

/// Why a word of the command line is refused.
///
/// Source: CMake manual, ctest(1), Options. What is refused is this project's choice.
#[derive(Clone, Copy, Debug, PartialEq, Eq)]
pub enum UsageKind {
    /// The word is no option.
    UnknownOption,
    /// The option takes a value, and no word follows.
    NoValue,
    /// The value is no number of the kind that the option takes.
    BadNumber,
    /// The value is no regular expression.
    BadPattern,
    /// The option may be given once, and stood before in one of its spellings.
    Twice,
    /// The value is no mode of the option.
    BadMode,
}

/// Why the words of the command line are not read.
#[derive(Clone, Copy, Debug, PartialEq, Eq)]
pub enum UsageFault {
    /// The first refused word from the left, counted from 1. A bad value is refused at the word that
    /// holds it, everything else at the word that names the option.
    At { word: u32, kind: UsageKind },
    /// Memory was wanting.
    NoMemory,
}

impl From<NoMemory> for UsageFault {
    ghost use Rattle.std.specs.Prelude.{◌≡◌};
    ghost use Rattle.ct_args.specs.declared.usage.UsageFault.TheVariants.{NoMemory as wanting};

    ghost from_gives = { λ _ e. e ≡ wanting };

    fn from(_e: NoMemory) -> UsageFault {
        UsageFault::NoMemory
    }
}

/// Why the value of an option is not read.
#[derive(Clone, Copy)]
pub enum ValueFault {
    /// It is refused.
    Bad(UsageKind),
    /// Memory was wanting.
    NoMemory,
}

impl ValueFault {
    ghost use Rattle.std.specs.Prelude.{◌≡◌};
    ghost use Rattle.ct_args.specs.Read.{usage_fault_at};

    /// The fault of the word that holds the value.
    pub fn at(self, word: u32) -> UsageFault
        ensures { result ≡ usage_fault_at word self }
    {
        match self {
            ValueFault::Bad(kind) => UsageFault::At { word, kind },
            ValueFault::NoMemory => UsageFault::NoMemory,
        }
    }
}

impl From<UsageKind> for ValueFault {
    ghost use Rattle.std.specs.Prelude.{◌≡◌};
    ghost use Rattle.ct_args.specs.declared.usage.ValueFault.TheVariants.{Bad as refused};

    ghost from_gives = { λ kind e. e ≡ refused kind };

    fn from(kind: UsageKind) -> ValueFault {
        ValueFault::Bad(kind)
    }
}

impl From<NoMemory> for ValueFault {
    ghost use Rattle.std.specs.Prelude.{◌≡◌};
    ghost use Rattle.ct_args.specs.declared.usage.ValueFault.TheVariants.{NoMemory as wanting};

    ghost from_gives = { λ _ e. e ≡ wanting };

    fn from(_e: NoMemory) -> ValueFault {
        ValueFault::NoMemory
    }
}
