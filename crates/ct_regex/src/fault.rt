use ct_base::NoMemory;
use thiserror::Error;

/// Why a text is no pattern. Each place is in bytes from 0.
#[derive(Debug, Drop, PartialEq, Eq, Error)]
pub enum RegexFault {
    /// A group that is never closed: the place of its `(`.
    #[error("the group at byte {0} is not closed")]
    OpenGroup(u32),
    /// A `)` that closes no group.
    #[error("the `)` at byte {0} closes no group")]
    StrayClose(u32),
    /// A set that is never closed: the place of its `[`.
    #[error("the set at byte {0} is not closed")]
    OpenSet(u32),
    /// A range of a set whose last byte is below its first one: the place of the first one.
    #[error("the range at byte {0} ends below its begin")]
    BadRange(u32),
    /// A quantifier with no atom in front of it.
    #[error("the quantifier at byte {0} has nothing to repeat")]
    NothingToRepeat(u32),
    /// A `*` or `+` behind an atom that can be empty.
    #[error("the quantifier at byte {0} repeats what can be empty")]
    EmptyRepeat(u32),
    /// A quantifier directly behind another one.
    #[error("the quantifier at byte {0} stands behind a quantifier")]
    NestedRepeat(u32),
    /// A backslash as the last byte, outside a set.
    #[error("the backslash at byte {0} is the last byte")]
    EndsInBackslash(u32),
    /// More than 65,536 bytes: the place 65,536. Or groups more than 200 deep: the place of the
    /// first `(` that is too deep. Both limits are this project's choice.
    #[error("the pattern is too large at byte {0}")]
    TooLarge(u32),
    /// Memory was wanting.
    #[error("memory was wanting")]
    NoMemory,
}

impl From<NoMemory> for RegexFault {
    ghost use Rattle.std.specs.Prelude.{◌≡◌};
    ghost use Rattle.ct_regex.specs.declared.fault.RegexFault.TheVariants.{NoMemory as OutOfMemory};

    ghost from_gives = { λ _ e. e ≡ OutOfMemory };

    fn from(_e: NoMemory) -> RegexFault {
        RegexFault::NoMemory
    }
}
