use ct_base::NoMemory;
use thiserror::Error;

/// Why a text is no list of resource groups: the first cause in reading order.
///
/// Source: CMake manual, cmake-properties(7), RESOURCE_GROUPS. The causes and the limits are this
/// project's choice.
#[derive(Debug, PartialEq, Eq, Drop, Error)]
pub enum GroupsFault {
    /// A piece has no `:` and is not the count in front.
    #[error("a requirement has no `:`")]
    NoColon,
    /// A type is not valid: it has to begin with a lower-case letter or `_`, and to go on with
    /// these and digits.
    #[error("a resource type is not valid")]
    BadType,
    /// A count of groups is 0, or the slots are not written as digits alone.
    #[error("a count is not valid")]
    BadCount,
    /// A requirement asks for 0 slots.
    #[error("a requirement asks for no slots")]
    ZeroSlots,
    /// More than 64 groups, more than 64 needs, or more than 1,000,000,000 slots for one requirement.
    #[error("too much is required")]
    TooMany,
    /// Memory was wanting.
    #[error("out of memory")]
    NoMemory,
}

impl From<NoMemory> for GroupsFault {
    ghost use Rattle.std.specs.Prelude.{◌≡◌};
    ghost use Rattle.ct_groups.specs.declared.fault.GroupsFault.TheVariants.{NoMemory as wanting};

    ghost from_gives = { λ _ e. e ≡ wanting };

    fn from(_e: NoMemory) -> GroupsFault {
        GroupsFault::NoMemory
    }
}
