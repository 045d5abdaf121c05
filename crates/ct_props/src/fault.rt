ghost use Rattle.ct_props.specs.Refusal.{IsBad};

use ct_base::{Name, NoMemory};
use ct_groups::GroupsFault;
use ct_regex::RegexFault;
use std::alloc::Global;

/// Why the value of a key is refused.
///
/// Source: CMake manual, cmake-properties(7), Properties on Tests. That a bad value refuses the run
/// is this project's choice.
#[derive(Debug, PartialEq, Eq, Drop)]
pub enum PropKind {
    /// A text that is no number of the kind that the key takes.
    BadNumber,
    /// The first text of the list that is no pattern, and why. Want
    /// of memory is not among the reasons.
    BadPattern(RegexFault),
    /// A text that is no list of resource groups, and why. Want of memory is not among the reasons.
    BadGroups(GroupsFault),
}

/// Why the properties of a test are not read.
#[derive(Debug, Drop)]
pub enum PropFault {
    /// The least key, in byte order, whose value is refused.
    Bad { key: Name, kind: PropKind },
    /// Memory was wanting.
    NoMemory,
}

impl From<NoMemory> for PropFault {
    ghost use Rattle.std.specs.Prelude.{◌≡◌};
    ghost use Rattle.ct_props.specs.declared.fault.PropFault.TheVariants.{NoMemory as wanting};

    ghost from_gives = { λ _ e. e ≡ wanting };

    fn from(_e: NoMemory) -> PropFault {
        PropFault::NoMemory
    }
}

/// Returns the fault for the value of a key: a bad value, or want of memory.
pub fn bad(alloc: Global, key: &[u8], kind: PropKind) -> PropFault
    ensures { IsBad key.now kind result }
{
    match Name::of(alloc, key) {
        Ok(key) => PropFault::Bad { key, kind },
        Err(NoMemory) => PropFault::NoMemory,
    }
}
