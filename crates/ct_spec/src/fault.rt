use ct_base::{Name, NoMemory};

/// Why a text is no resource specification: the first cause in reading order.
///
/// Entries are numbered from 0 within their kind.
///
/// Source: CMake manual, ctest(1), Resource Specification File. The causes and the limits are this
/// project's choice.
#[derive(Debug, Drop)]
pub enum SpecFault {
    /// The text is no JSON.
    NotJson,
    /// The member `version` is no object with `major` 1 and `minor` 0.
    BadVersion,
    /// The member `local` is no array of one object.
    BadLocal,
    /// The name is no resource type, or its value is no array.
    BadKind { kind: Name },
    /// The entry has no id of lower-case letters, digits and `_`.
    BadId { kind: Name, entry: u32 },
    /// An earlier entry of this kind has the same id.
    TwiceId { kind: Name, entry: u32 },
    /// The slots are no whole number from 0 to 1,000,000,000.
    BadSlots { kind: Name, entry: u32 },
    /// There are more than 4,096 resources.
    TooMany,
    /// Memory was wanting.
    NoMemory,
}

impl From<NoMemory> for SpecFault {
    ghost use Rattle.std.specs.Prelude.{◌≡◌};
    ghost use Rattle.ct_spec.specs.declared.fault.SpecFault.TheVariants.{NoMemory as wanting};

    ghost from_gives = { λ _ e. e ≡ wanting };

    fn from(_e: NoMemory) -> SpecFault {
        SpecFault::NoMemory
    }
}
