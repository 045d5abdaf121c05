ghost use Rattle.std.specs.Prelude.{◌≡◌};
ghost use Rattle.std.specs.Option.{option_map};
ghost use Rattle.ct_env.specs.Modification.{change_in};

use crate::assignment::{assignment_in, split_first};
use crate::operation::Operation;
use std::marker::Model;

/// An entry of ENVIRONMENT_MODIFICATION, `NAME=OPERATION:VALUE`.
///
/// Source: CMake manual, cmake-properties(7), ENVIRONMENT_MODIFICATION.
#[derive(Debug, Drop)]
pub struct Modification<'a> {
    pub name: &'a [u8],
    pub operation: Operation,
    pub value: &'a [u8],
}

impl<'a> Model for Modification<'a> {
    ghost use Rattle.ct_env.specs.Modification.{Change};

    ghost Value = { Change };

    ghost view = { λ m. record { name = m.name.now; operation = m.operation; value = m.value.now } };
}

impl<'a> Modification<'a> {
    /// Reads an entry: a name that is not empty, an operation that is known, and a value.
    pub fn of(entry: &'a [u8]) -> Option<Modification<'a>>
        ensures { result ≡ change_in entry.now }
    {
        let (name, text) = assignment_in(entry)?;
        let (word, value) = split_first(text, b':')?;
        let operation = Operation::named(word)?;
        Some(Modification {
            name,
            operation,
            value,
        })
    }
}
