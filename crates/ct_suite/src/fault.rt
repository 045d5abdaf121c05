ghost use Rattle.std.specs.Prelude.{◌≡◌};
ghost use Rattle.ct_suite.specs.declared.fault.ValueFault.TheVariants as Fault;

use ct_base::NoMemory;

/// Why the arguments of a command gave no values.
#[derive(Clone, Copy, Debug)]
pub enum ValueFault {
    /// A value, or all values together, have more bytes than the limits allow.
    TooLong,
    /// Memory was wanting.
    NoMemory,
}

impl From<NoMemory> for ValueFault {
    ghost from_gives = { λ _ e. e ≡ Fault.NoMemory };

    fn from(_e: NoMemory) -> ValueFault {
        ValueFault::NoMemory
    }
}
