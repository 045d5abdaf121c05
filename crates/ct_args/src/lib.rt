//! The words of the command line.
//!
//! Hands up: `read_words` reads them as an `Invocation`, or finds the first word that is refused.
//! Read first: `specs/Spelling.antt`, `specs/Given.antt`, `specs/Fault.antt`, then `words.rt`.
#![tactic(auto)]

mod given;
mod invocation;
mod numbers;
mod option;
mod settings;
mod spelling;
mod usage;
mod values;
mod words;

pub use invocation::{Invocation, Task};
pub use usage::{UsageFault, UsageKind};
pub use words::read_words;
