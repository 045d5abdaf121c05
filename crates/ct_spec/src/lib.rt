//! Reads the resources that a machine declares for tests.
//!
//! Hands up: `Spec::parse`, with `resources` to read what it found.
//! Read first: `specs/Specification.antt`, then `spec.rt`.
#![tactic(auto)]

mod document;
mod entry;
mod fault;
mod ids;
mod json;
mod kinds;
mod spec;

pub use fault::SpecFault;
pub use spec::Spec;
