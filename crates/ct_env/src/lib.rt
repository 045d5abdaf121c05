//! The environment of a test's program.
//!
//! Hands up: `environment` makes it, and `bad_operation` finds an entry that names no operation.
//! Read first: `specs/Environment.antt`, then `start.rt`.
#![tactic(auto)]

mod assignment;
mod kinds;
mod modification;
mod operation;
mod placement;
mod start;
mod variables;

pub use start::{bad_operation, environment};
