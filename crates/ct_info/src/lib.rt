//! Writes the list of tests as JSON, for editors.
//!
//! Hands up: `info`, which returns the JSON text of the tests of a run.
//! Read first: `specs/Info.antt`, then `listing.rt`.
#![tactic(auto)]

mod entry;
mod listing;
mod text;

pub use listing::info;
