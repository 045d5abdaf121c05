//! Chooses the tests that a run is asked for.
//!
//! Hands up: `select` gives the numbers of the tests that names, labels and numbers admit, or that
//! alone are asked for; `failed_names` reads the names in a log of failed tests.
//! Read first: `specs/Chosen.antt`, then `chosen.rt`.
#![tactic(auto)]

mod chosen;
mod failed;
mod names;
mod numbers;
mod patterns;

pub use chosen::select;
pub use failed::failed_names;
