//! The verdict of an attempt of a test, and whether the test is tried again.
//!
//! Hands up: `one`, the verdict of one attempt, and `Repeat::again`.
//! Read first: `specs/Verdict.antt`, then `rules.rt` and `repeat.rt`.
#![tactic(auto)]

mod attempt;
mod repeat;
mod rules;
mod verdict;

pub use attempt::{How, Seen};
pub use repeat::{Mode, Repeat};
pub use rules::{Rules, one};
pub use verdict::{Cause, Verdict};
