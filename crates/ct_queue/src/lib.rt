//! Keeps the tests that are ready to start, in the order of their cost.
//!
//! Hands up, for the scheduling core: `Ready` and `Marks`. `Ready` finds the
//! first ready test behind a place of the order, and goes through the heads
//! of lines bunch by bunch. `Marks` finds the least marked place from one on.
//! Read first: `specs/Ready.antt`, then `ready.rt`.
#![tactic(auto)]

mod bunches;
mod lines;
mod marks;
mod members;
mod ready;

pub use marks::Marks;
pub use ready::Ready;
