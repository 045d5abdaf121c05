//! The turn: one locked scheduler for workers that race.
//!
//! Hands up: `Turn`, which lends the state of a run to one worker at a time; `Pass`, a worker's seat.
//! Read first: `specs/Seen.antt`, `specs/Rule.antt`, then `turn.rt`.
#![tactic(auto)]

mod pass;
mod rule;
mod turn;
mod view;

pub use pass::Pass;
pub use turn::{OpenRefused, Turn};
pub use view::{Known, Moment, Note, View};
