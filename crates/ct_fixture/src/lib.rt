//! Draws in the setups and the cleanups of the fixtures that tests require.
//!
//! Hands up: `draw_in`, which returns the members of a run, from the chosen tests.
//! Read first: `specs/Drawing.antt`, then `drawing.rt`. `proofs/RoundLemmas.antt` shows that the
//! rounds of drawing in end.
#![tactic(auto)]

mod by_fixture;
mod drawing;
mod fixtures;
mod members;
mod patterns;

pub use drawing::draw_in;
