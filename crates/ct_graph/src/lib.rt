//! Finds the order of the tests of a run, or a cycle that forbids it.
//!
//! Hands up: `order`, with the tests that come before each test, its setups and its rank.
//! Read first: `specs/Before.antt`, `specs/Cycle.antt`, `specs/Order.antt`, then `ordering.rt`.
#![tactic(auto)]

mod by_name;
mod fault;
mod found;
mod index;
mod known;
mod ordering;
mod rows;
mod walk;

pub use fault::GraphFault;
pub use ordering::{Links, MOST_EDGES, Ordered, order};
