//! The tests of the turn over a core: passes in one thread, and workers in threads of their own.
//!
//! Hands up: nothing. A crate with tests of its own is proved twice, so they stand here.
//! Read first: `work` in `turn.rt`.
#![tactic(auto)]

#[cfg(test)]
mod turn;
