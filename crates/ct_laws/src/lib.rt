//! Laws of the definitions, for readers: each function does nothing, and its clauses are the law.
//!
//! Hands up: `histories`, what a legal history says by the places of its entries; `texts`, that what
//! a run writes for the next one is read back as it was; and `waits`, that an attempt that waited for
//! nothing could have started there.
//! Nothing stands on it.
//! Read first: `specs/Places.antt`, then `histories.rt`.
#![tactic(auto)]

pub mod histories;
pub mod texts;
pub mod waits;
