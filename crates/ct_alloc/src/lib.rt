//! Placements of a test's needs on the machine's resources.
//!
//! Hands up: `Free`, which places needs beside what is used;
//! `Placement`, which a start carries, with its `Pick`s.
//! Read first: `specs/Placement.antt`, `specs/Free.antt`, then `free.rt`.
#![tactic(auto)]

mod bound;
mod by_kind;
mod free;
mod pack;
mod placement;

pub use free::Free;
pub use placement::{Pick, Placement, copy_placement};
