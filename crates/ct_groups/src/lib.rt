//! Reads the property RESOURCE_GROUPS of a test.
//!
//! Hands up: `Groups::parse`, with `needs` and `count` to read what it found.
//! Read first: `specs/Description.antt`, then `specs/GroupsIn.antt` and `groups.rt`.
#![tactic(auto)]

mod description;
mod fault;
mod groups;
mod pieces;

pub use fault::GroupsFault;
pub use groups::Groups;
