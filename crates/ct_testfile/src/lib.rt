//! Reads the test files of a tree.
//!
//! Hands up: `read_tree` returns the tests that the test files of a folder and of the folders below
//! it define, or the first refusal in reading order; `read_tree_within` does so within other limits.
//! Read first: `specs/Commands.antt`, `specs/Ifs.antt` and `specs/Tree.antt`, then `tree.rt`.
//! `laws.rt` says in the words of the manual what an `if` carries out.
#![tactic(auto)]

mod branch;
mod command;
mod condition;
mod fault;
mod ifs;
pub mod laws;
mod limits;
mod open_file;
mod opening;
mod perform;
mod state;
mod step;
mod tree;

pub use fault::{ReadFault, ReadKind};
pub use limits::{LIMITS, Limits};
pub use tree::{read_tree, read_tree_within};
