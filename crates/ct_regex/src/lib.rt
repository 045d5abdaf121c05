//! The regular expressions of CMake: parsed exactly, and matched by their definition.
//!
//! Hands up: `Regex::parse` reads a pattern or returns its first fault, `hit` says whether a text
//! has a match anywhere, a `Scan` says the same of a text in pieces, and a `Matcher` of many texts.
//! Read first: `specs/Tree.antt`, `specs/Ends.antt`, `specs/Signs.antt`, `specs/Reading.antt` and
//! `specs/Scan.antt`. In `specs/Lib.antt`, the files from `Walk` to `Memory` are internal to the matcher.
#![tactic(auto)]

mod fault;
pub mod laws;
mod matcher;
mod memory;
mod pattern;
mod program;
mod reader;
mod scan;
mod set;
mod sign;
mod tree;
mod walk;

pub use fault::RegexFault;
pub use matcher::Matcher;
pub use pattern::Regex;
pub use scan::Scan;
