//! The tests of the machine as a run sees it: its files, its output, and the programs of tests.
//!
//! Hands up: nothing. A crate with tests of its own is proved twice, so they stand here.
//! Read first: `rows.rt` makes what the others test.
#![tactic(auto)]

#[cfg(test)]
mod beside;
#[cfg(test)]
mod doubles;
#[cfg(test)]
mod ends;
#[cfg(test)]
mod files;
#[cfg(test)]
mod pieces;
#[cfg(test)]
mod programs;
#[cfg(test)]
mod rows;
#[cfg(test)]
mod times;
