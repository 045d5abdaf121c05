//! The tests of whole runs that are no rows: states step by step, loads, programs that write much, and tests that
//! run at the same time.
//!
//! Hands up: nothing. A crate with tests of its own is proved twice, so they stand here.
//! Read first: `calls.rt`, then `programs.rt`.
#![tactic(auto)]

#[cfg(test)]
mod calls;
#[cfg(test)]
mod load;
#[cfg(test)]
mod programs;
#[cfg(test)]
mod states;
#[cfg(test)]
mod workers;
