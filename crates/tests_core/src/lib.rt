//! The tests of the core: where needs are placed, which tests are ready, and how a plan is run.
//!
//! Hands up: nothing. A crate with tests of its own is proved twice, so they stand here.
//! Read first: `workers.rt` drives the core for the others.
#![tactic(auto)]

#[cfg(test)]
mod alloc;
#[cfg(test)]
mod chosen;
#[cfg(test)]
mod core_runs;
#[cfg(test)]
mod dice;
#[cfg(test)]
mod drawn_runs;
#[cfg(test)]
mod queue;
#[cfg(test)]
mod slots;
#[cfg(test)]
mod workers;
