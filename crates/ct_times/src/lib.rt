//! How long a recorded run takes at least, and what no other order of its programs could gain.
//!
//! Hands up: `least_times`, `length_of` and `works_of`, and the laws of `laws`: the least times are the least
//! timing, a history has one chain, and no legal history with the same work is shorter than the bound of a
//! capacity. It speaks of the durations that a history records, and claims nothing of real time.
//! `chain_of` hands up the chain: each `Link` is an attempt with the places of its Start and End
//! (`specs/Links.antt`).
//! `bound_of` finds the greatest bound of a run, and `counts_for` its tests: `specs/Bounds.antt`. The
//! capacity that it tells is the first of all with that bound, in the order of `specs/First.antt`.
//! Read first: `specs/Times.antt`, `specs/Chain.antt`, `specs/Capacity.antt`, `specs/Amounts.antt`, then
//! `laws.rt`.
#![tactic(auto)]

mod amounts;
mod bounds;
mod chain;
mod greatest;
pub mod laws;
mod locks;
mod path;
mod share;
mod slots;
mod times;
mod works;

pub use amounts::counts_for;
pub use bounds::{Bound, Capacity, bound_of};
pub use chain::{Link, chain_of};
pub use path::Path;
pub use times::{least_times, length_of};
pub use works::{Works, ran, work_at, works_of};
