//! The workers of a run: they take turns with one state, and
//! each runs the attempts that it starts on its own gate.
//!
//! Hands up: `State`, the core of a run with the sink for its lines; `Jobs`, what workers
//! have to know of the tests; `work`, `pool` and `run_workers`, the work of one worker and of all; `laws`.
//! Read first: `specs/Gates.antt`, `specs/Lent.antt`, `specs/State.antt`,
//! `specs/Halted.antt`; then `state.rt`, `worker.rt`, `crew.rt`.
#![tactic(auto)]

mod attempt;
mod crew;
mod jobs;
pub mod laws;
mod lines;
mod listener;
mod state;
mod worker;

pub use crew::{Pooled, pool, run_workers};
pub use jobs::Jobs;
pub use state::{Halt, State};
pub use worker::{Worked, work};
