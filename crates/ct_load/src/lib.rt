//! A load: a run of many generated tests over files, gates and a sink in memory.
//!
//! Hands up: `load_main`, which makes the tests, runs them and puts the summary of their run.
//! Read first: `specs/Tree.antt`, `specs/World.antt`, `specs/Run.antt`, `specs/Load.antt`, then `load.rt` and
//! what it calls: `run.rt`, `tree.rt`, `world.rt`.
#![tactic(auto)]

pub mod limits;
mod load;
mod run;
mod tree;
mod world;

pub use load::{Loaded, load_main};
pub use run::LoadRun;
