//! What a run leaves for the next one: the costs of the tests, and which of them failed.
//!
//! Hands up: `CostData`, which is read from a text, brought up to date after a run, and written;
//! and `failed_log`.
//! Read first: `specs/CostLine.antt`, `specs/Text.antt`, `specs/After.antt`, then `cost_data.rt`.
#![tactic(auto)]

mod cost_data;
mod durations;
mod endings;
mod line;
mod lines;
mod log;
mod names;
mod parts;
mod reading;
mod texts;

pub use cost_data::CostData;
pub use log::failed_log;
