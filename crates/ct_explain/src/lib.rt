//! What a recorded run explains: which attempts made it so long, what each of them waited for, and whether
//! another order could have been shorter; and why a text is no journal of a run.
//!
//! It speaks of the durations that a journal holds, and claims nothing of real time.
//! It names no crate of the scheduler.
//!
//! Hands up: `explain_main`, which puts the report or the picture of the run whose journal a file holds, or
//! says which line of the file is refused and why; and the laws of `picture_laws`: each attempt that
//! ended has one bar, and the bars of one worker do not overlap. Read first: `specs/Waits.antt`,
//! `specs/Reasons.antt`, `specs/Reading.antt`, `specs/Report.antt`, `specs/Picture.antt`,
//! `specs/Explain.antt`, then `explain.rt`.
#![tactic(auto)]

mod answer;
mod bar_lines;
mod bars;
mod entries;
mod escaped;
mod explain;
mod find;
mod frame;
pub mod laws;
mod lock_wait;
mod picture;
pub mod picture_laws;
mod reading;
mod report;
mod scale;
mod serial_wait;
mod slot_wait;
mod story;
mod texts;
mod wait;
mod why;

pub use explain::{ExplainOutcome, Explained, explain_main};
