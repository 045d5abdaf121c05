//! The journal of a run as a text: its writer, its reader, and its check against a plan.
//!
//! Hands up: `journal_text`, which writes the journal of a history, and `journal_within`, which writes one up
//! to a limit; `check_text`, which finds the first line of a text that is not good; what it is made of:
//! `read_line`, `placement_at`, `entry_of`, `take_line`; and `hand_out_ranges`, which states the ranges of
//! what is written.
//! Read first: `specs/Journal.antt`, `specs/Found.antt`, `specs/Completed.antt`, then `writer.rt`, `text.rt`.
#![tactic(auto)]

mod check;
mod guess;
mod lines;
mod numbers;
mod pieces;
mod placements;
mod ranges;
mod reader;
mod text;
mod words;
mod writer;

pub use check::{Step, entry_of, take_line};
pub use lines::{EntryLine, JournalLine};
pub use placements::placement_at;
pub use ranges::hand_out_ranges;
pub use reader::read_line;
pub use text::check_text;
pub use writer::{journal_text, journal_within, line_text};
