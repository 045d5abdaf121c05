//! Calls in text, and the words, files, sinks and gates that their rows name.
//!
//! Hands up: `calls_of`, which reads a text; what each `CallRow` names and wants; `written` and others, which
//! tell of a sink and of files.
//! Read first: `row.rt`, then `outside.rt`.
#![tactic(auto)]

mod outside;
mod row;
mod tell;

pub use crate::outside::{Inputs, gates_of, inputs_of, sink_failing_at, sink_of, words_of};
pub use crate::row::{CallRow, Want, calls_of, count_rows, odd_line};
pub use crate::tell::{
    asked_of, entries_of, held_in, is_asked, keeps_files, left_in, requests_of, text_of, written,
};
