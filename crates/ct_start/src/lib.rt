//! What programs over the machine share: their words, their environment, their gates, and the exit code of
//! one that could not begin.
//!
//! Hands up: `start` and `start_by_words`, which make the call of a program, and `exit_code`; and what they are
//! made of: `words_of`, `pairs_of`, `gates_of`, `BeginFault`.
//! Read first: `specs/Start.antt`.
#![tactic(auto)]

mod call;
mod fault;
mod gates;
mod words;

pub use call::{exit_code, start, start_by_words};
pub use fault::BeginFault;
pub use gates::gates_of;
pub use words::{pairs_of, words_of};
