//! The calls that keep the journal of a run as a file, and that check one.
//!
//! Hands up: `record_main`, which runs the tests that words ask for and writes the journal of the run;
//! `record_within`, which does so for journals of another greatest size; `check_main`, which says whether a
//! file is the journal of a complete legal history for the plan that words ask for, and runs no test;
//! `MOST_JOURNAL_BYTES`, the greatest size of a journal.
//! Read first: `specs/File.antt`, `specs/Record.antt`, `specs/CheckFound.antt`, `specs/Check.antt`, then `record.rt`, `check.rt`.
#![tactic(auto)]

mod check;
mod check_find;
mod check_report;
mod limit;
mod record;

pub use check::{CheckOutcome, Checked, check_main};
pub use limit::{MOST_JOURNAL_BYTES, a_journal_has_up_to_256_mib};
pub use record::{JournalEnd, Recorded, record_main, record_within};
