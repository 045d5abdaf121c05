//! The texts of a run, put to a sink line by line.
//!
//! Hands up: `header`, `line`, `summary` and `no_tests`; `TestLines` for the lines of a whole run; the lists, `label_list`
//! and `test_list`.
//! Read first: `specs/Report.antt`, then `report.rt`.
#![tactic(auto)]

mod labels;
mod lists;
mod numbers;
mod puts;
mod report;
mod run_lines;
mod summaries;
mod test_lines;
mod totals;
mod verdict_texts;

pub use lists::{ListedTest, label_list, test_list};
pub use report::{header, line, no_tests, summary};
pub use run_lines::TestLines;
