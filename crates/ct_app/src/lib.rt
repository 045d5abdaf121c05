//! The top calls of ctest. They turn the words of a command line into a run with a report, an exit
//! status and two files, or into a list.
//!
//! Hands up: `ctest_main`, which does all that the program does, `list_main`, which lists alone, and
//! `plan_main`, which makes the plan of a run alone. For calls of other crates: the steps `read_tests`,
//! `read_spec`, `read_costs`, `why_unplanned`, `run_pool`, `write_files`, `report_end` and `report_outcome`.
//! Read first: `specs/Reading.antt`, `specs/SpecFile.antt`, `specs/Run.antt`, `specs/Stops.antt`,
//! `specs/RunFiles.antt`, `specs/Rerun.antt`, `specs/Answers.antt`, `specs/Lists.antt`,
//! `specs/Complete.antt`, then `top.rt`, and the steps of a call: `words.rt`, `reading.rt`,
//! `spec_file.rt`, `planning.rt`, `folder.rt`, `run.rt`, `run_files.rt`, `rerun.rt`, and `list.rt`.
#![tactic(auto)]

mod fault;
mod folder;
pub mod limits;
mod list;
mod outcome;
mod planning;
mod props;
mod reading;
mod rerun;
mod run;
mod run_files;
mod spec_file;
mod top;
mod words;

pub use ct_args::UsageKind;
pub use ct_props::PropKind;
pub use ct_spec::SpecFault;
pub use fault::{report_end, report_outcome};
pub use outcome::{Finished, Listed, Outcome, Refusal, SpecRefusal};
pub use planning::{Unplanned, hand_out_sound, plan_main, plan_words, unread, why_unplanned};
pub use props::Tests;
pub use reading::read_tests;
pub use run::{PoolRun, run_pool};
pub use run_files::{RunFileFault, read_costs, write_files};
pub use spec_file::{SpecFileFault, read_spec};
pub use top::{ctest_main, list_main};
