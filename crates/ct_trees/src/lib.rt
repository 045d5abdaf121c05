//! Runs the tests of several build trees over one pool of slots, locks and processors.
//!
//! Hands up: `trees_main`, which does all that such a call does, and its steps `read_trees`, which reads
//! the words, and `read_and_plan`, which reads and plans the trees.
//! Read first: `specs/TreeWords.antt`, `specs/Trees.antt`, `specs/TreeReports.antt`, `specs/TreeFiles.antt`,
//! `specs/TreeRuns.antt`, `specs/TreeAnswers.antt`, then `top.rt` and `call.rt`.
#![tactic(auto)]

mod call;
mod joining;
mod leaving;
pub mod limits;
mod parts;
mod planning;
mod reports;
mod run;
mod top;
mod tree_files;
mod tree_parts;
mod tree_run;
mod whole;
mod words;

pub use planning::{UnplannedTrees, read_and_plan};
pub use top::{TreesFinished, trees_main};
pub use words::{Trees, read_trees};
