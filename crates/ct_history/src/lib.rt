//! Plans of a run, histories of what happened in it, and what a history says of each test.
//!
//! Hands up: `Plan`, `History`, `Board`, `Audit`, which checks a history entry by entry in one pass, `judge`,
//! `final_verdict`, and `courses_of`, for the verdicts of all tests at once.
//! It names no crate of the scheduler.
//! Read first: `specs/History.antt`, `specs/Verdicts.antt`, `specs/Rules.antt`, `specs/Legal.antt`, `specs/Course.antt`,
//! `specs/Audited.antt`.
#![tactic(auto)]

mod audit;
mod board;
mod course;
mod exclusion;
mod history;
mod legal;
mod open_start;
mod opened;
mod placed;
mod places;
mod plan;
mod rules;
mod verdicts;

pub use audit::Audit;
pub use board::{Base, Board};
pub use course::{Course, Courses, Ended, course_at, courses_of, verdict_by};
pub use history::{Entry, History};
pub use legal::judge;
pub use open_start::{OpenStart, used_processors, used_slots};
pub use opened::{holds_start, is_busy};
pub use places::{expect_place, place_of, planned_test};
pub use plan::{Plan, PlanParts, PlanTest, test_at};
pub use verdicts::{final_verdict, is_failing, verdict, verdict_of};
