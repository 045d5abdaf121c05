//! Makes the plan of a run: which tests, in which order, judged by which rules.
//!
//! Hands up: `plan`, from tests, properties, what is wanted, the resources that are lent and what
//! earlier runs cost; `members`, the tests that a run has.
//! Read first: `specs/Source.antt`, `specs/Planned.antt`, `specs/Queue.antt`, `specs/PlanOf.antt`,
//! then `planning.rt`.
#![tactic(auto)]

mod fault;
mod planned;
mod planning;
mod queue;
mod standing;
mod whole;

pub use fault::PlanFault;
pub use planning::{members, plan};
pub use whole::{Tree, whole_plan};
