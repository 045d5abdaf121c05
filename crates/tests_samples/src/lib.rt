//! Plans for tests: the parts that they are made of, and whether parts are sound.
//!
//! Hands up: `free`, `cards`, `needs`, `parts_of` and what else parts are made of; `plan_of`: the plan of sound parts.
//! Read first: `plan_of` and `is_sound` in `plans.rt`.
#![tactic(auto)]

mod plans;

pub use plans::{
    Manner, cards, enabled_numbers, free, named, need, needs, parts_of, plan_of, queued, unused,
};
