//! The properties of a test, each with the type that its key has.
//!
//! Hands up: `Props::of` reads the properties of a test, or names the least key with a bad value;
//! `Wanted` says which tests a run is asked for, and how.
//! Read first: `specs/Values.antt`, then `specs/Refusal.antt`, `specs/PropsOf.antt` and `props.rt`.
#![tactic(auto)]

mod checked;
mod fault;
mod folder;
mod labels;
mod lists;
mod numbers;
mod patterns;
mod props;
mod texts;
mod truth;
mod unchecked;
mod wanted;

pub use fault::{PropFault, PropKind};
pub use props::Props;
pub use wanted::{Choice, Numbers, Wanted};
