//! The tests and the variables of a tree of test files, while it is read.
//!
//! Hands up: `values_of` returns the values of the arguments of a command; `Table` keeps the
//! variables so far, and `Suite` the tests so far with their properties and labels;
//! `names_and_pairs`, `pairs_behind` and `list_value` read the values of a command as words.
//! Read first: `specs/Values.antt`, `specs/Words.antt` and `specs/Tests.antt`, then `suite.rt`.
#![tactic(auto)]

mod count;
mod fault;
mod limits;
mod named;
mod open_test;
mod places;
mod props;
mod reader;
mod suite;
mod table;
mod value;
mod words;

pub use count::raised;
pub use fault::ValueFault;
pub use limits::{MOST_BYTES, MOST_TESTS, ValueLimits};
pub use named::{count_named, set_named};
pub use suite::Suite;
pub use table::Table;
pub use value::{Value, size, texts, values_of};
pub use words::{
    distinct, label_bytes, labels_of, list_value, names_and_pairs, pairs_behind, prop_bytes,
    take_apart,
};
