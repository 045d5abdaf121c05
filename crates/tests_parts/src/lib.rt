//! The tests of parts that are no rows: loads, limits, what is made step by step, and what holds of each
//! beginning of a text. The rows stand in rows_parts.
//!
//! Hands up: nothing. A crate with tests of its own is proved twice, so they stand here.
//! Read first: `rows.rt`. Each other module is named after what it tests.
#![tactic(auto)]

#[cfg(test)]
mod base;
#[cfg(test)]
mod journal;
#[cfg(test)]
mod lex;
#[cfg(test)]
mod regex;
#[cfg(test)]
mod rows;
#[cfg(test)]
mod spec;
#[cfg(test)]
mod testfile;
