//! Reads the commands of a test file, one by one.
//!
//! Hands up: `Lexer`, which returns each `Call` or the first `LexFault`, and `ArgReader`, which
//! makes or lends the arguments of a call one by one.
//! Read first: `specs/Grammar.antt`, then `lexer.rt`.
#![tactic(auto)]

mod args;
mod argument;
mod bracket;
mod bytes;
mod call;
mod command;
mod fault;
mod lengths;
mod lexer;
mod parts;
mod plain;
mod stop;
mod unit;

pub use args::{ArgReader, Args};
pub use call::{Arg, ArgKind, Call, NextArg, Part};
pub use fault::LexFault;
pub use lexer::Lexer;
