//! The scheduling core of a run, and the gate through which programs are asked.
//!
//! Hands up: `Core`, which starts and ends attempts; `Ticket`, the right to run one; `Gate`.
//! Read first: `specs/Choice.antt`, `specs/Core.antt`, `specs/Gate.antt`, then `scheduler.rt`, `gate.rt`.
//! For what the core keeps beside its history: `specs/Parts.antt`, then `run.rt`.
#![tactic(auto)]

mod begin;
mod both;
mod bunches;
mod choice;
mod followers;
mod gate;
mod in_use;
mod lines;
mod locks;
mod parts;
mod run;
mod scheduler;
mod script;
mod sharers;
mod slots;
mod state;
mod ticket;
mod verdict;

pub use gate::{Asked, Ended, Gate, Request, Told, lacks_memory};
pub use scheduler::{Core, Next};
pub use script::ScriptGate;
pub use ticket::Ticket;
