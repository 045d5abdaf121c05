//! The machine as a run sees it: its files, its output, and the programs of tests.
//!
//! Hands up: `RealFiles`, `RealSink` and `ProcessGate`, forms of `Files`, `Sink` and `Gate`; and the
//! parts of them that are tested without the machine: `read_up_to`, `read_both`, `first_missing`,
//! `attend`, and `Spool`, which keeps what comes on the standard error.
//! Read first: `real_files.rt`, `real_sink.rt` and `process_gate.rt`; then the parts of the gate:
//! `required.rt`, `command.rt`, `start.rt`, `watch.rt`, `pipe.rt`, `keep.rt` and `spool.rt`.
#![tactic(auto)]

mod command;
mod fault;
mod keep;
mod limit;
mod pipe;
mod process_gate;
mod real_files;
mod real_sink;
mod required;
mod spool;
mod start;
mod text;
mod transfer;
mod watch;

pub use fault::StartFault;
pub use keep::Keep;
pub use limit::Limit;
pub use pipe::read_both;
pub use process_gate::ProcessGate;
pub use real_files::RealFiles;
pub use real_sink::RealSink;
pub use required::first_missing;
pub use spool::Spool;
pub use transfer::read_up_to;
pub use watch::{Program, Running, Started, attend};
