//! Lists, names and bytes, and the traits of the outside with their forms in memory.
//!
//! Hands up: `Name`, `Blob`, `List`, the records of a test file, and `Files`, `Sink`, `Ear`.
//! Read first: `specs/Outside.antt`, then `files.rt`, `sink.rt` and `ear.rt`.
#![tactic(auto)]

mod blob;
mod calls;
mod collect;
mod defs;
mod ear;
mod entries;
mod file_call;
mod files;
mod list;
mod mem_files;
mod mem_sink;
mod memory;
mod name;
mod names;
mod path;
mod seconds;
mod sink;
mod type_names;

pub use blob::Blob;
pub use collect::Collect;
pub use defs::{MOST_SLOTS, Need, Pair, Resource, TestDef};
pub use ear::Ear;
pub use entries::split_list;
pub use file_call::FileCall;
pub use files::{Files, FilesFault};
pub use list::List;
pub use mem_files::{CalmFiles, MemFiles};
pub use mem_sink::{CalmSink, MemSink};
pub use memory::NoMemory;
pub use name::Name;
pub use names::{copy_names, copy_pairs, is_among, name_set};
pub use path::join_path;
pub use seconds::{MOST_MICROS, first_place, is_numeral, micros, number};
pub use sink::{Sink, SinkFault};
pub use type_names::{has_name_bytes, is_type_name};
