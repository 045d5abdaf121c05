//! A row as its part sees it, and why a row comes to nothing.

use crate::sheet::Cell;
use ct_args::UsageFault;
use ct_base::{NoMemory, SinkFault};
use ct_graph::GraphFault;
use ct_plan::PlanFault;
use ct_props::PropFault;
use std::alloc::{AllocError, AllocFailed};
use std::str;

/// Why a file of rows is not read, or a row comes to nothing.
#[derive(Clone, Copy, Debug, PartialEq, Eq)]
pub(crate) enum RowFault {
    /// The file cannot be read, or is no text.
    NoText,
    /// The line with this number, from 1, is not `key: text` of ASCII characters.
    BadLine(u64),
    /// The file has no row.
    NoRow,
    /// No part has the name that the file asks.
    NoPart,
    /// Neither the row nor the head of its file has a line of this key.
    Lacks(&'static str),
    /// The text of this key is not one that the part may be given.
    Unfit(&'static str),
    /// Memory was wanting.
    NoMemory,
}

impl From<NoMemory> for RowFault {
    fn from(_e: NoMemory) -> RowFault {
        RowFault::NoMemory
    }
}

impl From<AllocError> for RowFault {
    fn from(_e: AllocError) -> RowFault {
        RowFault::NoMemory
    }
}

impl<T: Drop> From<AllocFailed<T>> for RowFault {
    fn from(_e: AllocFailed<T>) -> RowFault {
        RowFault::NoMemory
    }
}

impl From<PropFault> for RowFault {
    fn from(_e: PropFault) -> RowFault {
        RowFault::Unfit("properties")
    }
}

impl From<UsageFault> for RowFault {
    fn from(_e: UsageFault) -> RowFault {
        RowFault::Unfit("words")
    }
}

impl From<GraphFault> for RowFault {
    fn from(_e: GraphFault) -> RowFault {
        RowFault::Unfit("links")
    }
}

impl From<PlanFault> for RowFault {
    fn from(_e: PlanFault) -> RowFault {
        RowFault::Unfit("plan")
    }
}

impl From<SinkFault> for RowFault {
    fn from(_e: SinkFault) -> RowFault {
        RowFault::Unfit("output")
    }
}

/// The lines of a row, and those in the head of its file.
#[derive(Clone, Copy)]
pub(crate) struct Given<'a> {
    pub(crate) head: &'a [Cell],
    pub(crate) row: &'a [Cell],
}

impl<'a> Given<'a> {
    /// Returns what a key has in the row, or else in the head of the file.
    pub(crate) fn bytes(self, key: &'static str) -> Result<&'a [u8], RowFault> {
        match find(self.row, key) {
            Some(bytes) => Ok(bytes),
            None => find(self.head, key).ok_or(RowFault::Lacks(key)),
        }
    }

    /// Returns the text that a key has.
    pub(crate) fn text(self, key: &'static str) -> Result<&'a str, RowFault> {
        match str::from_utf8(self.bytes(key)?) {
            Ok(text) => Ok(text),
            Err(_) => Err(RowFault::Unfit(key)),
        }
    }

    /// Returns the number that a key has.
    pub(crate) fn number(self, key: &'static str) -> Result<u64, RowFault> {
        match self.text(key)?.parse::<u64>() {
            Ok(number) => Ok(number),
            Err(_) => Err(RowFault::Unfit(key)),
        }
    }
}

fn find<'a>(cells: &'a [Cell], key: &str) -> Option<&'a [u8]> {
    for cell in cells {
        if cell.key.as_str() == key {
            return Some(cell.text.as_slice());
        }
    }
    None
}
