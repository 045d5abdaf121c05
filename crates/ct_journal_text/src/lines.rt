use ct_base::List;
use ct_verdict::{Cause, Seen};

/// A line of a journal.
#[derive(Debug, Drop)]
pub enum JournalLine {
    /// The first line.
    First,
    /// The line of an entry.
    Entry(EntryLine),
    /// The last line, with the number of entries.
    Done(u64),
}

/// What a journal says of an entry: all of it, but of a placement the places of its resources alone.
///
/// The other fields of a pick are those of the test's need and of the plan's resource at that place.
#[derive(Debug, Drop)]
pub enum EntryLine {
    Start {
        test: u32,
        attempt: u32,
        worker: u32,
        /// The place of the resource of each pick in the plan's list, from 0.
        places: Option<List<u32>>,
    },
    End {
        test: u32,
        attempt: u32,
        worker: u32,
        seen: Seen,
    },
    Settle {
        test: u32,
        cause: Cause,
    },
    Stop,
}
