use std::alloc::{AllocError, AllocFailed};

/// Memory was wanting.
///
/// Each fault of this repository has it as a cause of its own. No clause ties it to a growth that
/// the system refused.
#[derive(Clone, Copy, Debug, PartialEq, Eq)]
pub struct NoMemory;

impl From<AllocError> for NoMemory {
    fn from(_e: AllocError) -> NoMemory {
        NoMemory
    }
}

impl<T: Drop> From<AllocFailed<T>> for NoMemory {
    fn from(_e: AllocFailed<T>) -> NoMemory {
        NoMemory
    }
}
