//! The one answer of calls that can only want memory.
use std::alloc::{AllocError, AllocFailed};

/// The answer of a call that can only want memory.
#[derive(Clone, Copy, Debug, PartialEq, Drop)]
pub struct NoMemory;

impl From<AllocError> for NoMemory {
    fn from(_refused: AllocError) -> NoMemory {
        NoMemory
    }
}

impl<T: Drop> From<AllocFailed<T>> for NoMemory {
    fn from(_refused: AllocFailed<T>) -> NoMemory {
        NoMemory
    }
}
