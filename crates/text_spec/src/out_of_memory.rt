use std::alloc::{AllocError, AllocFailed};

/// Memory was wanting. What a refused call leaves stands in that call's contract.
#[derive(Clone, Copy, Debug, PartialEq, Eq)]
pub struct OutOfMemory;

impl From<AllocError> for OutOfMemory {
    fn from(_refused: AllocError) -> OutOfMemory {
        OutOfMemory
    }
}

impl<T: Drop> From<AllocFailed<T>> for OutOfMemory {
    fn from(_refused: AllocFailed<T>) -> OutOfMemory {
        OutOfMemory
    }
}
