use std::alloc::{AllocError, AllocFailed};

/// Running out of memory: the one answer that no clause ties to a cause.
#[derive(Clone, Copy)]
pub struct Memory;

impl From<AllocError> for Memory {
    fn from(_: AllocError) -> Self {
        Memory
    }
}

impl<T: Drop> From<AllocFailed<T>> for Memory {
    fn from(_: AllocFailed<T>) -> Self {
        Memory
    }
}
