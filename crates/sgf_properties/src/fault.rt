//! How a call that takes memory may fail.

use std::alloc::{AllocError, AllocFailed};
use thiserror::Error;

/// Memory was refused. The call changed neither the value that it was made on nor the vector that it appends to.
#[derive(Clone, Copy, Debug, PartialEq, Eq, Error)]
#[error("out of memory")]
pub struct MemoryFault;

impl From<AllocError> for MemoryFault {
    fn from(_refused: AllocError) -> MemoryFault {
        MemoryFault
    }
}

impl<T: Drop> From<AllocFailed<T>> for MemoryFault {
    fn from(_refused: AllocFailed<T>) -> MemoryFault {
        MemoryFault
    }
}
