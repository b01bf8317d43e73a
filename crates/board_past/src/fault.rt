//! Refused memory.

use std::alloc::{AllocError, AllocFailed};
use std::error::Error;
use std::fmt;

/// A call was refused memory. The value that the call was made on is unchanged.
#[derive(Clone, Copy, Debug, PartialEq, Eq)]
pub struct MemoryFault;

impl fmt::Display for MemoryFault {
    fn fmt<W: fmt::Write>(&self, f: &mut fmt::Formatter<W>) -> fmt::Result {
        f.write_str("out of memory")
    }
}

impl Error for MemoryFault {}

impl From<AllocError> for MemoryFault {
    fn from(_refused: AllocError) -> MemoryFault {
        MemoryFault
    }
}

impl<T: Drop> From<AllocFailed<T>> for MemoryFault {
    fn from(_refused: AllocFailed<T>) -> MemoryFault {
        MemoryFault
    }
}
