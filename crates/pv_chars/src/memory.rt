//! The error of calls that find too little memory.

use std::alloc::{AllocError, AllocFailed};

/// There was too little memory for a value. A call that returns it has changed nothing, unless it
/// says otherwise.
///
/// ```rust
/// assert!(rt; !matches!(bytes_of(alloc, b"em"), Err(NoMemory)));
/// ```
#[derive(Clone, Copy, Debug, PartialEq, Eq)]
pub struct NoMemory;

impl From<AllocError> for NoMemory {
    fn from(_: AllocError) -> NoMemory {
        NoMemory
    }
}

impl<T: Drop> From<AllocFailed<T>> for NoMemory {
    fn from(_: AllocFailed<T>) -> NoMemory {
        NoMemory
    }
}
