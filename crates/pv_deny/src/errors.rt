//! Why nothing denies a document.

ghost use Rattle.std.specs.Prelude.{◌≡◌};
ghost use Rattle.pv_deny.specs.declared.errors.DenyError.TheVariants.{NoMemory as no_memory};

use pv_chars::NoMemory;
use pv_tree::Path;
use std::alloc::{AllocError, AllocFailed};
use thiserror::Error;

/// Why there is no denial.
#[derive(Debug, Drop, Error)]
pub enum DenyError {
    /// The list at this path is the first that is too wide: one more than its tokens, times the
    /// parts and names of the DTD, is more than 67,108,864.
    #[error("a list is too wide")]
    TooWide(Path),
    /// Inserting elements can make the document valid.
    #[error("the document is potentially valid")]
    Possible,
    /// The rows would have more than 8,388,608 values.
    #[error("too many values")]
    TooMany,
    /// There was too little memory to go on.
    #[error("out of memory")]
    NoMemory,
}

impl From<NoMemory> for DenyError {
    ghost from_gives = { λ _ e. e ≡ no_memory };

    fn from(_: NoMemory) -> DenyError {
        DenyError::NoMemory
    }
}

impl From<AllocError> for DenyError {
    ghost from_gives = { λ _ e. e ≡ no_memory };

    fn from(_: AllocError) -> DenyError {
        DenyError::NoMemory
    }
}
