//! Why nothing is said of a list.

ghost use Rattle.std.specs.Prelude.{◌≡◌};
ghost use Rattle.pv_reach.specs.declared.errors.ReachError.TheVariants.{NoMemory as no_memory};

use std::alloc::{AllocError, AllocFailed};
use thiserror::Error;

/// Why nothing is said of a word or a list.
#[derive(Debug, Drop, Error)]
pub enum ReachError {
    /// One more than its tokens, times the parts and names of the DTD, is more than 67,108,864.
    #[error("the list is too wide")]
    TooWide,
    /// There was too little memory to go on.
    #[error("out of memory")]
    NoMemory,
}

impl From<pv_chars::NoMemory> for ReachError {
    ghost from_gives = { λ _ e. e ≡ no_memory };

    fn from(_: pv_chars::NoMemory) -> ReachError {
        ReachError::NoMemory
    }
}

impl From<AllocError> for ReachError {
    ghost from_gives = { λ _ e. e ≡ no_memory };

    fn from(_: AllocError) -> ReachError {
        ReachError::NoMemory
    }
}

impl<T: Drop> From<AllocFailed<T>> for ReachError {
    ghost from_gives = { λ _ e. e ≡ no_memory };

    fn from(_: AllocFailed<T>) -> ReachError {
        ReachError::NoMemory
    }
}
