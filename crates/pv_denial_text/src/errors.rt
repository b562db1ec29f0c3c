//! Why no denial is read.

ghost use Rattle.std.specs.Prelude.{◌≡◌};
ghost use Rattle.pv_denial_text.specs.declared.errors.TableError.TheVariants as error;

use pv_chars::NoMemory;
use std::alloc::{AllocError, AllocFailed};
use thiserror::Error;

/// Why there is no denial.
#[derive(Clone, Copy, Debug, PartialEq, Eq, Error)]
pub enum TableError {
    /// Behind so many whole lines stands none that may stand there.
    #[error("line {0} is no part of a denial here")]
    Syntax(u64),
    /// There are more than 134,217,728 bytes, or the next line is a row with which there would be
    /// more than 8,388,608 values.
    #[error("the denial is too large")]
    Limit,
    /// There was too little memory to go on, and nothing is known of the bytes.
    #[error("out of memory")]
    NoMemory,
}

impl From<NoMemory> for TableError {
    ghost from_gives = { λ _ e. e ≡ error.NoMemory };

    fn from(_: NoMemory) -> TableError {
        TableError::NoMemory
    }
}

impl From<AllocError> for TableError {
    ghost from_gives = { λ _ e. e ≡ error.NoMemory };

    fn from(_: AllocError) -> TableError {
        TableError::NoMemory
    }
}

impl<T: Drop> From<AllocFailed<T>> for TableError {
    ghost from_gives = { λ _ e. e ≡ error.NoMemory };

    fn from(_: AllocFailed<T>) -> TableError {
        TableError::NoMemory
    }
}
