//! Why no pack is read.

ghost use Rattle.std.specs.Prelude.{◌≡◌};
ghost use Rattle.pv_cert.specs.declared.errors.PackError.TheVariants.{NoMemory as no_memory};

use pv_chars::NoMemory;
use std::alloc::{AllocError, AllocFailed};
use thiserror::Error;

/// Why there is no pack.
#[derive(Clone, Copy, Debug, PartialEq, Eq, Error)]
pub enum PackError {
    /// Behind so many whole lines stands none that may stand there; the body counts as one line
    /// with the line before it.
    #[error("line {0} is no part of a pack here")]
    Syntax(u64),
    /// There are more than 1,073,741,824 bytes, or the next line is an entry that would be number
    /// 8,388,609.
    #[error("the pack is too large")]
    Limit,
    /// There was too little memory to go on, and nothing is known of the bytes.
    #[error("out of memory")]
    NoMemory,
}

impl From<NoMemory> for PackError {
    ghost from_gives = { λ _ e. e ≡ no_memory };

    fn from(_: NoMemory) -> PackError {
        PackError::NoMemory
    }
}

impl From<AllocError> for PackError {
    ghost from_gives = { λ _ e. e ≡ no_memory };

    fn from(_: AllocError) -> PackError {
        PackError::NoMemory
    }
}

impl<T: Drop> From<AllocFailed<T>> for PackError {
    ghost from_gives = { λ _ e. e ≡ no_memory };

    fn from(_: AllocFailed<T>) -> PackError {
        PackError::NoMemory
    }
}
