//! Why a denial isn't judged.

ghost use Rattle.std.specs.Prelude.{◌≡◌};
ghost use Rattle.pv_denial.specs.declared.errors.JudgeError.TheVariants.{NoMemory as no_memory};

use pv_chars::NoMemory;
use std::alloc::{AllocError, AllocFailed};
use thiserror::Error;

/// Why a denial isn't judged.
#[derive(Clone, Copy, Debug, PartialEq, Eq, Error)]
pub enum JudgeError {
    /// The list is too wide: one more than its tokens, times the parts and names of the DTD, is
    /// more than 67,108,864.
    #[error("the list is too wide")]
    TooWide,
    /// There was too little memory to go on.
    #[error("out of memory")]
    NoMemory,
}

impl From<NoMemory> for JudgeError {
    ghost from_gives = { λ _ e. e ≡ no_memory };

    fn from(_: NoMemory) -> JudgeError {
        JudgeError::NoMemory
    }
}

impl From<AllocError> for JudgeError {
    ghost from_gives = { λ _ e. e ≡ no_memory };

    fn from(_: AllocError) -> JudgeError {
        JudgeError::NoMemory
    }
}

impl<T: Drop> From<AllocFailed<T>> for JudgeError {
    ghost from_gives = { λ _ e. e ≡ no_memory };

    fn from(_: AllocFailed<T>) -> JudgeError {
        JudgeError::NoMemory
    }
}
