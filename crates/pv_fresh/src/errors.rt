//! Why a document has no verdicts, or one of them is Impossible.

ghost use Rattle.std.specs.Prelude.{◌≡◌};
ghost use Rattle.pv_fresh.specs.declared.errors.FreshError.TheVariants.{NoMemory as no_memory};
ghost use Rattle.pv_fresh.specs.declared.errors.PossibleError.TheVariants as refused;

use pv_tree::Path;
use std::alloc::{AllocError, AllocFailed};
use thiserror::Error;

/// Why a document has no verdicts.
#[derive(Debug, Drop, Error)]
pub enum FreshError {
    /// The list at this path is the first that is too wide: one more than its tokens, times the
    /// parts and names of the DTD, is more than 67,108,864.
    #[error("a list is too wide")]
    TooWide(Path),
    /// There was too little memory to go on.
    #[error("out of memory")]
    NoMemory,
}

impl From<pv_chars::NoMemory> for FreshError {
    ghost from_gives = { λ _ e. e ≡ no_memory };

    fn from(_: pv_chars::NoMemory) -> FreshError {
        FreshError::NoMemory
    }
}

impl From<AllocError> for FreshError {
    ghost from_gives = { λ _ e. e ≡ no_memory };

    fn from(_: AllocError) -> FreshError {
        FreshError::NoMemory
    }
}

impl<T: Drop> From<AllocFailed<T>> for FreshError {
    ghost from_gives = { λ _ e. e ≡ no_memory };

    fn from(_: AllocFailed<T>) -> FreshError {
        FreshError::NoMemory
    }
}

/// Why a document has no verdicts of which none is Impossible.
#[derive(Debug, Drop, Error)]
pub enum PossibleError {
    /// The list at this path is the first that is too wide.
    #[error("a list is too wide")]
    TooWide(Path),
    /// No insertions can make the document valid; the list at this path is the first Impossible
    /// one.
    #[error("an impossible list")]
    Impossible(Path),
    /// There was too little memory to go on.
    #[error("out of memory")]
    NoMemory,
}

impl From<pv_chars::NoMemory> for PossibleError {
    ghost from_gives = { λ _ e. e ≡ refused.NoMemory };

    fn from(_: pv_chars::NoMemory) -> PossibleError {
        PossibleError::NoMemory
    }
}
