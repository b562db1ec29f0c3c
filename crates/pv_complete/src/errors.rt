//! Why nothing is told of a document's missing elements.

ghost use Rattle.std.specs.Prelude.{◌≡◌};
ghost use Rattle.pv_complete.specs.declared.errors.NeedError.TheVariants.{NoMemory as no_memory};

use pv_tree::Path;
use std::alloc::{AllocError, AllocFailed};
use thiserror::Error;

/// Why nothing is told of a document's missing elements. Of several causes the first one in this
/// order is told, a list that is too wide for a verdict before all others.
#[derive(Debug, Drop, Error)]
pub enum NeedError {
    /// No insertion of elements makes the document valid; the list at this path is the first
    /// Impossible one.
    #[error("the document can't be made valid")]
    Impossible(Path),
    /// The list at this path is the first that is too wide for a verdict, or else the first
    /// Possible one that is too wide for weights.
    #[error("a list is too wide")]
    TooWide(Path),
    /// More than 1,000,000 elements are missing.
    #[error("too many elements are missing")]
    TooHeavy,
    /// A table of weights would have more than 8,388,608 entries in all.
    #[error("the tables have too many entries")]
    TooMany,
    /// There was too little memory to go on.
    #[error("out of memory")]
    NoMemory,
}

impl From<pv_chars::NoMemory> for NeedError {
    ghost from_gives = { λ _ e. e ≡ no_memory };

    fn from(_: pv_chars::NoMemory) -> NeedError {
        NeedError::NoMemory
    }
}

impl From<AllocError> for NeedError {
    ghost from_gives = { λ _ e. e ≡ no_memory };

    fn from(_: AllocError) -> NeedError {
        NeedError::NoMemory
    }
}

impl<T: Drop> From<AllocFailed<T>> for NeedError {
    ghost from_gives = { λ _ e. e ≡ no_memory };

    fn from(_: AllocFailed<T>) -> NeedError {
        NeedError::NoMemory
    }
}
