//! Why nothing is told of the elements that are missing in a document.

ghost use Rattle.std.specs.Prelude.{◌≡◌};
ghost use Rattle.pv_long.specs.BoundAnswers.{SaysNothing};
ghost use Rattle.pv_long.specs.declared.errors.MakeError.TheVariants.{NoMemory as no_memory};

use pv_tree::Path;
use std::alloc::{AllocError, AllocFailed};
use thiserror::Error;

/// Why nothing is told of the elements that are missing in a document. The first two come before
/// all others.
#[derive(Debug, Drop, Error)]
pub enum LongError {
    /// No insertion of elements makes the document valid; the list at this path is the first
    /// Impossible one.
    #[error("the document can't be made valid")]
    Impossible(Path),
    /// The list at this path is the first that is too wide for a verdict.
    #[error("a list is too wide")]
    TooWide(Path),
    /// The fronts of a list would take more than 33,554,432 reaches in all, or the completed
    /// document more than a gibibyte. The document can be made valid.
    #[error("the document passes a limit")]
    TooMany,
    /// The lists lack more than 1,000,000 elements, one of them alone so many. The document can be
    /// made valid.
    #[error("more than 1,000,000 elements are missing")]
    TooHeavy,
    /// What was made isn't the text of a completion, though there is one. No document is known of
    /// which this is told.
    #[error("what was made doesn't pass its check")]
    Unproved,
    /// There was too little memory to go on.
    #[error("out of memory")]
    NoMemory,
}

/// Why nothing is made, or why it isn't told.
#[derive(Debug, Drop)]
pub enum MakeError {
    /// A limit of this crate would be passed.
    TooMany,
    /// What is made leads to no completion.
    Unproved,
    /// There was too little memory to go on.
    NoMemory,
}

impl From<MakeError> for LongError {
    ghost from_gives = { λ _ e. SaysNothing e };

    fn from(error: MakeError) -> LongError {
        match error {
            MakeError::TooMany => LongError::TooMany,
            MakeError::Unproved => LongError::Unproved,
            MakeError::NoMemory => LongError::NoMemory,
        }
    }
}

impl From<pv_chars::NoMemory> for MakeError {
    ghost from_gives = { λ _ e. e ≡ no_memory };

    fn from(_: pv_chars::NoMemory) -> MakeError {
        MakeError::NoMemory
    }
}

impl From<AllocError> for MakeError {
    ghost from_gives = { λ _ e. e ≡ no_memory };

    fn from(_: AllocError) -> MakeError {
        MakeError::NoMemory
    }
}

impl<T: Drop> From<AllocFailed<T>> for MakeError {
    ghost from_gives = { λ _ e. e ≡ no_memory };

    fn from(_: AllocFailed<T>) -> MakeError {
        MakeError::NoMemory
    }
}
