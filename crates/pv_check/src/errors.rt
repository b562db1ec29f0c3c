//! Why a text has no answer.

ghost use Rattle.std.specs.Prelude.{◌≡◌};
ghost use Rattle.pv_check.specs.Answers.{read_refusal_of, refusal_of};
ghost use Rattle.pv_check.specs.declared.errors.ListError.TheVariants.{NoMemory as no_memory};

use pv_chars::NoMemory;
use pv_lists::ReadError;
use pv_read::DocError;
use std::alloc::{AllocError, AllocFailed};
use thiserror::Error;

/// Why a list that ended has no verdict.
#[derive(Debug, Drop, Error)]
pub enum ListError {
    /// Too many tokens of long lists were judged by one thread.
    #[error("long lists")]
    LongLists,
    /// There was too little memory to go on.
    #[error("out of memory")]
    NoMemory,
}

impl From<NoMemory> for ListError {
    ghost from_gives = { λ _ e. e ≡ no_memory };

    fn from(_: NoMemory) -> ListError {
        ListError::NoMemory
    }
}

impl From<AllocError> for ListError {
    ghost from_gives = { λ _ e. e ≡ no_memory };

    fn from(_: AllocError) -> ListError {
        ListError::NoMemory
    }
}

impl<T: Drop> From<AllocFailed<T>> for ListError {
    ghost from_gives = { λ _ e. e ≡ no_memory };

    fn from(_: AllocFailed<T>) -> ListError {
        ListError::NoMemory
    }
}

/// Why nothing is told of a text.
#[derive(Debug, Drop, Error)]
pub enum TextError {
    /// There is no document, or there was too little memory to go on.
    #[error("{0}")]
    Document(DocError),
    /// The lists up to here may take tables, so that more threads than one are worth it.
    #[error("long lists")]
    LongLists,
}

impl From<ListError> for TextError {
    ghost from_gives = { λ cause e. e ≡ refusal_of cause };

    fn from(cause: ListError) -> TextError {
        match cause {
            ListError::LongLists => TextError::LongLists,
            ListError::NoMemory => TextError::Document(DocError::NoMemory),
        }
    }
}

impl From<ReadError<ListError>> for TextError {
    ghost from_gives = { λ cause e. e ≡ read_refusal_of cause };

    fn from(cause: ReadError<ListError>) -> TextError {
        match cause {
            ReadError::Document(error) => TextError::Document(error),
            ReadError::Judge(cause) => TextError::from(cause),
        }
    }
}
