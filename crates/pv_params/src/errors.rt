//! Why a DTD isn't expanded.

ghost use Rattle.std.specs.Prelude.{◌≡◌};
ghost use Rattle.pv_params.specs.declared.errors.ParamError.TheVariants.{NoMemory as no_memory};

use pv_chars::NoMemory;
use std::alloc::{AllocError, AllocFailed};
use thiserror::Error;

/// The first fault in the order of reading, or want of memory.
#[derive(Debug, Drop, Error)]
pub enum ParamError {
    /// A conditional section.
    #[error("a conditional section")]
    Conditional,
    /// A declaration of an external parameter entity.
    #[error("an external parameter entity")]
    External,
    /// A reference to an entity that isn't declared by then.
    #[error("a parameter entity that isn't declared")]
    Undeclared,
    /// A reference to an entity whose text is being read.
    #[error("a parameter entity that refers to itself")]
    Recursive,
    /// More than 65,536 references, or texts put in place that have more than 16,777,216 bytes
    /// together.
    #[error("too many references, or too much text put in place")]
    Limit,
    /// An entity's text isn't of the form that its place asks for.
    #[error("a parameter entity's text is out of place")]
    Syntax,
    /// There was too little memory to go on, and nothing is known of the bytes.
    #[error("out of memory")]
    NoMemory,
}

impl From<NoMemory> for ParamError {
    ghost from_gives = { λ _ e. e ≡ no_memory };

    fn from(_: NoMemory) -> ParamError {
        ParamError::NoMemory
    }
}

impl From<AllocError> for ParamError {
    ghost from_gives = { λ _ e. e ≡ no_memory };

    fn from(_: AllocError) -> ParamError {
        ParamError::NoMemory
    }
}

impl<T: Drop> From<AllocFailed<T>> for ParamError {
    ghost from_gives = { λ _ e. e ≡ no_memory };

    fn from(_: AllocFailed<T>) -> ParamError {
        ParamError::NoMemory
    }
}
