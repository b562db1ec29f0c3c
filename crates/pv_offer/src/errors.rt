//! Why nothing is offered.

ghost use Rattle.std.specs.Prelude.{◌≡◌};
ghost use Rattle.pv_offer.specs.declared.errors.OfferError.TheVariants.{NoMemory as no_memory};

use pv_chars::NoMemory;
use pv_edit::Reason;
use std::alloc::{AllocError, AllocFailed};
use thiserror::Error;

/// Why nothing is offered.
#[derive(Debug, Drop, Error)]
pub enum OfferError {
    /// With no Name can the edit be made; this is the first reason.
    #[error("the edit can't be made on this document")]
    Shape(Reason),
    /// With each Name the document would be past a limit.
    #[error("the document would be past a limit")]
    Limit,
    /// There was too little memory.
    #[error("out of memory")]
    NoMemory,
}

impl From<NoMemory> for OfferError {
    ghost from_gives = { λ _ e. e ≡ no_memory };

    fn from(_: NoMemory) -> OfferError {
        OfferError::NoMemory
    }
}

impl From<AllocError> for OfferError {
    ghost from_gives = { λ _ e. e ≡ no_memory };

    fn from(_: AllocError) -> OfferError {
        OfferError::NoMemory
    }
}

impl<T: Drop> From<AllocFailed<T>> for OfferError {
    ghost from_gives = { λ _ e. e ≡ no_memory };

    fn from(_: AllocFailed<T>) -> OfferError {
        OfferError::NoMemory
    }
}
