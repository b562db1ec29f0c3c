//! Why a document is refused.

ghost use Rattle.std.specs.Prelude.{◌≡◌};
ghost use Rattle.pv_read.specs.declared.errors.DocError.TheVariants.{NoMemory as no_memory};

use pv_chars::NoMemory;
use std::alloc::{AllocError, AllocFailed};
use thiserror::Error;

/// Why there is no document. A number counts the whole items before the first one in fault; text
/// runs are items, and a byte order mark is none. Where several kinds of fault stand at one item,
/// the kind is `Subset`, or else the first of `Syntax`, `Entity`, `Mismatch`, `DoctypeName` and
/// `Deep`.
#[derive(Debug, Drop, Error)]
pub enum DocError {
    /// No item stands here, or one that may not stand here, or the text ends before its root does.
    #[error("item {0} is no part of a document here")]
    Syntax(u64),
    /// An end tag of another name than that of the innermost open element.
    #[error("item {0} ends an element of another name")]
    Mismatch(u64),
    /// A reference to a name that would need a declaration: another than `lt`, `gt`, `amp`, `apos`
    /// and `quot`.
    #[error("item {0} refers to a name that isn't declared")]
    Entity(u64),
    /// A document type declaration with an internal subset.
    #[error("the document type declaration has an internal subset")]
    Subset,
    /// A document type declaration of another name than the root's.
    #[error("the document type declaration has another name than the root")]
    DoctypeName,
    /// An element inside as many others as may be: inside 512, where a document is read.
    #[error("item {0} opens an element too deep")]
    Deep(u64),
    /// More bytes than there may be: than 67,108,864, where a document is read.
    #[error("the document has too many bytes")]
    Limit,
    /// There was too little memory to go on, and nothing is known of the bytes.
    #[error("out of memory")]
    NoMemory,
}

impl From<NoMemory> for DocError {
    ghost from_gives = { λ _ e. e ≡ no_memory };

    fn from(_: NoMemory) -> DocError {
        DocError::NoMemory
    }
}

impl From<AllocError> for DocError {
    ghost from_gives = { λ _ e. e ≡ no_memory };

    fn from(_: AllocError) -> DocError {
        DocError::NoMemory
    }
}

impl<T: Drop> From<AllocFailed<T>> for DocError {
    ghost from_gives = { λ _ e. e ≡ no_memory };

    fn from(_: AllocFailed<T>) -> DocError {
        DocError::NoMemory
    }
}
