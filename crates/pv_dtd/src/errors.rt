//! Why a DTD is refused.

ghost use Rattle.std.specs.Prelude.{◌≡◌};
ghost use Rattle.pv_dtd.specs.declared.errors.DtdError.TheVariants.{NoMemory as no_memory};

use pv_chars::NoMemory;
use std::alloc::{AllocError, AllocFailed};
use thiserror::Error;

/// Why there is no DTD: the first item in fault, by its kind and the number of whole items before
/// it, or want of memory.
///
/// ```rust
/// // test_layers: faults
/// let text = b"<!--x--><!ELEMENT a>";
/// assert!(rt; matches!(read_dtd(alloc, text), Err(DtdError::Syntax(1))));
/// let text = b"<!ELEMENT a (#PCDATA|b|b)*>";
/// assert!(rt; matches!(read_dtd(alloc, text), Err(DtdError::MixedTwice(0))));
/// ```
#[derive(Debug, Drop, Error)]
pub enum DtdError {
    /// No item stands there.
    #[error("item {0} is no part of a DTD here")]
    Syntax(u64),
    /// The item declares a name that an earlier item declared.
    #[error("item {0} declares a name again")]
    Twice(u64),
    /// The item lists a name twice in a mixed model.
    #[error("item {0} lists a name twice")]
    MixedTwice(u64),
    /// A reference of a parameter entity or a conditional section stands there, or a declaration
    /// with a `%` outside quotes.
    #[error("item {0} refers to a parameter entity")]
    Parameter(u64),
    /// More than 64 parentheses are open, a name is longer than 256 bytes, or there are more than
    /// 4,096 declared names or 65,536 parts; of a text of more than 4,194,304 bytes the number is
    /// 0.
    #[error("item {0} passes a limit")]
    Limit(u64),
    /// There was too little memory to go on, and nothing is known of the bytes.
    #[error("out of memory")]
    NoMemory,
}

impl From<NoMemory> for DtdError {
    ghost from_gives = { λ _ e. e ≡ no_memory };

    fn from(_: NoMemory) -> DtdError {
        DtdError::NoMemory
    }
}

impl From<AllocError> for DtdError {
    ghost from_gives = { λ _ e. e ≡ no_memory };

    fn from(_: AllocError) -> DtdError {
        DtdError::NoMemory
    }
}

impl<T: Drop> From<AllocFailed<T>> for DtdError {
    ghost from_gives = { λ _ e. e ≡ no_memory };

    fn from(_: AllocFailed<T>) -> DtdError {
        DtdError::NoMemory
    }
}
