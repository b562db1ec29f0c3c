//! Why there are no ranges, and why no document stands for them.

ghost use Rattle.std.specs.Prelude.{◌≡◌};
ghost use Rattle.pv_standoff.specs.declared.errors.NestError.TheVariants.{NoMemory as no_memory};
ghost use Rattle.pv_standoff.specs.declared.errors.RangesError.TheVariants.{NoMemory as no_room};

use pv_chars::NoMemory;
use std::alloc::{AllocError, AllocFailed};
use thiserror::Error;

/// Why bytes are no ranges.
#[derive(Clone, Copy, Debug, PartialEq, Eq, Error)]
pub enum RangesError {
    /// Behind so many lines stands the first that is no range.
    #[error("line {0} is no range")]
    Syntax(u64),
    /// The first 1,048,576 lines are ranges, and a further line is there.
    #[error("there are too many ranges")]
    Limit,
    /// There was too little memory to go on, and nothing is known of the bytes.
    #[error("out of memory")]
    NoMemory,
}

impl From<NoMemory> for RangesError {
    ghost from_gives = { λ _ e. e ≡ no_room };

    fn from(_: NoMemory) -> RangesError {
        RangesError::NoMemory
    }
}

impl From<AllocError> for RangesError {
    ghost from_gives = { λ _ e. e ≡ no_room };

    fn from(_: AllocError) -> RangesError {
        RangesError::NoMemory
    }
}

impl<T: Drop> From<AllocFailed<T>> for RangesError {
    ghost from_gives = { λ _ e. e ≡ no_room };

    fn from(_: AllocFailed<T>) -> RangesError {
        RangesError::NoMemory
    }
}

/// Why no document is given for a text and ranges. Of several causes it is the first in this order.
#[derive(Clone, Copy, Debug, PartialEq, Eq, Error)]
pub enum NestError {
    /// The number from 0 of the first range that is empty or doesn't end within the text.
    #[error("range {0} is empty or ends outside the text")]
    Outside(u64),
    /// The first place, in sorted order, that two ranges have.
    #[error("two ranges from {from} to {to} have level {level}")]
    Twice {
        from: u32,
        to: u32,
        level: u32,
    },
    /// The first range, in sorted order, that crosses one before it, after the last that it
    /// crosses.
    #[error("the range from {from} to {to} crosses that from {next_from} to {next_to}")]
    Crossing {
        from: u32,
        to: u32,
        next_from: u32,
        next_to: u32,
    },
    /// The root or some range stands at a depth over 512.
    #[error("elements stand too deep")]
    Deep,
    /// There was too little memory to go on.
    #[error("out of memory")]
    NoMemory,
}

impl From<NoMemory> for NestError {
    ghost from_gives = { λ _ e. e ≡ no_memory };

    fn from(_: NoMemory) -> NestError {
        NestError::NoMemory
    }
}

impl From<AllocError> for NestError {
    ghost from_gives = { λ _ e. e ≡ no_memory };

    fn from(_: AllocError) -> NestError {
        NestError::NoMemory
    }
}

impl<T: Drop> From<AllocFailed<T>> for NestError {
    ghost from_gives = { λ _ e. e ≡ no_memory };

    fn from(_: AllocFailed<T>) -> NestError {
        NestError::NoMemory
    }
}
