//! Why a line is no command.

ghost use Rattle.std.specs.Prelude.{◌≡◌};
ghost use Rattle.pv_script.specs.declared.errors.CommandError.TheVariants.{NoMemory as no_memory};

use pv_chars::NoMemory;
use std::alloc::{AllocError, AllocFailed};
use thiserror::Error;

/// Why no command was read.
#[derive(Clone, Copy, Debug, PartialEq, Eq, Error)]
pub enum CommandError {
    /// The line is none of the commands.
    #[error("the line is no command")]
    Unknown,
    /// There was too little memory; nothing is known of the line.
    #[error("out of memory")]
    NoMemory,
}

impl From<NoMemory> for CommandError {
    ghost from_gives = { λ _ e. e ≡ no_memory };

    fn from(_: NoMemory) -> CommandError {
        CommandError::NoMemory
    }
}

impl From<AllocError> for CommandError {
    ghost from_gives = { λ _ e. e ≡ no_memory };

    fn from(_: AllocError) -> CommandError {
        CommandError::NoMemory
    }
}

impl<T: Drop> From<AllocFailed<T>> for CommandError {
    ghost from_gives = { λ _ e. e ≡ no_memory };

    fn from(_: AllocFailed<T>) -> CommandError {
        CommandError::NoMemory
    }
}
