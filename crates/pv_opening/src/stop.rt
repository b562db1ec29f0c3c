//! Why a command ends early.

ghost use Rattle.std.specs.Prelude.{◌≡◌};
ghost use Rattle.pv_opening.specs.declared.stop.Stop.TheVariants.{NoMemory};

use crate::response::Response;
use std::alloc::{AllocError, AllocFailed};

/// Why a command ends early.
#[derive(Drop)]
pub enum Stop {
    /// It refuses with this response.
    Refused(Response),
    /// A file couldn't be read.
    ShelfFault,
    /// There was no memory.
    NoMemory,
}

impl From<pv_chars::NoMemory> for Stop {
    ghost from_gives = { λ _ e. e ≡ NoMemory };

    fn from(_: pv_chars::NoMemory) -> Stop {
        Stop::NoMemory
    }
}

impl From<AllocError> for Stop {
    ghost from_gives = { λ _ e. e ≡ NoMemory };

    fn from(_: AllocError) -> Stop {
        Stop::NoMemory
    }
}

impl<T: Drop> From<AllocFailed<T>> for Stop {
    ghost from_gives = { λ _ e. e ≡ NoMemory };

    fn from(_: AllocFailed<T>) -> Stop {
        Stop::NoMemory
    }
}
