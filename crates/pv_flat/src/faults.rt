//! Faults that are kept, to be told again.

ghost use Rattle.std.specs.Prelude.{◌≡◌};
ghost use Rattle.pv_flat.specs.ComingEvents.{error_of};

use pv_read::DocError;

/// Why a text is refused.
#[derive(Clone, Copy)]
pub enum Fault {
    Syntax(u64),
    Mismatch(u64),
    Entity(u64),
    Subset,
    DoctypeName,
    Deep(u64),
    Limit,
    NoMemory,
}

impl Fault {
    /// The fault that an error tells.
    pub fn of(error: &DocError) -> Fault
        ensures { error_of result ≡ error.now }
    {
        match error {
            DocError::Syntax(number) => Fault::Syntax(*number),
            DocError::Mismatch(number) => Fault::Mismatch(*number),
            DocError::Entity(number) => Fault::Entity(*number),
            DocError::Subset => Fault::Subset,
            DocError::DoctypeName => Fault::DoctypeName,
            DocError::Deep(number) => Fault::Deep(*number),
            DocError::Limit => Fault::Limit,
            DocError::NoMemory => Fault::NoMemory,
        }
    }

    /// The error that tells it.
    pub fn error(self) -> DocError
        ensures { result ≡ error_of self }
    {
        match self {
            Fault::Syntax(number) => DocError::Syntax(number),
            Fault::Mismatch(number) => DocError::Mismatch(number),
            Fault::Entity(number) => DocError::Entity(number),
            Fault::Subset => DocError::Subset,
            Fault::DoctypeName => DocError::DoctypeName,
            Fault::Deep(number) => DocError::Deep(number),
            Fault::Limit => DocError::Limit,
            Fault::NoMemory => DocError::NoMemory,
        }
    }
}
