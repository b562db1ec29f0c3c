//! How the program ends.

ghost use Rattle.std.specs.Prelude.{◌≡◌};
ghost use Rattle.pvlong.specs.Exits.{exit_code, exit_of};

use pv_opening::Status;

/// How the program ended.
#[derive(Clone, Copy, Debug, PartialEq, Eq)]
pub enum Exit {
    /// As `pvtag` ends.
    By(Status),
    /// A document was told, and fewer insertions might make the given one valid.
    NotLeast,
}

impl Exit {
    /// How the program ends after its response, which was written with this status; `not_least` is
    /// whether it is a document that may not be least.
    pub fn of(not_least: bool, status: Status) -> Exit
        ensures { result ≡ exit_of not_least status }
    {
        match status {
            Status::Done if not_least => Exit::NotLeast,
            _ => Exit::By(status),
        }
    }

    /// The exit status of the process. It is never 10, which says that the words couldn't be
    /// fetched.
    pub fn code(self) -> u8
        ensures { result ≡ exit_code self }
    {
        match self {
            Exit::By(status) => status.code(),
            Exit::NotLeast => 11,
        }
    }
}
