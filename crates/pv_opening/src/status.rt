//! How the program ends.

ghost use Rattle.std.specs.Prelude.{◌≡◌};
ghost use Rattle.pv_opening.specs.Status.{code_of};

/// How the program ended.
#[derive(Clone, Copy, Debug, PartialEq, Eq)]
pub enum Status {
    /// All was done.
    Done,
    /// The answer is no.
    Negative,
    /// The words are no command.
    Usage,
    /// A file or the input couldn't be read.
    ReadFault,
    /// The output couldn't be written.
    WriteFault,
    /// There was no memory.
    NoMemory,
    /// The DTD isn't one.
    BadDtd,
    /// The document isn't one.
    BadDocument,
    /// A limit was passed.
    Limit,
    /// The pack, the denial or the ranges aren't one, or the ranges can't be nested.
    BadPack,
}

impl Status {
    /// The exit status of the process. It is never 10, which says that the words couldn't be
    /// fetched.
    pub fn code(self) -> u8
        ensures { result ≡ code_of self }
    {
        match self {
            Status::Done => 0,
            Status::Negative => 1,
            Status::Usage => 2,
            Status::ReadFault => 3,
            Status::WriteFault => 4,
            Status::NoMemory => 5,
            Status::BadDtd => 6,
            Status::BadDocument => 7,
            Status::Limit => 8,
            Status::BadPack => 9,
        }
    }
}
