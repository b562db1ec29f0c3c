//! Why no lists are read.

ghost use Rattle.std.specs.Prelude.{◌≡◌};
ghost use Rattle.pv_lists.specs.declared.errors.ReadError.TheVariants.{Document as unread};
ghost use Rattle.pv_read.specs.declared.errors.DocError.TheVariants.{NoMemory as no_memory};

use pv_chars::NoMemory;
use pv_read::DocError;

/// Why the lists of a document weren't read to their end.
#[derive(Debug, Drop)]
pub enum ReadError<E> {
    /// There is no document, or there was too little memory to go on.
    Document(DocError),
    /// A list wasn't judged.
    Judge(E),
}

impl<E> From<DocError> for ReadError<E> {
    ghost from_gives = { λ cause e. e ≡ unread cause };

    fn from(cause: DocError) -> ReadError<E> {
        ReadError::Document(cause)
    }
}

impl<E> From<NoMemory> for ReadError<E> {
    ghost from_gives = { λ _ e. e ≡ unread no_memory };

    fn from(_: NoMemory) -> ReadError<E> {
        ReadError::Document(DocError::NoMemory)
    }
}
