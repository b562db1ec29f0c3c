//! Why a pack isn't verified.

ghost use Rattle.std.specs.Prelude.{◌≡◌};
ghost use Rattle.pv_verify.specs.Answers.{RefusesUnread};
ghost use Rattle.pv_verify.specs.declared.errors.VerifyError.TheVariants.{NoMemory as no_memory};

use pv_read::DocError;
use pv_tree::Path;
use thiserror::Error;

/// Why a pack is neither accepted nor rejected.
#[derive(Debug, Drop, Error)]
pub enum VerifyError {
    /// The bytes aren't the text of a document; the error isn't want of memory.
    #[error("{0}")]
    Document(DocError),
    /// This is the first path of a table that is that of a list past the width for weights.
    #[error("a list is too wide")]
    TooWide(Path),
    /// There was too little memory to go on, and nothing is known of the pack.
    #[error("out of memory")]
    NoMemory,
}

impl From<pv_chars::NoMemory> for VerifyError {
    ghost from_gives = { λ _ e. e ≡ no_memory };

    fn from(_: pv_chars::NoMemory) -> VerifyError {
        VerifyError::NoMemory
    }
}

impl From<DocError> for VerifyError {
    ghost from_gives = { RefusesUnread };

    fn from(error: DocError) -> VerifyError {
        match error {
            DocError::NoMemory => VerifyError::NoMemory,
            _ => VerifyError::Document(error),
        }
    }
}
