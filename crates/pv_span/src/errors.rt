//! Why nothing is said of the spans of a word.

ghost use Rattle.std.specs.Prelude.{◌≡◌};
ghost use Rattle.pv_span.specs.declared.errors.SpanError.TheVariants.{NoMemory as no_memory};

use thiserror::Error;

/// Why nothing is said of a word or a list.
#[derive(Debug, Drop, Error)]
pub enum SpanError {
    /// The number of its spans, empty ones at each place among them, times the parts and names of
    /// the DTD, is more than 16,777,216.
    #[error("the list is too wide for weights")]
    TooWide,
    /// There was too little memory to go on.
    #[error("out of memory")]
    NoMemory,
}

impl From<pv_chars::NoMemory> for SpanError {
    ghost from_gives = { λ _ e. e ≡ no_memory };

    fn from(_: pv_chars::NoMemory) -> SpanError {
        SpanError::NoMemory
    }
}
