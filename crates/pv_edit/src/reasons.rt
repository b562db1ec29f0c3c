//! Why an edit is refused.

ghost use Rattle.std.specs.Prelude.{◌≡◌};
ghost use Rattle.pv_edit.specs.declared.reasons.EditError.TheVariants.{NoMemory as no_memory};

use pv_chars::NoMemory;
use std::alloc::{AllocError, AllocFailed};
use thiserror::Error;

/// Why an edit can't be made on a document.
///
/// The examples are lines of scripts on `<doc><head/><sec><p><em>]]</em>></p></sec></doc>` but
/// where another document is named; `reasons_at_elements` and `reasons_at_texts` of test_layers
/// have them.
///
/// ```rust
/// let doc = read_doc(alloc, b"<doc>Hello</doc>", b"doc")?;
/// let edit = Edit::Unwrap { path: Path::new(alloc, &[9])? };
/// let found = shape(alloc, &doc, &edit);
/// assert!(rt; matches!(found, Err(EditError::Shape(Reason::NoNode))));
/// ```
#[derive(Clone, Copy, Debug, PartialEq, Eq)]
pub enum Reason {
    /// Nothing stands at the path.
    /// Example: `unwrap 9`.
    NoNode,
    /// No element stands there.
    /// Example: `unwrap 0.1.0.0.0`.
    NotElement,
    /// No text stands there, or none after it.
    /// Example: `split 0.1 0`.
    NotText,
    /// A number is past the last kid or unit, or two are in the wrong order.
    /// Example: `wrap 0 2 1 p`.
    Range,
    /// The new name is no Name (XML 1.0, section 2.3).
    /// Example: `rename 0.1 1x`.
    BadName,
    /// The new text is empty, no character data, or holds a literal CR or LF.
    /// Example: `text 0.1 a<b`, where a text stands at `0.1`.
    BadText,
    /// The document would not have one element as its root.
    /// Example: `unwrap 0`.
    RootShape,
    /// More than 512 elements would stand one inside another.
    /// Example: `insert P 0 em`, where P is the path of the innermost of 512 elements.
    Deep,
    /// Texts that stand side by side would spell `]]>` (XML 1.0, section 2.4).
    /// Example: `unwrap 0.1.0.0`.
    CloseMark,
}

/// Why an edit isn't made. The document is as it was.
///
/// A session prints the first as `no shape range`.
///
/// ```rust
/// let doc = read_doc(alloc, b"<doc>Hello</doc>", b"doc")?;
/// let path = Path::new(alloc, &[0])?;
/// let edit = Edit::Wrap { path, from: 2, to: 1, name: bytes_of(alloc, b"p")? };
/// let found = shape(alloc, &doc, &edit);
/// assert!(rt; matches!(found, Err(EditError::Shape(Reason::Range))));
/// ```
#[derive(Debug, Drop, Error)]
pub enum EditError {
    /// It can't be made; this is the first reason.
    #[error("the edit can't be made on this document")]
    Shape(Reason),
    /// There was too little memory.
    #[error("out of memory")]
    NoMemory,
}

impl From<NoMemory> for EditError {
    ghost from_gives = { λ _ e. e ≡ no_memory };

    fn from(_: NoMemory) -> EditError {
        EditError::NoMemory
    }
}

impl From<AllocError> for EditError {
    ghost from_gives = { λ _ e. e ≡ no_memory };

    fn from(_: AllocError) -> EditError {
        EditError::NoMemory
    }
}

impl<T: Drop> From<AllocFailed<T>> for EditError {
    ghost from_gives = { λ _ e. e ≡ no_memory };

    fn from(_: AllocFailed<T>) -> EditError {
        EditError::NoMemory
    }
}
