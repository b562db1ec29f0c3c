//! What leads back from an edited document.

use pv_chars::{Bytes, Units};
use pv_tree::{End, Path};

/// What undoes an edit. Paths are those of the edited document. `short` tells that the element
/// whose list was changed ended by `/>` before.
///
/// That of `wrap 0 0 1 p` is `TakeOut` at `[0, 0]`, and that of `split 0.0 2` is `Merge` at
/// `[0, 0]`.
///
/// ```rust
/// let doc = read_doc(alloc, b"<doc>Hello</doc>", b"doc")?;
/// let edit = Edit::Split { path: Path::new(alloc, &[0, 0])?, at: 2 };
/// let ready = prepare(alloc, &doc, &edit)?;
/// assert!(rt; matches!(&ready.inverse, Inverse::Merge { path }
///     if path.places() == [0, 0].as_slice()));
/// ```
#[derive(Debug, Drop)]
pub enum Inverse {
    /// Puts an element's kids in its place.
    TakeOut {
        path: Path,
        short: bool,
    },
    /// Puts the kids from `from` up to but not including `to` back into an element.
    PutBack {
        path: Path,
        from: u32,
        to: u32,
        name: Bytes,
        attrs: Bytes,
        end: End,
    },
    /// Gives an element its name back.
    Name {
        path: Path,
        name: Bytes,
    },
    /// Joins a text and the text after it.
    Merge {
        path: Path,
    },
    /// Cuts a text before unit `at`.
    Divide {
        path: Path,
        at: u64,
    },
    /// Gives a text its units back.
    Text {
        path: Path,
        text: Units,
    },
    /// Takes a text away.
    Discard {
        path: Path,
        short: bool,
    },
    /// Puts a text back.
    Restore {
        path: Path,
        text: Units,
    },
}
