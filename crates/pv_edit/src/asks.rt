//! What may be asked of a document before an edit of it is made.

use pv_tree::Path;

/// An edit but for its name, of which it is asked what names it may have. Places are numbers of
/// kids, counted from 0.
///
/// The lines `offer 0 0 1` and `offer 0.1` of a script ask them.
///
/// ```rust
/// let ask = Ask::Wrap { path: Path::new(alloc, &[0])?, from: 0, to: 1 };
/// assert!(rt; matches!(&ask, Ask::Wrap { from: 0, to: 1, .. }));
/// ```
#[derive(Debug, Drop)]
pub enum Ask {
    /// Which names a new element may have that holds the kids from `from` up to but not including
    /// `to` of the element or document at `path`.
    Wrap { path: Path, from: u32, to: u32 },
    /// Which names the element at `path` may have instead of its own.
    Rename { path: Path },
}
