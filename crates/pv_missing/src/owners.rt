//! Whose content a list is to be.

use pv_model::NameId;

/// The owner of a list, where the DTD has its name.
#[derive(Clone, Copy, Debug, PartialEq, Eq)]
pub enum Of {
    /// The document node, whose root is to have this name.
    Root(NameId),
    /// An element of this name.
    Elem(NameId),
}
