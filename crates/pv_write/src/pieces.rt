//! The pieces of what a list is to become.

use pv_model::NameId;

/// A piece of what a list is to become.
#[derive(Clone, Copy, Debug, PartialEq, Eq)]
pub enum Piece {
    /// The node of the next token, with what stands before it that is no token.
    Kept,
    /// The start tag of a new element.
    Start(NameId),
    /// Its end tag.
    End(NameId),
}
