//! How the pieces of a list's completion are put together.

use pv_model::NameId;
use pv_rules::Site;

/// How the pieces of a site over a span are put together.
#[derive(Clone, Copy, Debug, PartialEq, Eq)]
pub enum Move {
    /// The span's token is the element.
    Kept,
    /// The element of this name is new, round its content.
    New(NameId),
    /// The text in front, and the content after it.
    Text,
    /// No pieces.
    Nothing,
    /// Those of this site.
    One(Site),
    /// Those of the first site up to this place, and those of the second from there.
    Two(Site, u32, Site),
}

/// What pieces are still wanted for: a site over a span, or the end tag of a new element.
#[derive(Clone, Copy, Debug, PartialEq, Eq)]
pub enum Work {
    Goal(Site, u32, u32),
    End(NameId),
}
