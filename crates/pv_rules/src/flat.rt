//! Parts and content models without what is within them.

use pv_model::NameId;

/// What a part is, without what is within it.
#[derive(Clone, Copy, Debug, PartialEq, Eq)]
pub enum Kind {
    Name(NameId),
    Seq,
    Choice,
    Opt,
    Star,
    Plus,
}

/// Whether a part is a member of a sequence, and if so whether another member follows; that one has
/// the number `end`.
#[derive(Clone, Copy, Debug, PartialEq, Eq)]
pub enum Membership {
    Outside,
    Followed,
    Last,
}

/// A part of a content model. What is within it has the numbers from the one after its own up to
/// `end`, which is left out.
#[derive(Clone, Copy, Debug, PartialEq, Eq)]
pub struct FlatPart {
    pub kind: Kind,
    pub end: u32,
    pub membership: Membership,
}

/// What the content model of a name is, without its parts.
#[derive(Clone, Copy, Debug, PartialEq, Eq)]
pub enum ContentKind {
    Empty,
    Any,
    Mixed,
    Children,
}

/// The content model of a name. Its parts have the numbers from `first` up to `end`, which is left
/// out.
#[derive(Clone, Copy, Debug, PartialEq, Eq)]
pub struct FlatContent {
    pub kind: ContentKind,
    pub first: u32,
    pub end: u32,
}
