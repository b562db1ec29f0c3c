//! What pieces are still wanted for.

use pv_model::NameId;
use pv_write::Piece;

/// A column over the tokens from one number up to another: by the derivation of a number, or at so
/// many missing elements at most, as pieces are built.
#[derive(Clone, Copy, Debug)]
pub struct Span {
    pub column: u32,
    pub number: u32,
    pub from: u32,
    pub to: u32,
}

/// What pieces are still wanted for.
#[derive(Clone, Copy, Debug)]
pub enum Wanted {
    /// A column over some tokens.
    Tokens(Span),
    /// A column over no tokens.
    Empty(u32),
    /// The end tag of a new element.
    End(NameId),
}

/// What a goal is built of: a piece, and what is wanted after it, the second after the first.
#[derive(Clone, Copy, Debug)]
pub struct Parts {
    pub piece: Option<Piece>,
    pub first: Option<Wanted>,
    pub second: Option<Wanted>,
}

impl Parts {
    /// A piece alone.
    pub fn piece(piece: Piece) -> Parts {
        Parts {
            piece: Some(piece),
            first: None,
            second: None,
        }
    }

    /// What stands in a new element, with its tags.
    pub fn element(id: NameId, content: Wanted) -> Parts {
        Parts {
            piece: Some(Piece::Start(id)),
            first: Some(content),
            second: Some(Wanted::End(id)),
        }
    }

    /// What may be wanted, one after the other.
    pub fn wanted(first: Option<Wanted>, second: Option<Wanted>) -> Parts {
        Parts {
            piece: None,
            first,
            second,
        }
    }

    /// What is wanted alone.
    pub fn one(wanted: Wanted) -> Parts {
        Parts::wanted(Some(wanted), None)
    }

    /// What is wanted, one after the other.
    pub fn two(first: Wanted, second: Wanted) -> Parts {
        Parts::wanted(Some(first), Some(second))
    }
}
