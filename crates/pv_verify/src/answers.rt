//! What a pack is answered.

/// The first test that a pack fails.
#[derive(Clone, Copy, Debug, PartialEq, Eq)]
pub enum Why {
    /// The body isn't the text of a document.
    Body,
    /// The marks aren't ascending numbers of elements of the body that have no attributes.
    Marks,
    /// The body without the tags of the marked elements isn't the document.
    Kept,
    /// The body isn't valid.
    Validity,
    /// Some table isn't a closed one of a list of the document, or they aren't in order.
    Closure,
    /// The total, the number of marks and the sum of the tables aren't all the same.
    Totals,
}

/// Whether a pack is accepted.
#[derive(Clone, Copy, Debug, PartialEq, Eq)]
pub enum Answer {
    /// The body is a least completion, by so many elements.
    Accepted(u64),
    /// The pack fails a test.
    Rejected(Why),
}
