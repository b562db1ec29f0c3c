//! What stands in a column of a chart.

use pv_model::NameId;

/// What stands in a column: sites that stand for the same words share one. Other columns are told
/// by their numbers.
#[derive(Debug, Drop, PartialEq, Eq)]
pub enum Form {
    /// Nothing.
    Never,
    /// An element of the name: itself, or missing round what the column stands for.
    Element(NameId, u32),
    /// No tokens.
    Nothing,
    /// One of these columns.
    OneOf(Vec<u32>),
    /// One of a column, or nothing.
    Opt(u32),
    /// Any number of a column; with the flag, texts stand among them.
    Star(u32, bool),
    /// One of a column, or more.
    Plus(u32),
    /// One column, and another after it.
    Then(u32, u32),
}
