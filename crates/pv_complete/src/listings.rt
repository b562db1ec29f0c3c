//! The tables of a document, entry by entry.

pub mod entries;
pub mod kinds;
pub mod made;
pub mod making;
pub mod tabling;
