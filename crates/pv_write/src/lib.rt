//! Writes documents.
//!
//! `doc_bytes` gives the text of a document (`doc_text`, specs/Text.antt). A document that was
//! read is written as the very bytes that it was read from. Any document is written as a document
//! text with the same view and depth, and the same bytes around its root, under each root's name
//! that its prolog allows (`SpellsView`, specs/Writes.antt). Both are laws too, of documents of
//! any depth and size (`IsLegalDocument`, specs/Laws.antt).
//!
//! `doc_with_tags` writes a document with tags of new elements in it, by the pieces of its lists,
//! and promises nothing of these but that it wrote them (`IsTaggedText`, specs/TaggedTexts.antt).
#![tactic(auto)]

pub mod laws;
mod new_tags;
mod pieces;
mod tagged_text;
mod writing;

pub use new_tags::doc_with_tags;
pub use pieces::Piece;
pub use tagged_text::TaggedText;
pub use writing::doc_bytes;
