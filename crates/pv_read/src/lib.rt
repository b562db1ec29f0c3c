//! Reads documents (XML 1.0, sections 2 and 3.1).
//!
//! A document text is items, one after another (`BeginsItem`, specs/Items.antt): `forms` reads
//! one from the front. What the items so far leave is the place and the open elements with their
//! kids (`Left`, specs/Left.antt). `read_doc` reads item by item with a stack of open elements,
//! and gives the document that the text means, or its first item in fault (`DocumentMeans`,
//! specs/Meaning.antt, `Refuses`, specs/Errors.antt). The same document is the one that the text
//! spells by its tree (`IsDocumentText`, specs/Grammar.antt). Limits stand beside the grammar
//! (specs/Limits.antt): what a text means takes the most depth, or none, and the most bytes, and
//! those of a document are `document_limits`; so a reader with other limits finds the same first
//! fault. `laws` has what follows: a text means exactly one thing.
#![tactic(auto)]

mod content;
pub mod epilog;
mod errors;
pub mod faults;
pub mod forms;
pub mod laws;
mod open;
pub mod places;
pub mod prolog;
mod reading;
mod texts;

pub use errors::DocError;
pub use reading::{MAX_DEPTH, MAX_DOC_BYTES, read_doc};
