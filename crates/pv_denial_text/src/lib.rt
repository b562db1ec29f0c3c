//! Denials as text: why no insertions make a document valid, line by line.
//!
//! A denial text is lines, each of which may stand after the one before it (`specs/Lines.antt`,
//! `specs/Texts.antt`). `write_denial` writes the text of a denial. `read_denial` gives the denial
//! that bytes are the text of, or the first line at fault, or tells that a limit is passed: what
//! bytes mean (`DenialMeans`, `specs/Meaning.antt`), which is one thing only, as `laws` says.
#![tactic(auto)]

mod causes;
mod errors;
pub mod laws;
mod lines;
mod reading;
mod rows;
mod values;
mod writing;

pub use errors::TableError;
pub use reading::{MAX_DENIAL_BYTES, read_denial};
pub use writing::write_denial;
