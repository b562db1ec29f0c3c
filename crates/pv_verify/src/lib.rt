//! Whether a pack shows a least completion, whoever made it.
//!
//! A pack has six tests (`specs/Tests.antt`): its body is the text of a document, its marks are
//! numbers of elements of the body, the body without their tags is the document, the body is valid,
//! the tables are closed, and its numbers agree. What passes them all is a least completion
//! (`specs/Laws.antt`): that rests on definitions and laws alone, and nothing is assumed of whoever
//! made the pack. The crate stands on nothing that makes completions or tables.
//!
//! `verify` makes the tests in their order: bodies are read and compared with the document by
//! pv_compare, tables are tested and added up by pv_table_check.
#![tactic(auto)]

mod answers;
mod errors;
mod fixed;
pub mod laws;
mod totals;
mod verifying;

pub use answers::{Answer, Why};
pub use errors::VerifyError;
pub use fixed::verify;
pub use totals::totals_agree;
pub use verifying::verify_read;
