//! The verdicts of a document, found while its text is read, without a tree.
//!
//! `check_text` answers what `check_doc` of `pv_fresh` answers of the document that `read_doc` of
//! `pv_read` reads from the bytes, and refuses what `read_doc` refuses, with its numbers. The lists
//! are those that `pv_lists` reads; each is judged where its element ends, by its word alone, and
//! beside is kept what was found of the lists that are whole (`HasFound`, specs/Findings.antt).
//! Where long lists would take tables, so that several threads are worth it, the call says so in
//! place of an answer. The rules of the grammar may be laid out at the first list that isn't seen
//! to be Valid (`Planning`), so that a valid document takes no plan. `check_any_text` answers the
//! same of documents with lists of any width.
#![tactic(auto)]

mod checking;
mod errors;
mod findings;
mod judging;
mod kept;
mod known;
mod planning;
mod widths;
mod words;

pub use checking::{Told, check_any_text, check_text};
pub use errors::TextError;
pub use planning::Planning;
