//! Whether a document is valid, in one pass over its bytes and without a tree (XML 1.0, section 3,
//! Element Valid).
//!
//! `first_invalid_in` answers as `first_invalid` of `pv_tree` does of the document that `read_doc`
//! of `pv_read` reads from the bytes, and refuses what `read_doc` refuses, with its numbers;
//! `first_invalid_within` does so within other limits. The lists are those that `pv_lists` reads;
//! each is judged where its element ends (`validity_by`, specs/Validity.antt).
#![tactic(auto)]

mod fitting;
mod judging;
mod reading;

pub use reading::{first_invalid_in, first_invalid_within};
