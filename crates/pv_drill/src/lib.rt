//! A large valid input, made from a number: a document, and the lines of a script that edits it
//! (`specs/Drill.antt`). It measures a machine.
#![tactic(auto)]

mod drill;

pub use drill::{drill_doc, drill_dtd, drill_line};
