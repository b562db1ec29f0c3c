//! Worked rows of edits: what they make of a document, that they are taken back, and the first
//! reason where one can't be made.

mod chains;
mod depths;
mod edits;
mod reasons;
