//! Internal parameter entities of a DTD, put in place.
//!
//! `expand` reads a file in the modes Between, Inside and Value. What a file is expanded to, or its
//! first fault, is a relation (`specs/Meaning.antt`) over the items of each mode, as they are
//! spelled (`specs/Spelling.antt`). `laws` says that each file has exactly one expansion, and that
//! a file with nothing to expand comes back as it is.
#![tactic(auto)]

mod entities;
mod errors;
mod expansion;
mod fronts;
mod items;
pub mod laws;
mod names;
mod open_texts;
mod plain_bytes;
mod reading;
mod state;
mod text_mode;

pub use errors::ParamError;
pub use expansion::expand;
