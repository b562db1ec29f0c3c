//! The commands that need no session, each after the command line: it is given the names
//! of its files, or a DTD and a document's bytes that were fetched. `valid`, `check`, `complete`
//! and `why` read such a document and do what is defined for it (`specs/Valid.antt`, and so on);
//! `dtd`, `verify`, `deny` and `standoff` open their files themselves. Each returns its response,
//! which the definition of its course allows over such files; those that open files promise each
//! fault of the shelf with its cause, and how often it was asked, and those that judge lists how
//! many were counted (`specs/Returns.antt`).
#![tactic(auto)]

pub mod check;
pub mod complete;
pub mod deny;
pub mod dtd;
pub mod standoff;
pub mod valid;
pub mod verify;
pub mod why;
