//! Sites whose tokens may stand in any order and number, since elements may be missing.
//!
//! A site that derives anything derives the empty span too (`specs/Live.antt`), so which tokens it
//! takes is a matter of what it leads to (`specs/Takes.antt`). A free site (`specs/Free.antt`)
//! derives exactly the spans of which it takes each token, so how far it comes from a place is
//! found by asking of each token whether it is taken (`specs/Runs.antt`), without a table.
#![tactic(auto)]

pub mod laws;
