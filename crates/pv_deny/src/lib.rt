//! What denies a document: the first impossible list, its cause, and for its word the furthest
//! places of all sites as rows.
//!
//! `deny` finds a denial, or tells why there is none: each document has one such outcome
//! (`specs/DocumentDenials.antt`). `denial_by` makes the denial where the first impossible list is
//! known already, by a plan. Rows of furthest places are a barrier, so that a denial that is found
//! passes each test of its judge (`laws`), which stands on none of this.
#![tactic(auto)]

mod denying;
mod errors;
mod fixed;
pub mod laws;
mod rows;
mod sites;
mod words;

pub use denying::denial_by;
pub use errors::DenyError;
pub use fixed::deny;
