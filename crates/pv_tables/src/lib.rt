//! Tables of weights, by which a stranger can see that a number of missing elements is the least.
//!
//! A document has a table for each Possible list, with all light weights of the list's live word
//! (`specs/Tables.antt`). The crate has the types in which tables are handed out, the order of
//! their entries, how many there may be, and the laws of tables: it makes no table, so that whoever
//! checks one needn't stand on what made it.
#![tactic(auto)]

pub mod laws;
mod order;
mod tables;

pub use order::{is_same_site, precedes, site_number};
pub use tables::{Entries, Entry, MAX_ENTRIES, Table, Tables};
