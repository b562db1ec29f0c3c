//! Productive names: those of which some element is valid, with all that it holds.
//!
//! `build` takes a DTD and finds for each of its names the least number of elements of a good
//! element of that name, cut at 1,000,001 (`specs/Sizes.antt`, over `IsProductive` and
//! `IsLeastSize` of the DTD's crate). It is one more than the least weight of the name's content
//! over no tokens, by the rules of the missing grammar; that is a law. A table of sizes is lowered
//! by the rules until none lowers a size (`specs/Tables.antt`).
#![tactic(auto)]

mod grammar;
pub mod laws;
mod layout;
mod links;
mod lowering;
mod settle;
mod sizes;
mod spread;
mod sums;
mod waiting;

pub use grammar::Grammar;
pub use settle::build;
pub use sizes::NO_SIZE;
