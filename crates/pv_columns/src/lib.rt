//! Columns and their rules: what they reach, which of them are free, and the sets of tokens that
//! free ones take.
//!
//! A column has rules, each with a token or none and columns after it, by which it reaches over
//! spans of a word (`specs/ColumnRules.antt`). Where a token may be missing, whatever reaches a
//! span reaches each span within it. Which columns reach over no tokens is found by raising marks
//! until nothing changes (`specs/Marks.antt`); which single tokens a column takes, by sets of bits
//! that flow along rules until nothing changes (`specs/Takes.antt`, `EdgeFlows.antt`). A free
//! column takes its tokens in any order and number: it reaches over exactly the spans of which it
//! takes each token, so a word is tried against one set, without a table (`specs/FreeSets.antt`).
#![tactic(auto)]

mod free_sets;
mod frees;
pub mod laws;
mod layers;
mod leading;
mod marks;
mod ranges;
mod rows;
mod rules;
mod sets;
mod tokens;

pub use free_sets::FreeSets;
pub use layers::Edge;
pub use marks::{are_marked, close_marks, is_marked, is_open};
pub use rules::ColumnRule;
pub use tokens::has;
