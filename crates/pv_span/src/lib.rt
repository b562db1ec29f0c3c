//! Weights of the missing grammar over the spans of a word.
//!
//! `weights` tells of each site and each span of a word how many elements are missing there at
//! least (`IsWeight` of pv_rules, cut at 1,000,001), and `member` whether a word may stand for the
//! content of an element, or in the document node (`IsPossible` and `IsPossibleRoot` of
//! pv_missing). Sites that stand for the same words share a column (pv_layout); which ones is laid
//! out once for a grammar (`lay_out`) by whoever weighs many words (`weights_by`). All calls fill a
//! chart (`specs/Charts.antt`): a value for each column over each span, lowered by the rules of
//! columns until none lowers a value, span after span, those within a span before it. Whoever wants
//! to check a number is handed the weights in tables, which are those of pv_tables.
#![tactic(auto)]

mod charts;
mod cuts;
mod done;
mod ends;
mod errors;
mod fill;
mod fixed;
mod least;
mod lines;
mod lowering;
mod membership;
mod owners;
mod pairs;
mod radix_heap;
mod repeats;
mod spans;
mod spreading;
mod values;
mod verdict;
mod waiting;
mod weighing;

pub use errors::SpanError;
pub use fixed::{list_verdict, member, weights};
pub use owners::{ListOwner, is_known_owner};
pub use pv_layout::{ColumnLayout, Columns, lay_out};
pub use pv_tables::{Entries, Entry, Table, Tables};
pub use weighing::{Spans, weights_by};
