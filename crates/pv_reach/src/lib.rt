//! Possible words, and the verdicts of lists, by furthest reach.
//!
//! `possible` tells whether a word may stand for the content of an element, or in the document node
//! (`IsPossible` and `IsPossibleRoot` of pv_missing). It fills a table (`specs/Tables.antt`): for
//! each place of the word and each column, the furthest place that the column reaches from there. A
//! column is the content of a name or a part of a content model, and has the rules of the missing
//! grammar, which lead from one place to another by a token and by columns (`specs/Columns.antt`,
//! and `ColumnRules.antt` of pv_columns). Since the ends that are reached from a place are all
//! places up to the furthest one, a number for each is enough. The rules are laid out once for a
//! grammar, in a plan (`specs/Plans.antt`), over one column for all that lead to one another
//! (`specs/LeadingColumns.antt`, `Merging.antt`). Most contents are free: they derive each word of
//! tokens that they take, so a plan has the sets of free columns, and a word is tried against one
//! set in place of a table; a `FreeContent` tells of one token whether it is taken
//! (`specs/TokensTaken.antt`). Where a content isn't free, the table has only the columns that are
//! needed before free ones are come to (`specs/Cuts.antt`). A grammar with its plan is a `Judge`,
//! by which many verdicts are found: `judge_kids` and `judge_word` count nothing, the other calls
//! take one step each.
#![tactic(auto)]

mod columns;
mod errors;
mod fixed;
mod free_content;
mod graph;
mod judge;
pub mod laws;
mod plan;
mod reaches;
mod rules;
mod tables;
mod verdict;
mod words;

pub use errors::ReachError;
pub use fixed::{furthest, list_verdict};
pub use free_content::FreeContent;
pub use judge::Judge;
pub use plan::Plan;
pub use reaches::{Reaches, furthest_by};
pub use verdict::{judge_any_word, judge_kids, judge_word, word_verdict};
pub use words::{content_derives, possible};
