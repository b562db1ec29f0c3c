//! Whether tables of weights are closed ones of lists of a document, whoever made them.
//!
//! A table lists weights of sites of the missing grammar over spans of a list's word; what isn't
//! listed has the value 1,000,001. It is closed where no rule leads to less than its values
//! (`specs/ClosedTables.antt`, `specs/ClosedEntries.antt`): then none of its values is above a
//! weight, and its value for the whole list is a bound. `tables_closed` tests that over the listed
//! entries alone: a rule whose right sides aren't all listed holds, and its left side is looked up,
//! listed or not. What the rules of a site come to is in `specs/ClosedForms.antt`, form by form; a
//! rule over many names is tested by the least value of any over a span (`specs/Members.antt`), and
//! values that are looked up often are laid out by place (`specs/Rows.antt`).
//! `first_wide_table` finds a list that is too wide for weights before any table is tested, and
//! `tables_add_up` adds up the values for whole lists.
#![tactic(auto)]

mod closing;
mod contents;
mod fitting;
mod forms;
pub mod laws;
mod least;
mod lists;
mod lookup;
mod particles;
mod paths;
mod rows;
mod sums;
mod tables;
mod tested;
mod texts;
mod totals;
mod wide;

pub use tables::tables_closed;
pub use totals::tables_add_up;
pub use wide::first_wide_table;
