//! Worked rows of possible words, weights and verdicts of lists, through `member`, `weights` and
//! `list_verdict`, and of the least number of missing elements, of completions and of the tables of
//! weights, through `need`, `complete` and `tables`; of fronts, and of `missing` by two bounds.

mod completions;
mod fronts;
mod long;
mod needs;
mod spans;
mod table_rows;
mod tabled;
