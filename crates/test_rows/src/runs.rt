//! Runs of the program over objects in memory, for the crates of rows.
//!
//! A row is what a run is given and what it has to answer. `check_rows` runs a command on each row
//! of a table, and `check_run` a run that is given whole; where the answer is another, they end
//! with a `Fail` that names the row.

pub mod rows;
pub mod runs;
