//! What tests share: DTDs under plain names, DTDs and documents read for a test, and what a row of
//! a table is to be. What runs the program is a module of `test_rows`, so that tests of lower
//! crates don't stand on the program.
#![tactic(auto)]

pub mod documents;
pub mod dtds;
pub mod rows;
