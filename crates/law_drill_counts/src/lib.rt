//! What a drill counts, as laws: the numbers of its line are those of a formula in the number of
//! sections (`specs/Counts.antt`).
#![tactic(auto)]

pub mod laws;
