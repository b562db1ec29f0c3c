//! Tables of furthest places.

pub mod by_cut;
pub mod cut;
pub mod ends;
pub mod found;
pub mod free_rules;
pub mod kept;
pub mod rests;
pub mod table;
