//! The columns of a plan, one for all that lead to one another.

pub mod bare;
pub mod free;
pub mod led;
pub mod merging;
pub mod order;
pub mod ranges;
