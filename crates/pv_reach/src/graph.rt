//! Columns that lead to others at one place.

pub mod chains;
pub mod components;
pub mod edges;
pub mod flags;
pub mod leaving;
pub mod sweep;
