//! How many elements are missing in a document, by the weights of its lists.

pub mod known;
pub mod lists;
pub mod load;
pub mod needing;
pub mod remembering;
pub mod slots;
pub mod weighing;
pub mod widths;
