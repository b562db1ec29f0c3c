//! A document written with the missing elements.

pub mod by_verdict;
pub mod completion;
