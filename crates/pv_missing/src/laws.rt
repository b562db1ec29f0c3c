//! The laws of potential validity: each is the contract of a function that does nothing.

pub mod documents;
pub mod lists;
pub mod proper;
pub mod verdicts;
pub mod words;
