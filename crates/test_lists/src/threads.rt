//! The check of a document by several threads, against that by one.

mod documents;
mod random;
