//! Tests of ranges beside a text: rows of ranges that nest, of causes why none are given, and of
//! lines.

mod documents;
mod lines;
mod nesting;
mod refusals;
