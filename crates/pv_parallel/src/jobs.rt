//! Pieces of work: lists of a document that stand together in document order.

use pv_tree::{Node, OwnerName};

/// Lists that stand together in document order.
#[derive(Clone, Copy)]
pub enum Run<'a> {
    /// The list of these kids alone.
    List(OwnerName<'a>, &'a [Node]),
    /// All lists in these subtrees, which stand side by side.
    Subtrees(&'a [Node]),
}

/// Lists to be judged one after the other, by one thread.
#[derive(Clone, Copy)]
pub struct Job<'a> {
    /// The number of the first of them in document order, from 0.
    pub first: u64,
    pub run: Run<'a>,
}
