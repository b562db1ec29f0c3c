//! Grammars of tests.

use pv_productive::{Grammar, build};
use std::alloc::Global;
use std::test::Fail;
use test_fixture::documents::dtd_of;

/// The grammar of a DTD. It is in a box, so that each caller drops it by one call.
pub fn grammar_of(alloc: Global, dtd: &str) -> Result<Box<Grammar>, Fail> {
    let grammar = build(alloc, dtd_of(alloc, dtd)?)?;
    Ok(Box::new(alloc, grammar)?)
}
