//! What the tests share: the texts of a row, and grammars.

use pv_productive::{Grammar, build};
use std::alloc::Global;
use std::test::Fail;
use test_fixture::documents::dtd_of;

/// A DTD, a root and a document.
pub type Texts = (&'static str, &'static str, &'static str);

/// The grammar of a DTD. It is in a box, so that each caller drops it by one call.
pub fn grammar_of(alloc: Global, dtd: &str) -> Result<Box<Grammar>, Fail> {
    let grammar = build(alloc, dtd_of(alloc, dtd)?)?;
    Ok(Box::new(alloc, grammar)?)
}
