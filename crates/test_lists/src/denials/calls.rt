//! What the tests share: a pair, and what the judge says.

use crate::calls::{Texts, grammar_of};
use pv_denial::{Denial, Judged, judge};
use std::alloc::Global;
use std::test::Fail;
use test_fixture::documents::document_of;

/// A pair of two elements in a row.
pub const PAIR: &str = "<!ELEMENT r (a, b)><!ELEMENT a EMPTY><!ELEMENT b EMPTY>";

/// The pair the wrong way round.
pub const TURNED: Texts = (PAIR, "r", "<r><b/><a/></r>");

/// What the judge says of a denial.
pub fn judged(alloc: Global, texts: Texts, denial: &Denial) -> Result<Judged, Fail> {
    let (dtd, root, text) = texts;
    let grammar = grammar_of(alloc, dtd)?;
    let doc = document_of(alloc, text, root)?;
    Ok(judge(alloc, &grammar, root.as_bytes(), &doc, denial)?)
}
