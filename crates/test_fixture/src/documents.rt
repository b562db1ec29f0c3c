//! DTDs and documents, read for a test.

use pv_dtd::{Dtd, read_dtd};
use pv_read::read_doc;
use pv_tree::{Doc, Node};
use std::alloc::{AllocError, Global};
use std::test::Fail;

/// The DTD that the text is.
pub fn dtd_of(alloc: Global, text: &str) -> Result<Dtd, Fail> {
    Ok(read_dtd(alloc, text.as_bytes())?)
}

/// The document that the text is, where a document type declaration may name this root.
pub fn document_of(alloc: Global, text: &str, root: &str) -> Result<Doc, Fail> {
    Ok(read_doc(alloc, text.as_bytes(), root.as_bytes())?)
}

/// The kids of the root.
pub fn kids_of(doc: &Doc) -> Result<&[Node], Fail> {
    match &doc.root {
        Node::Elem { kids, .. } => Ok(kids),
        _ => Err(Fail::new("the root is no element")),
    }
}

/// So many times `open`, then `inner`, and as many times `close`.
pub fn nested(
    alloc: Global,
    count: usize,
    open: &str,
    inner: &str,
    close: &str,
) -> Result<String, AllocError> {
    let mut text = String::new(alloc);
    for _ in 0..count {
        text.push_str(open)?;
    }
    text.push_str(inner)?;
    for _ in 0..count {
        text.push_str(close)?;
    }
    Ok(text)
}

/// `open`, so many times `piece`, and `close`.
pub fn repeated(
    alloc: Global,
    count: usize,
    open: &str,
    piece: &str,
    close: &str,
) -> Result<String, AllocError> {
    let mut text = String::from_str(alloc, open)?;
    for _ in 0..count {
        text.push_str(piece)?;
    }
    text.push_str(close)?;
    Ok(text)
}
