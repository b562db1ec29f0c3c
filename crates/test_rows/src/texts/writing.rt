//! Rows of documents that are written as they were read.

use pv_write::doc_bytes;
use std::alloc::Global;
use std::test::Fail;
use test_fixture::documents::document_of;
use test_fixture::dtds::REALISTIC;

static DOCUMENTS: [&str; 4] = [
    "<a/>",
    " <a />\n",
    "<a></a>",
    "\t<a >x]]<b/>y<c> </c\r></a>",
];

fn is_written(alloc: Global, text: &str) -> Result<bool, Fail> {
    let doc = document_of(alloc, text, "a")?;
    Ok(doc_bytes(alloc, &doc)?.as_slice() == text.as_bytes())
}

#[test]
fn writes_what_was_read(rt: HostRuntime) -> Result<(), Fail> {
    for text in &DOCUMENTS {
        assert!(rt; is_written(rt.alloc(), *text)?, "{text}");
    }
    Ok(())
}

fn is_copy_written(alloc: Global) -> Result<bool, Fail> {
    let doc = document_of(alloc, REALISTIC, "doc")?.copy(alloc)?;
    Ok(doc_bytes(alloc, &doc)?.as_slice() == REALISTIC.as_bytes())
}

#[test]
fn a_copy(rt: HostRuntime) -> Result<(), Fail> {
    assert!(rt; is_copy_written(rt.alloc())?);
    Ok(())
}
