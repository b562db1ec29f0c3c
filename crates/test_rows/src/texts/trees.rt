//! Rows of document trees: paths, and what stands at them.

use pv_tree::{Doc, Found, Path};
use std::alloc::Global;
use std::test::Fail;
use test_fixture::documents::document_of;

fn keeps(alloc: Global, places: &[u32]) -> Result<bool, Fail> {
    Ok(Path::new(alloc, places)?.places() == places)
}

#[test]
fn keeps_places(rt: HostRuntime) -> Result<(), Fail> {
    assert!(rt; keeps(rt.alloc(), &[0, 2])?);
    Ok(())
}

// The smallest document.
const DOC: &str = "<a/>\n";

fn depth_and_nodes(alloc: Global) -> Result<(u32, u64), Fail> {
    let doc = document_of(alloc, DOC, "a")?;
    Ok((doc.depth(), doc.nodes()))
}

// A word for what stands at a path.
fn found_at(doc: &Doc, path: &Path) -> &'static str {
    match doc.node_at(path) {
        Some(Found::Document) => "the document node",
        Some(Found::Inner(_)) => "a node",
        None => "nothing",
    }
}

// How many kids the list at a path has.
fn kids_at(doc: &Doc, path: &Path) -> Option<usize> {
    match doc.kids_at(path) {
        Some(kids) => Some(kids.len()),
        None => None,
    }
}

// Paths, what stands there, and how many kids it has.
static PATHS: [(&[u32], &str, Option<usize>); 3] = [
    (&[], "the document node", Some(1)),
    (&[0], "a node", Some(0)),
    (&[0, 0], "nothing", None),
];

fn stands_at(alloc: Global, places: &[u32], word: &str, kids: Option<usize>) -> Result<bool, Fail> {
    let doc = document_of(alloc, DOC, "a")?;
    let path = Path::new(alloc, places)?;
    Ok(found_at(&doc, &path) == word && kids_at(&doc, &path) == kids)
}

#[test]
fn tells_the_smallest_document(rt: HostRuntime) -> Result<(), Fail> {
    assert!(rt; depth_and_nodes(rt.alloc())? == (1, 1));
    for (places, word, kids) in &PATHS {
        assert!(rt; stands_at(rt.alloc(), *places, *word, *kids)?, "{word}");
    }
    Ok(())
}
