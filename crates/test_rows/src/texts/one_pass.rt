//! Validity in one pass over the bytes, and by the tree: the same answer, for each document.

use pv_dtd::Dtd;
use pv_read::{DocError, read_doc};
use pv_tree::{Path, first_invalid};
use pv_valid::first_invalid_in;
use std::alloc::{AllocError, Global};
use std::test::Fail;
use test_fixture::documents::dtd_of;

const DTD: &str = "<!ELEMENT doc (head, (p | e)*)>
<!ELEMENT head (#PCDATA)>
<!ELEMENT p (#PCDATA | head)*>
<!ELEMENT e EMPTY>";

/// A document, and what is told of it: the places of the first list that isn't valid by itself, or
/// the fault.
type Row<'a> = (&'a str, &'a str);

static ROWS: [Row<'static>; 13] = [
    ("<doc><head/></doc>\n", "valid"),
    (
        "<!--c--><doc ><head>a</head><p>b<head/></p><e/></doc >",
        "valid",
    ),
    // An element's list comes before those of its kids, and an earlier kid's before a later one's.
    ("<doc><p><p/></p><e> </e></doc>", "[0]"),
    ("<doc><head/><p><e/></p><e>x</e></doc>", "[0, 1]"),
    (
        "<doc><head/><p><head><e>x</e></head><e/></p></doc>",
        "[0, 1]",
    ),
    // Texts and comments have places, and an EMPTY element has no kid at all.
    ("<doc><head/><!--c--> <e/><e><!--c--></e></doc>", "[0, 4]"),
    ("<doc><head/> <e><?pi?></e> <x/></doc>", "[0]"),
    // The root's name is compared, and then no other list matters.
    ("<p/>", "[]"),
    ("<p><e>x</e></p>", "[]"),
    // A fault anywhere comes before any list.
    (
        "<doc><p/>&nbsp;</doc>",
        "item 2 refers to a name that isn't declared",
    ),
    (
        "<doc><p></e></doc>",
        "item 2 ends an element of another name",
    ),
    (
        "<doc><p/></doc></doc>",
        "item 3 is no part of a document here",
    ),
    (
        "<!DOCTYPE p><doc/>",
        "the document type declaration has another name than the root",
    ),
];

fn by_tree(alloc: Global, dtd: &Dtd, bytes: &[u8]) -> Result<Option<Path>, DocError> {
    let doc = read_doc(alloc, bytes, b"doc")?;
    let found = first_invalid(alloc, dtd, b"doc", &doc)?;
    Ok(found)
}

fn told(alloc: Global, answer: Result<Option<Path>, DocError>) -> Result<String, AllocError> {
    match answer {
        Ok(None) => format!(in alloc; "valid"),
        Ok(Some(path)) => format!(in alloc; "{:?}", path.places()),
        Err(error) => format!(in alloc; "{error}"),
    }
}

fn in_pass(alloc: Global, dtd: &Dtd, doc: &str) -> Result<String, AllocError> {
    told(alloc, first_invalid_in(alloc, dtd, b"doc", doc.as_bytes()))
}

fn in_tree(alloc: Global, dtd: &Dtd, doc: &str) -> Result<String, AllocError> {
    told(alloc, by_tree(alloc, dtd, doc.as_bytes()))
}

// Whether this is told of a document, in one pass and by the tree.
fn is_told(alloc: Global, dtd: &Dtd, doc: &str, wanted: &str) -> Result<bool, AllocError> {
    Ok(in_pass(alloc, dtd, doc)?.as_str() == wanted && in_tree(alloc, dtd, doc)?.as_str() == wanted)
}

#[test]
fn one_pass_and_tree(rt: HostRuntime) -> Result<(), Fail> {
    let alloc = rt.alloc();
    let dtd = dtd_of(alloc, DTD)?;
    for (doc, wanted) in &ROWS {
        assert!(rt; is_told(alloc, &dtd, *doc, *wanted)?, "{doc}");
    }
    Ok(())
}

const SHORT_DTD: &str = "<!ELEMENT doc (p | e)*>
<!ELEMENT p (#PCDATA | p)*>
<!ELEMENT e EMPTY>";

static PIECES: [&str; 9] = [
    "<p>", "</p>", "<e>", "</e>", "<p/>", "x", " ", "<!--c-->", "&#32;",
];

// The document of five pieces, by its number.
fn short_document(alloc: Global, number: u32) -> Result<String, AllocError> {
    let mut text = String::from_str(alloc, "<doc>")?;
    let mut left = number;
    for _ in 0..5 {
        text.push_str(PIECES[(left % 9) as usize])?;
        left /= 9;
    }
    text.push_str("</doc>")?;
    Ok(text)
}

// Whether the same is told of the document of a number in one pass and by the tree.
fn is_told_alike(alloc: Global, dtd: &Dtd, number: u32) -> Result<bool, AllocError> {
    let doc = short_document(alloc, number)?;
    let tree = in_tree(alloc, dtd, doc.as_str())?;
    Ok(in_pass(alloc, dtd, doc.as_str())?.as_str() == tree.as_str())
}

// All sequences of five pieces.
#[test]
fn short_documents(rt: HostRuntime) -> Result<(), Fail> {
    let alloc = rt.alloc();
    let dtd = dtd_of(alloc, SHORT_DTD)?;
    for number in 0..59_049 {
        assert!(rt;
            is_told_alike(alloc, &dtd, number)?,
            "the document of number {number}"
        );
    }
    Ok(())
}
