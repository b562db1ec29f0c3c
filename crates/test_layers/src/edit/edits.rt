//! What edits make of a document, and that they are taken back.

use pv_edit::{Edit, apply, revert};
use pv_script::{Command, read_command};
use pv_tree::Doc;
use pv_write::doc_bytes;
use std::alloc::Global;
use std::test::Fail;
use test_fixture::documents::document_of;

/// The greatest number of nodes of a document that may still grow.
pub const MAX_NODES: u64 = 33_554_432;

/// The edit that the line of a script is.
pub fn edit_of(alloc: Global, line: &str) -> Result<Edit, Fail> {
    match read_command(alloc, line.as_bytes()) {
        Ok(Command::Edit(edit)) => Ok(edit),
        _ => Err(Fail::new("no edit")),
    }
}

fn is_document(alloc: Global, doc: &Doc, text: &str) -> bool {
    match doc_bytes(alloc, doc) {
        Ok(written) => written.as_slice() == text.as_bytes(),
        Err(_) => false,
    }
}

/// The document is this text.
pub fn expect(alloc: Global, doc: &Doc, text: &str) -> Result<(), Fail> {
    if is_document(alloc, doc, text) {
        Ok(())
    } else {
        Err(Fail::new(format_args!("the document isn't {text}")))
    }
}

// Whether an edit on a document of this text makes the other text of it, and is taken back.
fn is_there_and_back(alloc: Global, doc: &mut Doc, edit: &Edit, before: &str, after: &str) -> bool {
    if doc.nodes() > MAX_NODES {
        return false;
    }
    match apply(alloc, doc, edit) {
        Ok(inverse) => {
            is_document(alloc, doc, after)
                && revert(alloc, doc, &inverse).is_ok()
                && is_document(alloc, doc, before)
        }
        Err(_) => false,
    }
}

/// Makes an edit; whether it can be made.
pub fn make(alloc: Global, doc: &mut Doc, edit: &Edit) -> bool {
    doc.nodes() <= MAX_NODES && apply(alloc, doc, edit).is_ok()
}

/// A document with one text.
pub const HELLO: &str = "<doc>Hello</doc>";

const MIXED: &str = "<doc ><x/><y >a</y >b</doc>";

// A document, an edit on it, and the text that it makes.
static EDITS: [(&str, &str, &str); 19] = [
    (HELLO, "wrap 0 0 1 p", "<doc><p>Hello</p></doc>"),
    (HELLO, "wrap 0 1 1 p", "<doc>Hello<p></p></doc>"),
    (HELLO, "wrap 0 0 0 p", "<doc><p></p>Hello</doc>"),
    (HELLO, "wrap . 0 1 doc", "<doc><doc>Hello</doc></doc>"),
    (MIXED, "wrap 0 0 3 p", "<doc ><p><x/><y >a</y >b</p></doc>"),
    (MIXED, "wrap 0 1 1 p", "<doc ><x/><p></p><y >a</y >b</doc>"),
    (MIXED, "insert 0 3 p", "<doc ><x/><y >a</y >b<p/></doc>"),
    (
        MIXED,
        "insert 0.0 0 p",
        "<doc ><x><p/></x><y >a</y >b</doc>",
    ),
    (MIXED, "unwrap 0.0", "<doc ><y >a</y >b</doc>"),
    (MIXED, "unwrap 0.1", "<doc ><x/>ab</doc>"),
    (
        "<doc><p>a<x/><y>b</y>c</p>d</doc>",
        "unwrap 0.0",
        "<doc>a<x/><y>b</y>cd</doc>",
    ),
    (MIXED, "rename 0.1 z", "<doc ><x/><z >a</z >b</doc>"),
    (MIXED, "rename 0 root", "<root ><x/><y >a</y >b</root>"),
    ("<doc><x>a</x></doc>", "unwrap 0", "<x>a</x>"),
    (HELLO, "split 0.0 2", HELLO),
    (HELLO, "text 0.0 &#13;é&amp;", "<doc>&#13;é&amp;</doc>"),
    (HELLO, "addtext 0 0 a", "<doc>aHello</doc>"),
    (
        MIXED,
        "addtext 0.0 0 &lt;",
        "<doc ><x>&lt;</x><y >a</y >b</doc>",
    ),
    (HELLO, "deltext 0.0", "<doc></doc>"),
];

fn is_made_alone(alloc: Global, before: &str, line: &str, after: &str) -> Result<bool, Fail> {
    let edit = edit_of(alloc, line)?;
    let mut doc = document_of(alloc, before, "doc")?;
    Ok(is_there_and_back(alloc, &mut doc, &edit, before, after))
}

#[test]
fn edits_alone(rt: HostRuntime) -> Result<(), Fail> {
    for (before, line, after) in &EDITS {
        assert!(rt;
            is_made_alone(rt.alloc(), *before, *line, *after)?,
            "{line}"
        );
    }
    Ok(())
}

/// Edits one after the other, on a document of a text, and what each makes.
pub static IN_ORDER: [(&str, &str); 10] = [
    ("addtext 0 1 , you", "<doc>Hello, you</doc>"),
    ("join 0.0", "<doc>Hello, you</doc>"),
    ("text 0.0 Hi &amp; bye", "<doc>Hi &amp; bye</doc>"),
    ("split 0.0 4", "<doc>Hi &amp; bye</doc>"),
    ("wrap 0 1 2 p", "<doc>Hi &amp;<p> bye</p></doc>"),
    ("insert 0 0 head", "<doc><head/>Hi &amp;<p> bye</p></doc>"),
    (
        "addtext 0.0 0 x",
        "<doc><head>x</head>Hi &amp;<p> bye</p></doc>",
    ),
    (
        "deltext 0.0.0",
        "<doc><head></head>Hi &amp;<p> bye</p></doc>",
    ),
    ("unwrap 0.2", "<doc><head></head>Hi &amp; bye</doc>"),
    ("rename 0.0 名", "<doc><名></名>Hi &amp; bye</doc>"),
];

// Makes the edit of a line, takes it back and makes it again.
fn is_made_twice(
    alloc: Global,
    doc: &mut Doc,
    line: &str,
    before: &str,
    after: &str,
) -> Result<bool, Fail> {
    let edit = edit_of(alloc, line)?;
    Ok(is_there_and_back(alloc, doc, &edit, before, after) && make(alloc, doc, &edit))
}

#[test]
fn edits_in_order(rt: HostRuntime) -> Result<(), Fail> {
    let mut doc = document_of(rt.alloc(), HELLO, "doc")?;
    let mut before = HELLO;
    for (line, after) in &IN_ORDER {
        assert!(rt;
            is_made_twice(rt.alloc(), &mut doc, *line, before, *after)?,
            "{line}"
        );
        before = *after;
    }
    expect(rt.alloc(), &doc, before)
}
