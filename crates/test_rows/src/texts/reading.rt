//! Rows of documents that are read by a call: what is kept of them, and what refuses them.

use pv_read::{DocError, read_doc};
use pv_tree::{Doc, End, Mark, Node};
use std::alloc::Global;
use std::test::Fail;

// A word for the kind of a fault, and the number of its item.
fn kind_of(error: &DocError) -> (&'static str, u64) {
    match error {
        DocError::Syntax(item) => ("syntax", *item),
        DocError::Mismatch(item) => ("mismatch", *item),
        DocError::Entity(item) => ("entity", *item),
        DocError::Subset => ("subset", 0),
        DocError::DoctypeName => ("doctype", 0),
        DocError::Deep(item) => ("deep", *item),
        DocError::Limit => ("limit", 0),
        DocError::NoMemory => ("memory", 0),
    }
}

fn fault_of(alloc: Global, text: &str) -> (&'static str, u64) {
    match read_doc(alloc, text.as_bytes(), b"a") {
        Ok(_doc) => ("a document", 0),
        Err(error) => kind_of(&error),
    }
}

static FAULTS: [(&str, &str, u64); 6] = [
    ("<a>x<b></a>", "mismatch", 3),
    ("<a>&b;</a>", "entity", 1),
    ("<a/>x", "syntax", 1),
    ("<a>", "syntax", 1),
    (" <!DOCTYPE a [", "subset", 0),
    ("<!DOCTYPE b><a/>", "doctype", 0),
];

#[test]
fn names_the_first_item_in_fault(rt: HostRuntime) {
    for (text, kind, item) in &FAULTS {
        assert!(rt; fault_of(rt.alloc(), *text) == (*kind, *item), "{text}");
    }
}

// A document with bytes of each kind in its tags.
const TAGGED: &[u8] = b"<!--c-->\n<a x='&lt;' >x]&#93;<b /><?p?></a\t>\n";

fn are_kids(kids: &[Node]) -> bool {
    let [
        Node::Text(text),
        Node::Elem {
            attrs,
            end: End::Short,
            ..
        },
        Node::Misc(misc),
    ] = kids
    else {
        return false;
    };
    text.bytes() == b"x]&#93;".as_slice()
        && text.len() == 3
        && attrs.as_slice() == b" ".as_slice()
        && misc.as_slice() == b"<?p?>".as_slice()
}

fn is_root(node: &Node) -> bool {
    let Node::Elem {
        name,
        attrs,
        end: End::Tagged(gap),
        kids,
        mark,
    } = node
    else {
        return false;
    };
    name.as_slice() == b"a".as_slice()
        && attrs.as_slice() == b" x='&lt;' ".as_slice()
        && gap.as_slice() == b"\t".as_slice()
        && *mark == Mark::BLANK
        && are_kids(kids.as_slice())
}

fn is_tagged(doc: &Doc) -> bool {
    doc.before.as_slice() == b"<!--c-->\n".as_slice()
        && doc.after.as_slice() == b"\n".as_slice()
        && is_root(&doc.root)
}

fn keeps_bytes(alloc: Global) -> Result<bool, DocError> {
    Ok(is_tagged(&read_doc(alloc, TAGGED, b"a")?))
}

#[test]
fn keeps_the_bytes_of_tags(rt: HostRuntime) -> Result<(), Fail> {
    assert!(rt; keeps_bytes(rt.alloc())?);
    Ok(())
}
