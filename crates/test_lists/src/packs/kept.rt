//! Documents without the tags of marked elements.

use pv_compare::{are_marks, is_kept, read_body};
use pv_flat::MAX_FLAT_BYTES;
use pv_read::read_doc;
use std::alloc::Global;
use std::test::Fail;

// Whether elements have no attributes.
static PLAIN: [bool; 4] = [true, false, true, true];

// Numbers, and whether they are marks of these elements.
static MARKS: [(&[u32], bool); 6] = [
    (&[], true),
    (&[0, 2, 3], true),
    (&[1], false),
    (&[4], false),
    (&[2, 2], false),
    (&[3, 2], false),
];

fn are_marks_of_plain(marks: &[u32]) -> bool {
    are_marks(marks, &PLAIN)
}

#[test]
fn marks_in_order(rt: HostRuntime) {
    for (marks, wanted) in &MARKS {
        assert_eq!(rt; are_marks_of_plain(*marks), *wanted, "{marks:?}");
    }
}

// Whether a body without the tags of its marked elements is a document.
fn keeps(alloc: Global, doc: &str, body: &str, marks: &[u32]) -> Result<bool, Fail> {
    if body.len() > MAX_FLAT_BYTES {
        return Err(Fail::new("too long a body"));
    }
    Ok(is_kept(alloc, b"a", doc.as_bytes(), body.as_bytes(), marks)?)
}

// Whether a body without the tags of its marked elements is a document that was read into a tree.
fn keeps_tree(alloc: Global, doc: &str, body: &str, marks: &[u32]) -> Result<bool, Fail> {
    let tree = read_doc(alloc, doc.as_bytes(), b"a")?;
    Ok(read_body(alloc, b"a", &tree, body.as_bytes(), marks)?.kept)
}

const LETTER: &str = "<!--c--><a>x&amp;y<b u='1'/><![CDATA[d]]><?p?></a>\n";

const SPLIT: &str = "<!--c--><a><b>x</b>&amp;<b>y<b u='1'></b></b><![CDATA[d]]><?p?></a>\n";

const NOTE: &str = "<a><b u='1'>x</b><!--c--></a>";

// A document, a body and its marks, and whether it keeps the document.
static ROWS: [(&str, &str, &[u32], bool); 16] = [
    (LETTER, LETTER, &[], true),
    (LETTER, SPLIT, &[1, 2], true),
    (LETTER, SPLIT, &[1], false),
    (LETTER, SPLIT, &[1, 2, 3], false),
    (LETTER, LETTER, &[1], false),
    ("<a>x</a>", "<a><a></a>x<a/></a>", &[1, 2], true),
    ("<b/>", "<a><b></b></a>", &[0], true),
    // What is compared.
    (NOTE, "<a><c u='1'>x</c><!--c--></a>", &[], false),
    (NOTE, "<a><b u='2'>x</b><!--c--></a>", &[], false),
    (NOTE, "<a><b u='1'>y</b><!--c--></a>", &[], false),
    (NOTE, "<a><b u='1'>&#120;</b><!--c--></a>", &[], false),
    (NOTE, "<a><b u='1'/>x<!--c--></a>", &[], false),
    (NOTE, "<a><b u='1'>x</b></a>", &[], false),
    (NOTE, "<a><b u='1'>x</b><!--c--><!--d--></a>", &[], false),
    (NOTE, "<a><b u='1'>x</b><!--c--></a>\n", &[], false),
    (NOTE, "<?p?><a><b u='1'>x</b><!--c--></a>", &[], false),
];

#[test]
fn tags_put_in(rt: HostRuntime) -> Result<(), Fail> {
    for (doc, body, marks, wanted) in &ROWS {
        let found = keeps(rt.alloc(), *doc, *body, *marks)?;
        assert_eq!(rt; found, *wanted, "{body} with marks {marks:?}");
        let by_tree = keeps_tree(rt.alloc(), *doc, *body, *marks)?;
        assert_eq!(rt;
            by_tree,
            *wanted,
            "{body} with marks {marks:?}, by the tree"
        );
    }
    Ok(())
}
