//! Rows of items: what stands at the front of bytes, and where an item may stand.

use pv_read::DocError;
use pv_read::faults::next_item;
use pv_read::forms::{Item, begins_subset, has_known_references, item_at, run_at};
use pv_read::places::Place;

fn sort(item: &Item<'_>) -> &'static str {
    match item {
        Item::XmlDeclaration(_) => "declaration",
        Item::Doctype { .. } => "doctype",
        Item::CommentOrInstruction(_) => "comment or instruction",
        Item::CdataSection(_) => "section",
        Item::StartTag(_) => "start tag",
        Item::EmptyTag(_) => "empty tag",
        Item::EndTag { .. } => "end tag",
        Item::TextRun(_) => "text run",
    }
}

// Whether an item of this sort stands at the front, and these bytes after it.
fn begins_with(bytes: &[u8], name: &str, rest: &[u8]) -> bool {
    match item_at(bytes) {
        Some((item, found)) => sort(&item) == name && found == rest,
        None => false,
    }
}

static FORMS: [(&str, &str); 21] = [
    ("<?xml version='1.0'?>", "declaration"),
    (
        "<?xml version = \"1.1\" encoding='us-ascii' standalone='no' ?>",
        "declaration",
    ),
    ("<!DOCTYPE a>", "doctype"),
    ("<!DOCTYPE a SYSTEM 'b.dtd' >", "doctype"),
    ("<!DOCTYPE a PUBLIC \"-//x's//\" '\"'>", "doctype"),
    ("<!---->", "comment or instruction"),
    ("<!-- <a> & -->", "comment or instruction"),
    ("<?xml-stylesheet href='a'?>", "comment or instruction"),
    ("<?a?>", "comment or instruction"),
    ("<![CDATA[]]>", "section"),
    ("<![CDATA[<&]] >]]>", "section"),
    ("<a>", "start tag"),
    ("<a >", "start tag"),
    ("<a\nb = '\"&#38;&lt;>' b\t=\"'&x;\" >", "start tag"),
    ("<a/>", "empty tag"),
    ("<a b=''/>", "empty tag"),
    ("</a\n>", "end tag"),
    ("\u{E9} ]] > &x; &#x0000041;", "text run"),
    ("]]&gt;", "text run"),
    (" ", "text run"),
    ("<\u{E9}:a.b-c/>", "empty tag"),
];

#[test]
fn reads_each_form(rt: HostRuntime) {
    for (text, name) in &FORMS {
        assert!(rt; begins_with(text.as_bytes(), *name, b""), "{text}");
    }
}

static NO_ITEMS: [&str; 33] = [
    "",
    "<",
    "<a",
    "< a>",
    "<a/ >",
    "<a b>",
    "<a b=c>",
    "<a b='c>",
    "<a b='<'>",
    "<a b='&'>",
    "<a b='&c'>",
    "<a b='1'c='2'>",
    "</a b=''>",
    "</ a>",
    "<!--a--->",
    "<!-- -- -->",
    "<?xml?>",
    "<?XML a?>",
    "<?a",
    "<?xml version='1.0' standalone='no' encoding='utf-8'?>",
    "<![CDATA[]]",
    "<![cdata[]]>",
    "<!DOCTYPE>",
    "<!DOCTYPE a [",
    "<!DOCTYPE a SYSTEM b>",
    "<!DOCTYPE a PUBLIC 'b'>",
    "<!DOCTYPE a PUBLIC 'b\"' 'c'>",
    "<!DOCTYPE aSYSTEM 'b' c>",
    "a]]>",
    "a & b",
    "&a",
    "&#xFFFF;",
    "&#;",
];

fn is_no_item(bytes: &[u8]) -> bool {
    item_at(bytes).is_none()
}

#[test]
fn refuses_what_is_no_item(rt: HostRuntime) {
    for text in &NO_ITEMS {
        assert!(rt; is_no_item(text.as_bytes()), "{text}");
    }
    assert!(rt; is_no_item(b"\x80"), "a byte that is no character");
}

fn is_run(bytes: &[u8], run: &[u8], rest: &[u8]) -> bool {
    let (found, left) = run_at(bytes);
    found == run && left == rest
}

#[test]
fn ends_a_text_run_at_the_next_tag(rt: HostRuntime) {
    let text = b"a &lt; b<c/>";
    assert!(rt; is_run(text, b"a &lt; b", b"<c/>"));
    assert!(rt; begins_with(text, "text run", b"<c/>"));
}

// Texts that begin with an item, and whether its references need no declaration.
static KNOWN: [(&str, bool); 6] = [
    ("&lt;&#65;&apos;", true),
    ("&lt;&nbsp;", false),
    ("<a b='&amp;' c='&quot;'>", true),
    ("<a b='&amp;' c='&d;'/>", false),
    ("<a>", true),
    ("<![CDATA[&b;]]>", true),
];

fn are_known(bytes: &[u8]) -> Option<bool> {
    let (item, _) = item_at(bytes)?;
    Some(has_known_references(&item))
}

#[test]
fn knows_which_references_need_a_declaration(rt: HostRuntime) {
    for (text, wanted) in &KNOWN {
        assert!(rt; are_known(text.as_bytes()) == Some(*wanted), "{text}");
    }
}

// Texts, and whether a declaration up to an internal subset stands at the front.
static SUBSETS: [(&str, bool); 4] = [
    ("<!DOCTYPE a[]>", true),
    ("<!DOCTYPE a PUBLIC 'b' 'c' [", true),
    ("<!DOCTYPE a SYSTEM 'b'>", false),
    ("<!DOCTYPE [", false),
];

fn has_subset(bytes: &[u8]) -> bool {
    begins_subset(bytes)
}

#[test]
fn tells_where_an_internal_subset_begins(rt: HostRuntime) {
    for (text, wanted) in &SUBSETS {
        assert!(rt; has_subset(text.as_bytes()) == *wanted, "{text}");
    }
}

// Whether item 7, a start tag inside 512 elements, is taken where so many may be open.
fn is_taken(most_depth: Option<usize>) -> bool {
    let place = Place::Content(b"a", 512);
    matches!(
        next_item(most_depth, &place, b"a", b"<b>", 7),
        Ok((Item::StartTag(_), _))
    )
}

// Whether it is told to be too deep.
fn is_too_deep(most_depth: Option<usize>) -> bool {
    let place = Place::Content(b"a", 512);
    matches!(
        next_item(most_depth, &place, b"a", b"<b>", 7),
        Err(DocError::Deep(7))
    )
}

#[test]
fn keeps_to_the_most_depth(rt: HostRuntime) {
    assert!(rt; is_taken(Some(513)));
    assert!(rt; is_too_deep(Some(512)));
    assert!(rt; is_taken(None));
}
