//! Ranges that nest.

use crate::standoff::documents::{Ending, ending_of, levels};
use std::alloc::{AllocError, Global};
use std::test::Fail;
use test_fixture::documents::nested;

// A text, lines of ranges over it, and the document that they become, with the root `doc`.
static ROWS: [(&str, &str, &str); 17] = [
    (
        "Tea time",
        "0 8 0 p\n0 3 0 em\n",
        "<doc><p><em>Tea</em> time</p></doc>",
    ),
    (
        "Tea time",
        "0 3 0 em\n0 8 0 p\n",
        "<doc><p><em>Tea</em> time</p></doc>",
    ),
    (
        "Tea time",
        "0 8 1 em\n0 8 0 p\n",
        "<doc><p><em>Tea time</em></p></doc>",
    ),
    ("Tea time", "", "<doc>Tea time</doc>"),
    ("Tea time", "0 8 0 br\n", "<doc><br>Tea time</br></doc>"),
    // ranges that touch
    (
        "Tea time",
        "3 4 0 b\n0 3 0 a\n4 8 0 c",
        "<doc><a>Tea</a><b> </b><c>time</c></doc>",
    ),
    // text before, between and after
    (
        "Tea time",
        "1 2 0 a\n5 6 0 b",
        "<doc>T<a>e</a>a t<b>i</b>me</doc>",
    ),
    // one range of three levels
    (
        "ab",
        "0 1 7 c\n0 1 0 a\n0 1 4294967295 d\n0 1 1 b",
        "<doc><a><b><c><d>a</d></c></b></a>b</doc>",
    ),
    // levels count only where both ends are the same
    (
        "abc",
        "0 3 9 a\n0 2 0 b\n1 2 5 c",
        "<doc><a><b>a<c>b</c></b>c</a></doc>",
    ),
    // several ends at one place
    (
        "abc",
        "0 3 0 a\n1 3 0 b\n2 3 0 c",
        "<doc><a>a<b>b<c>c</c></b></a></doc>",
    ),
    // references and characters of several bytes are one unit each
    (
        "a&#233;b&amp;\u{E9}\u{20AC}\u{10000}",
        "1 2 0 a\n2 4 0 b\n4 5 0 c\n5 6 0 d\n6 7 0 e",
        "<doc>a<a>&#233;</a><b>b&amp;</b><c>\u{E9}</c><d>\u{20AC}</d><e>\u{10000}</e></doc>",
    ),
    // line ends and white space are units
    (
        "a\r\n\tb",
        "1 2 0 a\n2 4 0 b",
        "<doc>a<a>\r</a><b>\n\t</b>b</doc>",
    ),
    // `]]>` that is cut by a tag
    (
        "]]&gt;]]",
        "0 1 0 a\n1 3 0 b",
        "<doc><a>]</a><b>]&gt;</b>]]</doc>",
    ),
    ("&lt;]]&#62;", "3 4 0 a", "<doc>&lt;]]<a>&#62;</a></doc>"),
    // the name of the root, and one that XML 1.0 has
    ("x", "0 1 0 doc", "<doc><doc>x</doc></doc>"),
    (
        "x",
        "0 1 0 \u{C9}l:\u{B7}-",
        "<doc><\u{C9}l:\u{B7}->x</\u{C9}l:\u{B7}-></doc>",
    ),
    // CRs at the end of a line, and no LF at the end
    (
        "xy",
        "0 1 0 a\r\n1 2 0 b\r\r",
        "<doc><a>x</a><b>y</b></doc>",
    ),
];

// Whether a text and lines of ranges become this document.
fn becomes(alloc: Global, root: &str, text: &str, lines: &str, document: &str) -> bool {
    match ending_of(alloc, root, text, lines) {
        Ending::Nested(bytes) => bytes.as_slice() == document.as_bytes(),
        _ => false,
    }
}

#[test]
fn rows(rt: HostRuntime) {
    for (text, lines, document) in &ROWS {
        assert!(rt;
            becomes(rt.alloc(), "doc", *text, *lines, *document),
            "{document}"
        );
    }
}

fn is_deep_nested(alloc: Global) -> Result<bool, AllocError> {
    let lines = levels(alloc, 511)?;
    let document = nested(alloc, 512, "<e>", "x", "</e>")?;
    Ok(becomes(alloc, "e", "x", lines.as_str(), document.as_str()))
}

#[test]
fn as_deep_as_may_be(rt: HostRuntime) -> Result<(), Fail> {
    assert!(rt; is_deep_nested(rt.alloc())?);
    Ok(())
}
