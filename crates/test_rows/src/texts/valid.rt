//! Rows of `valid`.

use crate::runs::rows::{Row, check_rows};
use pv_cli::Status;
use std::test::Fail;
use test_fixture::documents::nested;
use test_fixture::dtds::{
    ANY, ANY_OR_EMPTY, ANY_OR_ENDLESS, ANY_OR_OPTIONAL, ARTICLE, EMPTY, ENDLESS, GREEK, MIXED,
    MIXED_UNDECLARED, REALISTIC, TEXT, UNDECLARED,
};

const DONE: Status = Status::Done;

const NEGATIVE: Status = Status::Negative;

const BAD_DTD: Status = Status::BadDtd;

const BAD_DOCUMENT: Status = Status::BadDocument;

const LIMIT: Status = Status::Limit;

static JUDGED: [Row<'static>; 31] = [
    (TEXT, "doc", "<doc>Hello</doc>", DONE, "valid\n"),
    (TEXT, "p", "<doc>Hello</doc>", NEGATIVE, "invalid .\n"),
    (TEXT, "doc", " <doc >x</doc >\n", DONE, "valid\n"),
    (TEXT, "p", "<p/>", NEGATIVE, "invalid 0\n"),
    (EMPTY, "doc", "<doc></doc>", DONE, "valid\n"),
    (EMPTY, "doc", "<doc>Hello</doc>", NEGATIVE, "invalid 0\n"),
    (EMPTY, "doc", "<doc> </doc>", NEGATIVE, "invalid 0\n"),
    // A CDATA section is data, also where it is empty.
    (
        EMPTY,
        "doc",
        "<doc><![CDATA[]]></doc>",
        NEGATIVE,
        "invalid 0\n",
    ),
    (
        ARTICLE,
        "doc",
        "<doc><head/><![CDATA[]]><sec/></doc>",
        NEGATIVE,
        "invalid 0\n",
    ),
    (TEXT, "doc", "<doc><![CDATA[]]></doc>", DONE, "valid\n"),
    (ANY, "a", "<a><a>x</a></a>", DONE, "valid\n"),
    (ANY, "a", "<a><b/></a>", NEGATIVE, "invalid 0\n"),
    (
        ANY_OR_EMPTY,
        "a",
        "<a>x<a/><a><b/><b> </b></a></a>",
        NEGATIVE,
        "invalid 0.2.1\n",
    ),
    (MIXED, "a", "<a>x<b/>y</a>", DONE, "valid\n"),
    (MIXED, "a", "<a>x<c/></a>", NEGATIVE, "invalid 0\n"),
    // Names that a DTD mentions, or that only the words or the document have.
    (UNDECLARED, "a", "<a><b/></a>", NEGATIVE, "invalid 0.0\n"),
    (
        MIXED_UNDECLARED,
        "a",
        "<a><b/></a>",
        NEGATIVE,
        "invalid 0.0\n",
    ),
    (ANY_OR_ENDLESS, "a", "<a><b/></a>", NEGATIVE, "invalid 0\n"),
    (MIXED_UNDECLARED, "b", "<b/>", NEGATIVE, "invalid 0\n"),
    (GREEK, "λόγος", "<λόγος>x</λόγος>", DONE, "valid\n"),
    (GREEK, "λόγος", "<λόγου/>", NEGATIVE, "invalid .\n"),
    (
        ARTICLE,
        "doc",
        "<doc><head>a</head><sec></sec></doc>",
        DONE,
        "valid\n",
    ),
    (ARTICLE, "doc", "<doc>Hello</doc>", NEGATIVE, "invalid 0\n"),
    (
        ARTICLE,
        "doc",
        "<doc> <head/>\n<sec><p>x<em>y</em><br/></p></sec></doc>",
        DONE,
        "valid\n",
    ),
    (
        ARTICLE,
        "doc",
        "<doc><head/><sec><p><br> </br></p></sec></doc>",
        NEGATIVE,
        "invalid 0.1.0.0\n",
    ),
    (
        ARTICLE,
        "doc",
        "<doc><head/><sec><list><item><p/></item></list></sec></doc>",
        NEGATIVE,
        "invalid 0.1.0\n",
    ),
    (ARTICLE, "doc", "<p>a</p>", NEGATIVE, "invalid .\n"),
    (ARTICLE, "doc", REALISTIC, NEGATIVE, "invalid 0.3\n"),
    (ENDLESS, "a", "<a><a/></a>", NEGATIVE, "invalid 0.0\n"),
    (
        ANY_OR_OPTIONAL,
        "r",
        "<r><s/><zz/></r>",
        NEGATIVE,
        "invalid 0\n",
    ),
    (
        ANY_OR_OPTIONAL,
        "r",
        "<r><s><u/></s></r>",
        NEGATIVE,
        "invalid 0.0.0\n",
    ),
];

static REFUSED: [Row<'static>; 7] = [
    (
        "<!ELEMENT a (b|c,d)>",
        "a",
        "<a/>",
        BAD_DTD,
        "dtd syntax 0\n",
    ),
    ("<!ELEMENT a ()>", "a", "<a/>", BAD_DTD, "dtd syntax 0\n"),
    (
        "<!ELEMENT a ANY><!ELEMENT a ANY>",
        "a",
        "<a/>",
        BAD_DTD,
        "dtd twice 1\n",
    ),
    (
        "<!ELEMENT a (#PCDATA|b|b)*>",
        "a",
        "<a/>",
        BAD_DTD,
        "dtd mixed-twice 0\n",
    ),
    ("<!ELEMENT a>", "a", "<a/>", BAD_DTD, "dtd syntax 0\n"),
    ("<!ENTITY % x \"y\">", "a", "<a/>", NEGATIVE, "invalid 0\n"),
    (
        "<!ELEMENT a (%b;)>",
        "a",
        "<a/>",
        BAD_DTD,
        "dtd param undeclared\n",
    ),
];

// Content models with an operator each, then documents that they allow and documents that they
// don't.
static MODELS: [(&str, &[&str], &[&str]); 7] = [
    (
        "<!ELEMENT b EMPTY><!ELEMENT c EMPTY><!ELEMENT a (b)>",
        &["<a><b/></a>"],
        &["<a></a>"],
    ),
    (
        "<!ELEMENT b EMPTY><!ELEMENT c EMPTY><!ELEMENT a (b,c)>",
        &["<a><b/><c/></a>"],
        &["<a/>", "<a><b/></a>", "<a><c/></a>", "<a><c/><b/></a>"],
    ),
    (
        "<!ELEMENT b EMPTY><!ELEMENT c EMPTY><!ELEMENT a (b|c)>",
        &["<a><b/></a>", "<a><c/></a>"],
        &["<a/>", "<a><b/><c/></a>"],
    ),
    (
        "<!ELEMENT b EMPTY><!ELEMENT c EMPTY><!ELEMENT a (b?)>",
        &["<a/>", "<a><b/></a>"],
        &["<a><b/><b/></a>", "<a><c/></a>"],
    ),
    (
        "<!ELEMENT b EMPTY><!ELEMENT c EMPTY><!ELEMENT a (b*)>",
        &["<a/>", "<a><b/><b/></a>"],
        &["<a><c/></a>", "<a>x</a>"],
    ),
    (
        "<!ELEMENT b EMPTY><!ELEMENT c EMPTY><!ELEMENT a (b+)>",
        &["<a><b/></a>", "<a><b/><b/></a>"],
        &["<a> </a>", "<a><b/><c/></a>"],
    ),
    (
        "<!ELEMENT b EMPTY><!ELEMENT c EMPTY><!ELEMENT a ((b|c)+,b)>",
        &["<a><c/><b/><b/></a>"],
        &["<a><b/></a>"],
    ),
];

#[test]
fn rows(rt: HostRuntime) -> Result<(), Fail> {
    check_rows(&rt, "valid", &JUDGED)?;
    check_rows(&rt, "valid", &REFUSED)?;
    for (dtd, allowed, refused) in &MODELS {
        for doc in *allowed {
            check_rows(&rt, "valid", &[(*dtd, "a", *doc, DONE, "valid\n")])?;
        }
        for doc in *refused {
            check_rows(&rt, "valid", &[(*dtd, "a", *doc, NEGATIVE, "invalid 0\n")])?;
        }
    }
    Ok(())
}

// 64 groups, one inside another, in a declaration of `a`, and 65.
static GROUPS: [Row<'static>; 8] = [
    (
        "<!ELEMENT b EMPTY>\
         <!ELEMENT a ((((((((((((((((((((((((((((((((((((((((((((((((((((((((((((((((b))))))))))))\
         ))))))))))))))))))))))))))))))))))))))))))))))))))))>",
        "a",
        "<a><b/></a>",
        DONE,
        "valid\n",
    ),
    (
        "<!ELEMENT b EMPTY>\
         <!ELEMENT a (((((((((((((((((((((((((((((((((((((((((((((((((((((((((((((((((b)))))))))))\
         ))))))))))))))))))))))))))))))))))))))))))))))))))))))>",
        "a",
        "<a><b/></a>",
        LIMIT,
        "limit dtd 1\n",
    ),
    (
        "<!ELEMENT a ((((((((((((((((((((((((((((((((((((((((((((((((((((((((((((((((b))))))))))))\
         ))))))))))))))))))))))))))))))))))))))))))))))))))))>",
        "a",
        "<a><b/></a>",
        NEGATIVE,
        "invalid 0.0\n",
    ),
    (
        "<!ELEMENT a (((((((((((((((((((((((((((((((((((((((((((((((((((((((((((((((((b)))))))))))\
         ))))))))))))))))))))))))))))))))))))))))))))))))))))))>",
        "a",
        "<a><b/></a>",
        LIMIT,
        "limit dtd 0\n",
    ),
    // The item has one more fault, or the next item has: nesting, then syntax.
    (
        "<!ELEMENT a (((((((((((((((((((((((((((((((((((((((((((((((((((((((((((((((((b)))))))))))\
         ))))))))))))))))))))))))))))))))))))))))))))))))))))))",
        "a",
        "<a><b/></a>",
        LIMIT,
        "limit dtd 0\n",
    ),
    (
        "<!ELEMENT a (((((((((((((((((((((((((((((((((((((((((((((((((((((((((((((((((b)))))))))))\
         ))))))))))))))))))))))))))))))))))))))))))))))))))))))>% p;",
        "a",
        "<a><b/></a>",
        LIMIT,
        "limit dtd 0\n",
    ),
    // A parameter comes before nesting.
    (
        "<!ELEMENT a (((((((((((((((((((((((((((((((((((((((((((((((((((((((((((((((((b)))))))))))\
         ))))))))))))))))))))))))))))))))))))))))))))))))))))))% p;>",
        "a",
        "<a><b/></a>",
        BAD_DTD,
        "dtd parameter 0\n",
    ),
    (
        "<!ELEMENT a (((((((((((((((((((((((((((((((((((((((((((((((((((((((((((((((((b)))))))))))\
         ))))))))))))))))))))))))))))))))))))))))))))))))))))))%p;",
        "a",
        "<a><b/></a>",
        BAD_DTD,
        "dtd parameter 0\n",
    ),
];

#[test]
fn groups(rt: HostRuntime) -> Result<(), Fail> {
    check_rows(&rt, "valid", &GROUPS)
}

// How often a tag stands inside itself, what stands innermost, and how the run ends.
static DEPTHS: [(usize, &str, &str, Status, &str); 10] = [
    (511, "<em>", "<em/>", DONE, "valid\n"),
    (512, "<em>", "", DONE, "valid\n"),
    (512, "<em>", "<em/>", LIMIT, "limit depth 512\n"),
    (513, "<em>", "", LIMIT, "limit depth 512\n"),
    (10_000, "<em>", "", LIMIT, "limit depth 512\n"),
    // Texts before the tag that is too deep are items too.
    (512, "<em>", "x<em/>", LIMIT, "limit depth 513\n"),
    (513, "<em>x", "", LIMIT, "limit depth 1024\n"),
    // The tag has one more fault.
    (
        512,
        "<em>",
        "<em a='&b;'/>",
        BAD_DOCUMENT,
        "document entity 512\n",
    ),
    (
        512,
        "<em>x",
        "<em a='&b;'>",
        BAD_DOCUMENT,
        "document entity 1024\n",
    ),
    (
        512,
        "<em>",
        "<em a='&;'/>",
        BAD_DOCUMENT,
        "document syntax 512\n",
    ),
];

#[test]
fn depths(rt: HostRuntime) -> Result<(), Fail> {
    for (count, open, inner, status, line) in &DEPTHS {
        let doc = nested(rt.alloc(), *count, open, inner, "</em>")?;
        check_rows(
            &rt,
            "valid",
            &[(ARTICLE, "em", doc.as_str(), *status, *line)],
        )?;
    }
    Ok(())
}
