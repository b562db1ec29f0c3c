//! Rows of `check`.

use crate::runs::rows::{Lines, check_lines, check_rows, check_run};
use crate::runs::runs::Given;
use pv_cli::Status;
use std::test::Fail;
use test_fixture::documents::nested;
use test_fixture::dtds::{
    ANY, ANY_OR_EMPTY, ANY_OR_ENDLESS, ANY_OR_OPTIONAL, ARTICLE, DOUBLING, EMPTY, ENDLESS,
    ENDLESS_IN_ANY, MIXED_UNDECLARED, NESTED, REALISTIC, TEXT,
};

static POSSIBLE: [Lines<'static>; 7] = [
    (
        ARTICLE,
        "doc",
        &[
            ("<doc>Hello</doc>", "possible 1\n"),
            ("<doc><em>x</em></doc>", "possible 1\n"),
            ("<doc><p>a</p><title>b</title></doc>", "possible 1\n"),
            // The root itself is missing.
            ("<p>a</p>", "possible 1\n"),
            ("<doc> </doc>", "possible 1\n"),
            ("<doc><!--c--> </doc>", "possible 1\n"),
            // A reference to a blank is data, and so is a CDATA section.
            ("<doc><head/><sec>&#32;</sec></doc>", "possible 1\n"),
            ("<doc><head/><sec><![CDATA[]]></sec></doc>", "possible 1\n"),
            (REALISTIC, "possible 1\n"),
            ("<doc><head/><sec> </sec></doc>", "valid\n"),
            ("<doc><head>a</head><sec></sec></doc>", "valid\n"),
            ("<doc>x<list>y</list></doc>", "possible 2\n"),
        ],
    ),
    // Each missing element holds another of its kind.
    (
        NESTED,
        "x",
        &[
            ("<x><y/><y/><y/></x>", "possible 1\n"),
            ("<x></x>", "valid\n"),
        ],
    ),
    // More than two million elements are missing.
    (DOUBLING, "t0", &[("<t0/>", "possible 1\n")]),
    (ANY_OR_OPTIONAL, "r", &[("<r><s/></r>", "valid\n")]),
    (ANY_OR_EMPTY, "a", &[("<b/>", "possible 1\n")]),
    (EMPTY, "doc", &[("<doc></doc>", "valid\n")]),
    (TEXT, "doc", &[("<doc>x</doc>", "valid\n")]),
];

static IMPOSSIBLE: [Lines<'static>; 11] = [
    (
        ARTICLE,
        "doc",
        &[
            ("<doc><sec/><head/></doc>", "impossible 0\n"),
            // A blank in an element that is to be empty.
            (
                "<doc><head/><sec><p><br> </br></p></sec></doc>",
                "impossible 0.1.0.0\n",
            ),
            // The first in document order, though another is higher.
            (
                "<doc><head/><sec><p><br> </br></p></sec><em><br>x</br></em></doc>",
                "impossible 0.1.0.0\n",
            ),
        ],
    ),
    (
        EMPTY,
        "doc",
        &[
            ("<doc>x</doc>", "impossible 0\n"),
            ("<doc><!--c--></doc>", "impossible 0\n"),
        ],
    ),
    (
        ARTICLE,
        "p",
        &[("<doc><sec><p><br> </br></p></sec></doc>", "impossible .\n")],
    ),
    // A type of which no finite element is valid.
    (ENDLESS, "a", &[("<a><a/></a>", "impossible .\n")]),
    // Kids that aren't productive, of an element that lists them or is ANY.
    (
        ANY_OR_OPTIONAL,
        "r",
        &[
            ("<r><s/><zz/></r>", "impossible 0\n"),
            ("<r><s><u/></s></r>", "impossible 0.0\n"),
        ],
    ),
    (ENDLESS_IN_ANY, "a", &[("<a><c/></a>", "impossible 0\n")]),
    (
        ANY_OR_ENDLESS,
        "a",
        &[
            ("<a><b/></a>", "impossible 0\n"),
            ("<a><a/><c/></a>", "impossible 0\n"),
        ],
    ),
    // Roots that the DTD doesn't have, or only mentions.
    (TEXT, "p", &[("<p>x</p>", "impossible .\n")]),
    (ANY, "b", &[("<a/>", "impossible .\n")]),
    (MIXED_UNDECLARED, "b", &[("<b/>", "impossible .\n")]),
    ("", "a", &[("<a/>", "impossible .\n")]),
];

#[test]
fn possible_documents(rt: HostRuntime) -> Result<(), Fail> {
    check_lines(&rt, "check", Status::Done, &POSSIBLE)
}

#[test]
fn impossible_documents(rt: HostRuntime) -> Result<(), Fail> {
    check_lines(&rt, "check", Status::Negative, &IMPOSSIBLE)
}

// How often `em` stands inside itself, and how the run ends.
static DEPTHS: [(usize, Status, &str); 2] = [
    (512, Status::Done, "valid\n"),
    (513, Status::Limit, "limit depth 512\n"),
];

#[test]
fn depths(rt: HostRuntime) -> Result<(), Fail> {
    for (count, status, line) in &DEPTHS {
        let doc = nested(rt.alloc(), *count, "<em>", "", "</em>")?;
        check_rows(
            &rt,
            "check",
            &[(ARTICLE, "em", doc.as_str(), *status, *line)],
        )?;
    }
    Ok(())
}

const WORDS: &[&str] = &["check", "a.dtd", "doc", "d.xml"];

const FILES: &[(&str, &str)] = &[("a.dtd", ARTICLE), ("d.xml", "<doc>Hello</doc>")];

// The third call of an output that takes a byte at a time fails.
#[test]
fn a_failing_output(rt: HostRuntime) -> Result<(), Fail> {
    let given = Given {
        failing_puts: &[2],
        ..Given::plain(WORDS, FILES)
    };
    check_run(&rt, "the third put", &given, Status::WriteFault, b"po")
}

// No command, whatever the files are.
#[test]
fn words(rt: HostRuntime) -> Result<(), Fail> {
    let lines: [&[&str]; 2] = [&["check", "A"], &["check", "a.dtd", "1x", "d.xml"]];
    for words in lines {
        let given = Given::plain(words, FILES);
        check_run(&rt, "the words", &given, Status::Usage, b"usage\n")?;
    }
    Ok(())
}
