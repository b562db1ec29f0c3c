//! Least completions of documents.

use crate::calls::{Texts, grammar_of};
use pv_complete::{Completion, complete};
use pv_productive::Grammar;
use pv_read::read_doc;
use std::alloc::Global;
use std::test::Fail;
use test_fixture::dtds::{ARTICLE, NESTED};

const ONE: &str = "<!ELEMENT a (b)><!ELEMENT b EMPTY>";

/// Documents, and the bodies and marks of their completions, of which there is one each.
pub static COMPLETED: [(Texts, &str, &[u32]); 7] = [
    ((ONE, "a", "<a/>"), "<a><b></b></a>", &[1]),
    (
        (NESTED, "x", "<x><y/><y/><y/></x>"),
        "<x><x><x><x></x><y/></x><y/></x><y/></x>",
        &[1, 2, 3],
    ),
    (
        (ARTICLE, "doc", "<doc/>"),
        "<doc><head></head><sec></sec></doc>",
        &[1, 2],
    ),
    (
        (
            ARTICLE,
            "doc",
            "<!--c-->\n<doc ><head >a</head><!--d--><em>b</em></doc >\n",
        ),
        "<!--c-->\n<doc ><head >a</head><sec><p><!--d--><em>b</em></p></sec></doc >\n",
        &[2, 3],
    ),
    (
        (
            ARTICLE,
            "doc",
            "<doc><head/><sec><list><item/><item/></list></sec></doc>",
        ),
        "<doc><head/><sec><list><item><p></p></item><item><p></p></item></list></sec></doc>",
        &[5, 7],
    ),
    (
        (ARTICLE, "doc", "<p>a</p>"),
        "<doc><head></head><sec><p>a</p></sec></doc>",
        &[0, 1, 2],
    ),
    (
        (
            ARTICLE,
            "doc",
            "<doc id='d'><head/><sec> <!--c--><p>a<br />b</p ></sec></doc>",
        ),
        "<doc id='d'><head/><sec> <!--c--><p>a<br />b</p ></sec></doc>",
        &[],
    ),
];

/// A least completion of a document.
pub fn completion_of(
    alloc: Global,
    grammar: &Grammar,
    root: &str,
    text: &str,
) -> Result<Completion, Fail> {
    let root = root.as_bytes();
    let doc = read_doc(alloc, text.as_bytes(), root)?;
    Ok(complete(alloc, grammar, root, &doc)?)
}

// Whether a completion has this body and these marks.
fn is_so(completion: &Completion, body: &str, marks: &[u32]) -> bool {
    completion.count == marks.len() as u64
        && completion.marks.as_slice() == marks
        && completion.body.as_slice() == body.as_bytes()
}

fn completes_so(alloc: Global, texts: Texts, body: &str, marks: &[u32]) -> Result<bool, Fail> {
    let (dtd, root, text) = texts;
    let grammar = grammar_of(alloc, dtd)?;
    let completion = completion_of(alloc, &grammar, root, text)?;
    Ok(is_so(&completion, body, marks))
}

#[test]
fn completed(rt: HostRuntime) -> Result<(), Fail> {
    for (texts, body, marks) in &COMPLETED {
        assert!(rt; completes_so(rt.alloc(), *texts, *body, *marks)?, "{body}");
    }
    Ok(())
}
