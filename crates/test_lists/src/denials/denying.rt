//! What denies documents, as text.

use crate::calls::{Texts, grammar_of};
use crate::denials::calls::{PAIR, TURNED, judged};
use pv_denial::{Denial, Judged};
use pv_denial_text::write_denial;
use pv_deny::{DenyError, denial_by, deny};
use pv_fresh::{PossibleError, possible_verdicts};
use pv_productive::Grammar;
use pv_reach::{Judge, Plan};
use pv_tree::Doc;
use std::alloc::Global;
use std::test::Fail;
use test_fixture::documents::document_of;
use test_fixture::dtds::ARTICLE;

/// What denies the pair the wrong way round.
const TURNED_TEXT: &str = "pvdeny 1\nlist 0\ncause word\nc 0 1 2 2\nc 1 0 1 2\nc 2 0 1 2\n\
    n 0 1 2 2\nn 1 0 2 2\nn 2 1 1 2\np 0 1 2 2\np 1 0 2 2\np 2 1 1 2\ns 1 1 2 2\ns 2 1 1 2\nend\n";

/// What denies documents: a blank and a comment in an empty element, a root that isn't productive,
/// and one that isn't declared.
static DENIED: [(Texts, &str); 5] = [
    (TURNED, TURNED_TEXT),
    (
        (
            ARTICLE,
            "doc",
            "<doc><head/><sec><p><br> </br></p></sec></doc>",
        ),
        "pvdeny 1\nlist 0.1.0.0\ncause empty\nend\n",
    ),
    (
        (PAIR, "r", "<r><a><!--c--></a><b/></r>"),
        "pvdeny 1\nlist 0.0\ncause empty\nend\n",
    ),
    (
        ("<!ELEMENT a (a)>", "a", "<a><a/></a>"),
        "pvdeny 1\nlist .\ncause unproductive\nend\n",
    ),
    (
        (PAIR, "z", "<z/>"),
        "pvdeny 1\nlist .\ncause undeclared\nend\n",
    ),
];

fn denial_of(alloc: Global, texts: Texts) -> Result<Denial, Fail> {
    let (dtd, root, text) = texts;
    let grammar = grammar_of(alloc, dtd)?;
    let doc = document_of(alloc, text, root)?;
    Ok(deny(alloc, &grammar, root.as_bytes(), &doc)?)
}

/// Whether this is written of a denial.
fn is_text(alloc: Global, denial: &Denial, text: &str) -> Result<bool, Fail> {
    Ok(write_denial(alloc, denial)?.as_slice() == text.as_bytes())
}

/// Whether this is written of a document's denial, and the judge accepts it.
fn is_denied_by(alloc: Global, texts: Texts, text: &str) -> Result<bool, Fail> {
    let denial = denial_of(alloc, texts)?;
    Ok(judged(alloc, texts, &denial)? == Judged::Denied && is_text(alloc, &denial, text)?)
}

#[test]
fn denied_documents(rt: HostRuntime) -> Result<(), Fail> {
    for (texts, text) in &DENIED {
        assert!(rt; is_denied_by(rt.alloc(), *texts, *text)?, "{text}");
    }
    Ok(())
}

/// A word for what comes of a document.
fn word_of(denied: Result<Denial, DenyError>) -> &'static str {
    match denied {
        Ok(_denial) => "denied",
        Err(DenyError::TooWide(_path)) => "too wide",
        Err(DenyError::Possible) => "possible",
        Err(DenyError::TooMany) => "too many",
        Err(DenyError::NoMemory) => "no memory",
    }
}

fn outcome_of(alloc: Global, text: &str) -> Result<&'static str, Fail> {
    let grammar = grammar_of(alloc, ARTICLE)?;
    let doc = document_of(alloc, text, "doc")?;
    Ok(word_of(deny(alloc, &grammar, b"doc", &doc)))
}

/// Articles, and what comes of them.
static OUTCOMES: [(&str, &str); 2] = [
    ("<doc>Hello</doc>", "possible"),
    ("<doc><sec/><head/></doc>", "denied"),
];

#[test]
fn outcomes(rt: HostRuntime) -> Result<(), Fail> {
    for (text, word) in &OUTCOMES {
        assert_eq!(rt; outcome_of(rt.alloc(), *text)?, *word, "{text}");
    }
    Ok(())
}

/// The denial of a document by the plan of its grammar, made after a check that found its first
/// impossible list.
fn denied_by_judge(judge: &Judge<'_>, root: &[u8], doc: &Doc) -> Result<Denial, Fail> {
    match possible_verdicts(judge.alloc(), judge.grammar(), root, doc) {
        Err(PossibleError::Impossible(path)) => Ok(denial_by(judge, root, doc, path)?),
        Err(PossibleError::TooWide(_path)) => Err(Fail::new("too wide")),
        Err(PossibleError::NoMemory) => Err(Fail::new("no memory")),
        Ok(_verdicts) => Err(Fail::new("possible")),
    }
}

fn denied_by_plan(
    alloc: Global,
    grammar: &Grammar,
    root: &[u8],
    doc: &Doc,
) -> Result<Denial, Fail> {
    let plan = Plan::of(alloc, grammar)?;
    let judge = Judge::new(alloc, grammar, &plan);
    denied_by_judge(&judge, root, doc)
}

fn is_denied_by_plan(alloc: Global, texts: Texts, text: &str) -> Result<bool, Fail> {
    let (dtd, root, doc) = texts;
    let grammar = grammar_of(alloc, dtd)?;
    let doc = document_of(alloc, doc, root)?;
    let root = root.as_bytes();
    let denial = denied_by_plan(alloc, &grammar, root, &doc)?;
    is_text(alloc, &denial, text)
}

#[test]
fn denied_behind_a_check(rt: HostRuntime) -> Result<(), Fail> {
    assert!(rt; is_denied_by_plan(rt.alloc(), TURNED, TURNED_TEXT)?);
    Ok(())
}
