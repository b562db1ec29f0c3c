//! The verdicts of a document, one by one, and live words.

ghost use Rattle.std.specs.Prelude.{◌≡◌, ◌<◌};

use crate::grammars::grammar_of;
use pv_fresh::check_doc;
use pv_missing::{Verdicts, live_word};
use pv_model::{NameId, Token};
use pv_steps::Steps;
use pv_tree::{Doc, Verdict};
use std::alloc::Global;
use std::marker::Brand;
use std::sync::ledger::{Blank, Ledger};
use std::test::Fail;
use test_fixture::documents::{document_of, kids_of};
use test_fixture::dtds::{ANY_OR_ENDLESS, ARTICLE};

// The verdicts of a document by the article's DTD.
fn verdicts_of<L: Ledger>(alloc: Global, doc: &Doc, blank: Blank) -> Result<Verdicts, Fail>
    requires name { blank.name ≡ L.name }
    requires parts { blank.parts ≡ L.parts }
    requires some { 0 < L.parts }
{
    let grammar = grammar_of(alloc, ARTICLE)?;
    let mut steps = Steps::<L>::start(blank);
    Ok(check_doc(alloc, &grammar, b"doc", doc, &mut steps)?)
}

fn verdicts_of_text(alloc: Global, text: &str) -> Result<Verdicts, Fail> {
    let doc = document_of(alloc, text, "doc")?;
    verdicts_of::<Brand>(alloc, &doc, Blank::new(1))
}

// How many lists a document has, how many of them are Possible, and whether one is impossible.
fn counts_of(alloc: Global, text: &str) -> Result<(u64, u64, bool), Fail> {
    let verdicts = verdicts_of_text(alloc, text)?;
    Ok((
        verdicts.len(),
        verdicts.left(),
        verdicts.first_impossible().is_some(),
    ))
}

fn verdict_at(alloc: Global, text: &str, number: u64) -> Result<Option<Verdict>, Fail> {
    Ok(verdicts_of_text(alloc, text)?.at(number))
}

const TEXT: &str = "<doc>x<em/><sec><title/></sec></doc>";

// Numbers of its lists, and their verdicts.
static VERDICTS: [(u64, Option<Verdict>); 4] = [
    (0, Some(Verdict::Valid)),
    (1, Some(Verdict::Possible)),
    (4, Some(Verdict::Valid)),
    (5, None),
];

#[test]
fn verdicts_of_a_document(rt: HostRuntime) -> Result<(), Fail> {
    assert!(rt; counts_of(rt.alloc(), TEXT)? == (5, 1, false));
    for (number, wanted) in &VERDICTS {
        assert!(rt;
            verdict_at(rt.alloc(), TEXT, *number)? == *wanted,
            "list {number}"
        );
    }
    Ok(())
}

static LIVE: [Token; 4] = [
    Token::Text,
    Token::Name(NameId(0)),
    Token::Other,
    Token::Other,
];

fn has_live_word(alloc: Global, text: &str, live: &[Token]) -> Result<bool, Fail> {
    let grammar = grammar_of(alloc, ANY_OR_ENDLESS)?;
    let doc = document_of(alloc, text, "a")?;
    Ok(live_word(alloc, &grammar, kids_of(&doc)?)?.as_slice() == live)
}

// Names that aren't productive have no place in a live word.
#[test]
fn live_words(rt: HostRuntime) -> Result<(), Fail> {
    assert!(rt; has_live_word(rt.alloc(), "<a>x<a/> <c/><z/></a>", &LIVE)?);
    Ok(())
}
