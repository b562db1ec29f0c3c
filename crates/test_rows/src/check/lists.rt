//! The verdict of one list.

ghost use Rattle.std.specs.Prelude.{◌≡◌, ◌<◌};

use crate::grammars::grammar_of;
use pv_missing::Of;
use pv_model::NameId;
use pv_productive::Grammar;
use pv_reach::{ReachError, list_verdict};
use pv_steps::Steps;
use pv_tree::{Node, Verdict};
use std::alloc::Global;
use std::marker::Brand;
use std::sync::ledger::{Blank, Ledger};
use std::test::Fail;
use test_fixture::documents::{document_of, kids_of};
use test_fixture::dtds::ARTICLE;

/// The verdict of a list, where the DTD has the owner's name.
fn verdict<L: Ledger>(
    alloc: Global,
    grammar: &Grammar,
    owner: u32,
    kids: &[Node],
    blank: Blank,
) -> Result<Verdict, ReachError>
    requires name { blank.name ≡ L.name }
    requires parts { blank.parts ≡ L.parts }
    requires some { 0 < L.parts }
{
    let mut steps = Steps::<L>::start(blank);
    let of = (owner < grammar.dtd().names()).then_some(Of::Elem(NameId(owner)));
    list_verdict(alloc, grammar, of, kids, &mut steps)
}

// The owner's number by the article's DTD, which has nine names, a document whose root has the
// kids, and their verdict.
static ROWS: [(u32, &str, Verdict); 7] = [
    (6, "<x></x>", Verdict::Valid),
    (9, "<x></x>", Verdict::Impossible),
    (6, "<x><!----></x>", Verdict::Impossible),
    (2, "<x><!----></x>", Verdict::Valid),
    (0, "<x><!----><sec/><p/></x>", Verdict::Possible),
    (2, "<x><!----><sec/><p/></x>", Verdict::Impossible),
    (0, "<x><!----><sec/><p/><q/></x>", Verdict::Impossible),
];

fn verdict_of(alloc: Global, owner: u32, text: &str) -> Result<Verdict, Fail> {
    let grammar = grammar_of(alloc, ARTICLE)?;
    let doc = document_of(alloc, text, "x")?;
    Ok(verdict::<Brand>(alloc, &grammar, owner, kids_of(&doc)?, Blank::new(1))?)
}

#[test]
fn verdicts_of_lists(rt: HostRuntime) -> Result<(), Fail> {
    for (owner, text, wanted) in &ROWS {
        assert!(rt;
            verdict_of(rt.alloc(), *owner, *text)? == *wanted,
            "{text} in {owner}"
        );
    }
    Ok(())
}
