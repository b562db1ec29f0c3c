//! Changes whose verdicts are known.

ghost use Rattle.std.specs.Prelude.{◌≡◌, ◌<◌};

use crate::calls::grammar_of;
use crate::verdicts::changing::{make_change, spliced};
use pv_missing::Of;
use pv_model::{NameId, Token};
use pv_reach::{Judge, Plan};
use pv_rematch::WordChange;
use pv_steps::Steps;
use pv_tree::Verdict;
use pv_verdicts::Judged;
use std::alloc::Global;
use std::marker::Brand;
use std::sync::ledger::{Blank, Ledger};
use std::test::Fail;
use test_fixture::dtds::ARTICLE;

const HEAD: Token = Token::Name(NameId(1));

const SEC: Token = Token::Name(NameId(2));

const TITLE: Token = Token::Name(NameId(3));

const P: Token = Token::Name(NameId(4));

const EM: Token = Token::Name(NameId(5));

// The number of the owner's name by the article's DTD, its word, the places from which and up to
// which others come, these, and the verdict of the word after that.
type Row = (
    u32,
    &'static [Token],
    usize,
    usize,
    &'static [Token],
    Verdict,
);

static ROWS: [Row; 8] = [
    (0, &[HEAD, SEC], 1, 2, &[P], Verdict::Possible),
    (0, &[HEAD, P], 1, 2, &[SEC, SEC], Verdict::Valid),
    (0, &[HEAD, SEC], 0, 0, &[SEC], Verdict::Impossible),
    (4, &[Token::Text, EM], 1, 1, &[Token::Text], Verdict::Valid),
    (4, &[Token::Text, EM], 1, 2, &[TITLE], Verdict::Impossible),
    (4, &[Token::Text, TITLE, EM], 1, 2, &[], Verdict::Valid),
    (6, &[], 0, 0, &[EM], Verdict::Impossible),
    (2, &[TITLE, P], 1, 1, &[Token::Other], Verdict::Impossible),
];

// The verdict after the change of a row, as the judge finds it.
fn verdict_by<L: Ledger>(
    judge: &Judge<'_>,
    row: &Row,
    steps: &mut Steps<L>,
) -> Result<Verdict, Fail> {
    let (owner, word, from, to, came, _) = row;
    if from > to || *to > word.len() {
        return Err(Fail::new("no such places"));
    }
    let owner = Some(Of::Elem(NameId(*owner)));
    let mut judged = Judged::of(judge, owner, *word)?;
    let after = spliced(judge.alloc(), *word, *from, *to, *came)?;
    let change = WordChange {
        word: after.as_slice(),
        from: *from,
        gone: &word[*from..*to],
        came: came.len(),
    };
    make_change(judge, owner, &mut judged, &change, false, steps)
}

// The verdict of a row by the article's grammar.
fn verdict_of<L: Ledger>(alloc: Global, row: &Row, blank: Blank) -> Result<Verdict, Fail>
    requires name { blank.name ≡ L.name }
    requires parts { blank.parts ≡ L.parts }
    requires some { 0 < L.parts }
{
    let mut steps = Steps::<L>::start(blank);
    let grammar = grammar_of(alloc, ARTICLE)?;
    let plan = Plan::of(alloc, &grammar)?;
    let judge = Judge::new(alloc, &grammar, &plan);
    verdict_by(&judge, row, &mut steps)
}

#[test]
fn verdicts_after_changes(rt: HostRuntime) -> Result<(), Fail> {
    for row in &ROWS {
        assert!(rt;
            verdict_of::<Brand>(rt.alloc(), row, Blank::new(1))? == row.5,
            "{}",
            row.0
        );
    }
    Ok(())
}
