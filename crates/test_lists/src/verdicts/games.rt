//! Words that change at random.

ghost use Rattle.std.specs.Prelude.{◌≡◌, ◌<◌};

use crate::calls::grammar_of;
use crate::verdicts::changing::{make_change, spliced};
use crate::verdicts::last::judge_by;
use crate::verdicts::random::Random;
use pv_missing::Of;
use pv_model::{NameId, Token};
use pv_productive::Grammar;
use pv_reach::{Judge, Plan};
use pv_rematch::WordChange;
use pv_steps::Steps;
use pv_verdicts::{Judged, LastWord};
use std::alloc::{AllocError, Global};
use std::marker::Brand;
use std::sync::ledger::{Blank, Ledger};
use std::test::Fail;
use test_fixture::dtds::{ANY_OR_ENDLESS, ARTICLE, LEADING_BACK, MIXED, NESTED};

/// A token, mostly a name.
fn token(random: &mut Random, names: u32) -> Token {
    match random.below(16) {
        0 => Token::Other,
        1 | 2 | 3 => Token::Text,
        _ => Token::Name(NameId(random.below(names))),
    }
}

/// At most three tokens.
fn tokens(alloc: Global, random: &mut Random, names: u32) -> Result<Vec<Token>, AllocError> {
    let mut tokens = Vec::new(alloc);
    for _ in 0..random.below(4) {
        tokens.push(token(random, names))?;
    }
    Ok(tokens)
}

/// How often a word changes.
const CHANGES: u32 = 24;

/// So many tokens a word has at first: more than stand before the first point of a match.
const TOKENS: u32 = 100;

/// A word of so many tokens.
fn long_word(alloc: Global, random: &mut Random, names: u32) -> Result<Vec<Token>, AllocError> {
    let mut tokens = Vec::new(alloc);
    for _ in 0..TOKENS {
        tokens.push(token(random, names))?;
    }
    Ok(tokens)
}

/// Changes a word.
fn play<L: Ledger>(
    judge: &Judge<'_>,
    owner: Option<Of>,
    random: &mut Random,
    steps: &mut Steps<L>,
) -> Result<(), Fail> {
    let names = judge.grammar().dtd().names();
    let mut word = long_word(judge.alloc(), random, names)?;
    let mut judged = Judged::of(judge, owner, word.as_slice())?;
    let mut last = LastWord::of(judge, owner, word.as_slice())?;
    for number in 0..CHANGES {
        let from = (random.below(128) as usize).min(word.len());
        let to = (from + random.below(4) as usize).min(word.len());
        let came = tokens(judge.alloc(), random, names)?;
        let after = spliced(judge.alloc(), word.as_slice(), from, to, came.as_slice())?;
        let change = WordChange {
            word: after.as_slice(),
            from,
            gone: &word[from..to],
            came: came.len(),
        };
        make_change(judge, owner, &mut judged, &change, number % 2 == 0, steps)?;
        last = judge_by(judge, owner, last, &change, number % 3 == 0, steps)?;
        word = after;
    }
    Ok(())
}

/// Words of all owners: of the document node, of elements of each name, of one that the DTD doesn't
/// have, and of none.
fn play_all<L: Ledger>(
    judge: &Judge<'_>,
    random: &mut Random,
    steps: &mut Steps<L>,
) -> Result<(), Fail> {
    play(judge, None, random, steps)?;
    play(judge, Some(Of::Root(NameId(0))), random, steps)?;
    for number in 0..=judge.grammar().dtd().names() {
        play(judge, Some(Of::Elem(NameId(number))), random, steps)?;
    }
    Ok(())
}

/// Plays words of all owners by a grammar, with its rules laid out and without.
fn play_by<L: Ledger>(alloc: Global, grammar: &Grammar, blank: Blank) -> Result<(), Fail>
    requires name { blank.name ≡ L.name }
    requires parts { blank.parts ≡ L.parts }
    requires some { 0 < L.parts }
{
    let mut steps = Steps::<L>::start(blank);
    let mut random = Random { state: 7 };
    let plan = Plan::of(alloc, grammar)?;
    let planned = Judge::new(alloc, grammar, &plan);
    play_all(&planned, &mut random, &mut steps)?;
    let bare = Judge::without_plan(alloc, grammar);
    play_all(&bare, &mut random, &mut steps)
}

fn play_dtd(alloc: Global, dtd: &str) -> Result<(), Fail> {
    let grammar = grammar_of(alloc, dtd)?;
    play_by::<Brand>(alloc, &grammar, Blank::new(1))
}

static DTDS: [&str; 5] = [ARTICLE, MIXED, ANY_OR_ENDLESS, LEADING_BACK, NESTED];

#[test]
fn random_words(rt: HostRuntime) -> Result<(), Fail> {
    for dtd in &DTDS {
        play_dtd(rt.alloc(), *dtd)?;
    }
    Ok(())
}
