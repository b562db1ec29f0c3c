//! Words that are possible, and words that aren't.

ghost use Rattle.std.specs.Prelude.{◌≡◌, ◌<◌};

use crate::grammars::grammar_of;
use pv_missing::{Of, are_productive};
use pv_model::{NameId, Token};
use pv_productive::Grammar;
use pv_reach::{ReachError, possible};
use pv_steps::Steps;
use std::alloc::Global;
use std::marker::Brand;
use std::sync::ledger::{Blank, Ledger};
use std::test::Fail;
use test_fixture::dtds::{ANY_OR_OPTIONAL, ARTICLE, ENDLESS, LEADING_BACK, NESTED};

/// What `possible` answers, where its names are productive and the DTD has the owner's.
fn answer<L: Ledger>(
    alloc: Global,
    grammar: &Grammar,
    of: Of,
    word: &[Token],
    blank: Blank,
) -> Result<Option<bool>, ReachError>
    requires name { blank.name ≡ L.name }
    requires parts { blank.parts ≡ L.parts }
    requires some { 0 < L.parts }
{
    let mut steps = Steps::<L>::start(blank);
    let id = match of {
        Of::Root(id) => id,
        Of::Elem(id) => id,
    };
    if id.0 >= grammar.dtd().names() || !are_productive(grammar, word) {
        return Ok(None);
    }
    Ok(Some(possible(alloc, grammar, of, word, &mut steps)?))
}

// A DTD, the owner of a list, the word of its kids, and whether it is possible.
type Row = (&'static str, Of, &'static [Token], bool);

const DOC: Of = Of::Elem(NameId(0));

// The content of `br` by the article's DTD.
const BR: Of = Of::Elem(NameId(6));

const HEAD: Token = Token::Name(NameId(1));

const SEC: Token = Token::Name(NameId(2));

const TITLE: Token = Token::Name(NameId(3));

const P: Token = Token::Name(NameId(4));

// The name of number 1.
const SECOND: Token = Token::Name(NameId(1));

static WORDS: [Row; 9] = [
    (ARTICLE, DOC, &[Token::Text], true),
    (ARTICLE, DOC, &[P, TITLE], true),
    (ARTICLE, DOC, &[SEC, HEAD], false),
    (ARTICLE, Of::Root(NameId(0)), &[P], true),
    (ARTICLE, BR, &[], true),
    (ARTICLE, BR, &[Token::Text], false),
    (NESTED, Of::Elem(NameId(0)), &[SECOND, SECOND, SECOND], true),
    (ENDLESS, Of::Root(NameId(0)), &[], false),
    (
        ANY_OR_OPTIONAL,
        Of::Elem(NameId(0)),
        &[SECOND, Token::Other],
        false,
    ),
];

fn answer_by(alloc: Global, dtd: &str, of: Of, word: &[Token]) -> Result<Option<bool>, Fail> {
    let grammar = grammar_of(alloc, dtd)?;
    Ok(answer::<Brand>(alloc, &grammar, of, word, Blank::new(1))?)
}

#[test]
fn possible_words(rt: HostRuntime) -> Result<(), Fail> {
    for (dtd, of, word, wanted) in &WORDS {
        let answered = answer_by(rt.alloc(), *dtd, *of, *word)?;
        assert!(rt; answered == Some(*wanted), "{word:?} in {of:?} by {dtd}");
    }
    Ok(())
}

// Whether a word of so many names is possible: elements that lead back to themselves with others
// after them.
fn is_long_possible(alloc: Global, of: Of) -> Result<bool, Fail> {
    let word = vec![in alloc; Token::Name(NameId(2)); 20_000]?;
    Ok(answer_by(alloc, LEADING_BACK, of, &word)? == Some(true))
}

#[test]
fn long_words(rt: HostRuntime) -> Result<(), Fail> {
    assert!(rt; is_long_possible(rt.alloc(), Of::Elem(NameId(0)))?, "a");
    assert!(rt; is_long_possible(rt.alloc(), Of::Elem(NameId(3)))?, "d");
    Ok(())
}
