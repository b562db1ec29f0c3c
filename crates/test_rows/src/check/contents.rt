//! Contents that are free, the tokens that they take, and the words that contents derive.

use crate::grammars::grammar_of;
use pv_missing::{are_productive, is_narrow};
use pv_model::{NameId, Token};
use pv_productive::Grammar;
use pv_reach::{Judge, Plan, content_derives};
use std::alloc::Global;
use std::test::Fail;
use test_fixture::dtds::{ANY, ARTICLE};

// A DTD, the number of a name, a token, and whether the name's content takes it, where it is free.
type Row = (&'static str, u32, Token, Option<bool>);

const EM: Token = Token::Name(NameId(5));

const HEAD: Token = Token::Name(NameId(1));

const ITEM: Token = Token::Name(NameId(8));

static ROWS: [Row; 13] = [
    // `p` has mixed content.
    (ARTICLE, 4, Token::Text, Some(true)),
    (ARTICLE, 4, EM, Some(true)),
    (ARTICLE, 4, HEAD, Some(false)),
    (ARTICLE, 4, Token::Other, Some(false)),
    // In `list` items are missing round texts, in any number.
    (ARTICLE, 7, ITEM, Some(true)),
    (ARTICLE, 7, Token::Text, Some(true)),
    (ARTICLE, 7, HEAD, Some(false)),
    // `br` is empty.
    (ARTICLE, 6, Token::Text, Some(false)),
    // In `doc` a head stands before all else.
    (ARTICLE, 0, HEAD, None),
    // There are nine names.
    (ARTICLE, 9, Token::Text, None),
    (ANY, 0, Token::Text, Some(true)),
    (ANY, 0, Token::Name(NameId(0)), Some(true)),
    (ANY, 0, Token::Other, Some(false)),
];

fn taken_by(judge: &Judge<'_>, id: u32, token: Token) -> Option<bool> {
    let content = judge.free_content(NameId(id))?;
    Some(content.takes(token))
}

fn taken(alloc: Global, dtd: &str, id: u32, token: Token) -> Result<Option<bool>, Fail> {
    let grammar = grammar_of(alloc, dtd)?;
    let plan = Plan::of(alloc, &grammar)?;
    Ok(taken_by(&Judge::new(alloc, &grammar, &plan), id, token))
}

#[test]
fn tokens_taken(rt: HostRuntime) -> Result<(), Fail> {
    for (dtd, id, token, wanted) in &ROWS {
        let found = taken(rt.alloc(), *dtd, *id, *token)?;
        assert!(rt; found == *wanted, "{token:?} in {id} by {dtd}");
    }
    Ok(())
}

/// Whether a content derives a word, where this isn't too wide and its names are productive.
fn derives(judge: &Judge<'_>, id: u32, word: &[Token]) -> Result<Option<bool>, Fail> {
    let grammar = judge.grammar();
    if !is_narrow(grammar.dtd(), word.len() as u64) || !are_productive(grammar, word) {
        return Ok(None);
    }
    Ok(Some(content_derives(judge, NameId(id), word)?))
}

fn derives_by_plan(
    alloc: Global,
    grammar: &Grammar,
    id: u32,
    word: &[Token],
) -> Result<Option<bool>, Fail> {
    let plan = Plan::of(alloc, grammar)?;
    derives(&Judge::new(alloc, grammar, &plan), id, word)
}

/// Whether the content derives the two tokens, with a plan and without one.
fn derives_pair(
    alloc: Global,
    id: u32,
    first: Token,
    second: Token,
) -> Result<[Option<bool>; 2], Fail> {
    let grammar = grammar_of(alloc, ARTICLE)?;
    let planned = derives_by_plan(alloc, &grammar, id, &[first, second])?;
    let laid_anew = derives(&Judge::without_plan(alloc, &grammar), id, &[first, second])?;
    Ok([planned, laid_anew])
}

// A name's number, two tokens, and whether its content derives them.
static PAIRS: [(u32, Token, Token, bool); 5] = [
    (4, EM, Token::Text, true),
    (4, EM, HEAD, false),
    (7, ITEM, Token::Text, true),
    (0, HEAD, Token::Text, true),
    (0, ITEM, HEAD, false),
];

#[test]
fn words_derived(rt: HostRuntime) -> Result<(), Fail> {
    for (id, first, second, wanted) in &PAIRS {
        let found = derives_pair(rt.alloc(), *id, *first, *second)?;
        let wanted = Some(*wanted);
        assert!(rt;
            found == [wanted, wanted],
            "{first:?} and {second:?} in {id}"
        );
    }
    Ok(())
}
