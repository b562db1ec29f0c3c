//! Matches of words that change, each against the match of the whole word.

use crate::rematch::changes::{Change, changed, random_change};
use crate::rematch::models::{BOARDS, Board, model_of, with_model};
use crate::rematch::random::Random;
use crate::tokens::push_tokens;
use pv_model::{LaidModel, Token};
use pv_rematch::{Turn, WordChange, WordMatch};
use std::alloc::Global;
use std::test::Fail;

/// The names `m`, `a`, `b` and `c`.
const DECLARED: u32 = 4;

/// A word is changed so often.
const ROUNDS: usize = 60;

fn expect_allowed(
    alloc: Global,
    model: &LaidModel,
    word: &[Token],
    told: bool,
) -> Result<(), Fail> {
    if model.allows(alloc, DECLARED, word)? != told {
        return Err(Fail::new("the match of the whole word has another answer"));
    }
    Ok(())
}

// What a change makes of a word.
#[derive(Drop)]
struct Found {
    turn: Turn,
    after: Vec<Token>,
    gone: Vec<Token>,
}

// The turn of a change tells of the word after; the match still tells of the word.
fn find(
    alloc: Global,
    model: &LaidModel,
    word_match: &WordMatch,
    word: &[Token],
    change: &Change,
) -> Result<Found, Fail> {
    let (after, gone) = changed(alloc, word, change)?;
    let came = change.came.len();
    if change.from > after.len() || came > after.len() - change.from {
        return Err(Fail::new("a change outside its word"));
    }
    let word_change = WordChange {
        word: &after,
        from: change.from,
        gone: &gone,
        came,
    };
    let turn = word_match.turn(alloc, model, DECLARED, &word_change)?;
    expect_allowed(alloc, model, &after, turn.is_allowed())?;
    expect_allowed(alloc, model, word, word_match.is_allowed())?;
    Ok(Found { turn, after, gone })
}

// Changes a word back.
fn take_back(
    alloc: Global,
    model: &LaidModel,
    word_match: &mut WordMatch,
    word: &mut Vec<Token>,
    back: &Change,
) -> Result<(), Fail> {
    let found = find(alloc, model, word_match, word, back)?;
    word_match.make(found.turn);
    *word = found.after;
    expect_allowed(alloc, model, word, word_match.is_allowed())
}

// Changes a word once, or finds what a change makes of it and leaves it.
fn change_once(
    alloc: Global,
    random: &mut Random,
    board: &Board,
    model: &LaidModel,
    word_match: &mut WordMatch,
    word: &mut Vec<Token>,
) -> Result<(), Fail> {
    let change = random_change(alloc, random, board, word.len())?;
    let found = find(alloc, model, word_match, word, &change)?;
    let kind = random.below(4);
    if kind == 0 {
        return Ok(());
    }
    word_match.make(found.turn);
    *word = found.after;
    expect_allowed(alloc, model, word, word_match.is_allowed())?;
    if kind != 1 {
        return Ok(());
    }
    let back = Change {
        from: change.from,
        gone: change.came.len(),
        came: found.gone,
    };
    take_back(alloc, model, word_match, word, &back)
}

// Changes a word, or finds what a change makes of it and leaves it; some changes are taken back.
fn play(
    alloc: Global,
    random: &mut Random,
    board: &Board,
    model: &LaidModel,
    mut word: Vec<Token>,
) -> Result<(), Fail> {
    let mut word_match = WordMatch::of(alloc, model, DECLARED, &word)?;
    expect_allowed(alloc, model, &word, word_match.is_allowed())?;
    for _ in 0..ROUNDS {
        change_once(alloc, random, board, model, &mut word_match, &mut word)?;
    }
    Ok(())
}

// A game from a word of so many pieces.
fn game(alloc: Global, board: &Board, seed: u32, pieces: usize) -> Result<(), Fail> {
    let dtd = with_model(alloc, board.model)?;
    let model = model_of(&dtd)?;
    let mut random = Random { state: seed };
    let mut word = Vec::new(alloc);
    for _ in 0..pieces {
        push_tokens(&mut word, *random.pick(board.pieces)?)?;
    }
    play(alloc, &mut random, board, model, word)
}

#[test]
fn changes_of_short_words(rt: HostRuntime) -> Result<(), Fail> {
    for board in &BOARDS {
        for seed in 0..4 {
            game(rt.alloc(), board, seed, 5)?;
        }
    }
    Ok(())
}

#[test]
fn changes_of_long_words(rt: HostRuntime) -> Result<(), Fail> {
    for board in &BOARDS {
        for seed in 4..6 {
            game(rt.alloc(), board, seed, 400)?;
        }
    }
    Ok(())
}

fn tokens_of(alloc: Global, piece: &str) -> Result<Vec<Token>, Fail> {
    let mut tokens = Vec::new(alloc);
    push_tokens(&mut tokens, piece)?;
    Ok(tokens)
}

// Puts a piece at the front of a word, which is allowed or not.
fn put_at_the_front(
    alloc: Global,
    model: &LaidModel,
    word_match: &mut WordMatch,
    word: &mut Vec<Token>,
    piece: &str,
    allowed: bool,
) -> Result<(), Fail> {
    let change = Change {
        from: 0,
        gone: 0,
        came: tokens_of(alloc, piece)?,
    };
    let found = find(alloc, model, word_match, word, &change)?;
    if found.turn.is_allowed() != allowed {
        return Err(Fail::new("allowed though `c` isn't first, or not though it is"));
    }
    word_match.make(found.turn);
    *word = found.after;
    Ok(())
}

fn put_many_at_the_front(alloc: Global, model: &LaidModel) -> Result<(), Fail> {
    let mut word: Vec<Token> = Vec::new(alloc);
    let mut word_match = WordMatch::of(alloc, model, DECLARED, &word)?;
    for number in 0..1500 {
        let piece = if number == 700 { "c" } else { "b" };
        put_at_the_front(
            alloc,
            model,
            &mut word_match,
            &mut word,
            piece,
            number < 701,
        )?;
    }
    Ok(())
}

// Each change at the front of a word that grows is found.
#[test]
fn many_at_the_front(rt: HostRuntime) -> Result<(), Fail> {
    let dtd = with_model(rt.alloc(), "(c?, (a | b)*)")?;
    put_many_at_the_front(rt.alloc(), model_of(&dtd)?)
}
