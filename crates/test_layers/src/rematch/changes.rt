//! Changes of a word, at random.

use crate::rematch::models::Board;
use crate::rematch::random::Random;
use crate::tokens::push_tokens;
use pv_model::Token;
use std::alloc::Global;
use std::test::Fail;

/// So many tokens from a place on give way to others.
#[derive(Drop)]
pub struct Change {
    pub from: usize,
    pub gone: usize,
    pub came: Vec<Token>,
}

/// A change of a word of so many tokens: at its front, at its end or anywhere, of few tokens or of
/// many; mostly to what the model may go on with.
pub fn random_change(
    alloc: Global,
    random: &mut Random,
    board: &Board,
    count: usize,
) -> Result<Change, Fail> {
    let from = match random.below(6) {
        0 => 0,
        1 => count,
        _ => random.below(count.saturating_add(1)),
    };
    let most = if random.below(12) == 0 { 300 } else { 4 };
    let room = count.saturating_sub(from);
    let gone = random.below(most).min(room);
    let mut came = Vec::new(alloc);
    let pieces = if random.below(9) == 0 {
        board.others
    } else {
        board.pieces
    };
    for _ in 0..random.below(most) {
        push_tokens(&mut came, *random.pick(pieces)?)?;
    }
    Ok(Change { from, gone, came })
}

/// The word after the change, and what is gone.
pub fn changed(
    alloc: Global,
    word: &[Token],
    change: &Change,
) -> Result<(Vec<Token>, Vec<Token>), Fail> {
    let end = change.from.saturating_add(change.gone);
    let mut after = Vec::new(alloc);
    let mut gone = Vec::new(alloc);
    for (place, token) in word.iter().enumerate() {
        if place == change.from {
            after.extend_from_slice(&change.came)?;
        }
        if place >= change.from && place < end {
            gone.push(*token)?;
        } else {
            after.push(*token)?;
        }
    }
    if change.from >= word.len() {
        after.extend_from_slice(&change.came)?;
    }
    Ok((after, gone))
}
