//! Sets of tokens as rows of words, and how far a word stays in one.

ghost use Rattle.std.specs.Prelude.{◌≡◌, ◌≤◌, ◌<◌, ◌+◌, ◌^◌, ◌↔◌, IsTrue, length};
ghost use Rattle.pv_columns.specs.Tokens.{IsInRow, IsRun, token_number};

use pv_model::Token;

/// The number of a token.
pub fn token_number(token: Token) -> u64
    ensures number { result ≡ token_number token }
    ensures small { result < 2 ^ 33 }
{
    match token {
        Token::Other => 0,
        Token::Text => 1,
        Token::Name(id) => id.0 as u64 + 2,
    }
}

/// Whether a token is in a set.
pub fn has(row: &[u64], token: Token) -> bool
    ensures { IsTrue result ↔ IsInRow row.now token }
{
    let number = token_number(token);
    let index = (number / 64) as usize;
    if index < row.len() {
        (row[index] >> (number % 64)) & 1 == 1
    } else {
        false
    }
}

/// The first place from `start` on whose token isn't in the set, or the end of the word.
pub fn run(row: &[u64], word: &[Token], start: usize) -> usize
    requires { start ≤ length word.now }
    ensures { IsRun row.now word.now start result }
{
    for place in start..word.len() {
        if !has(row, word[place]) {
            return place;
        }
    }
    word.len()
}
