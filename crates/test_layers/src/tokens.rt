//! Words that are written as texts.

use pv_model::{NameId, Token};
use std::test::Fail;

// A letter is an element, `#` data, and `?` an element of a name that the DTD doesn't have.
fn token_of(byte: u8) -> Token {
    match byte {
        b'a' => Token::Name(NameId(1)),
        b'b' => Token::Name(NameId(2)),
        b'c' => Token::Name(NameId(3)),
        b'd' => Token::Name(NameId(4)),
        b'#' => Token::Text,
        _ => Token::Other,
    }
}

/// Puts the tokens of a text after a word.
pub fn push_tokens(word: &mut Vec<Token>, text: &str) -> Result<(), Fail> {
    for byte in text.bytes() {
        word.push(token_of(byte))?;
    }
    Ok(())
}
