//! Whether a word is one of a content particle.

ghost use Rattle.std.specs.Prelude.{◌≡◌, ◌↔◌, IsTrue, IfOk, map};
ghost use Rattle.pv_model.specs.Models.{IsOfChildren};
ghost use Rattle.pv_model.specs.Positions.{unreached_positions};
ghost use Rattle.pv_model.specs.PlainForms.{plain_part, plain_token};

use crate::long_words::has_long_word;
use crate::models::{NoMemory, Part, Token};
use crate::positions::{advance, may_be_empty, push_positions};
use crate::reach::Stop;
use std::alloc::Global;

/// Room for the positions of most particles, taken at once.
const POSITIONS_AT_ONCE: usize = 64;

/// For words of at least so many tokens a large particle is laid out. Laying it out takes as long
/// as some forty walks.
const MIN_LAID_TOKENS: usize = 64;

/// A large particle has at least so many positions.
pub const LARGE_PART: usize = 64;

/// Whether each token is an element, and their names are a word of the part.
pub fn has_children(alloc: Global, part: &Part, word: &[Token]) -> Result<bool, NoMemory>
    ensures { IfOk result
        (λ b. IsTrue b ↔ IsOfChildren (plain_part part.now) (map plain_token word.now)) }
{
    if word.is_empty() {
        return Ok(may_be_empty(part));
    }
    let mut positions = Vec::with_capacity(alloc, POSITIONS_AT_ONCE)?;
    push_positions(part, &mut positions)?;
    if positions.len() >= LARGE_PART && word.len() >= MIN_LAID_TOKENS {
        match has_long_word(alloc, part, word) {
            Ok(is_word) => return Ok(is_word),
            Err(Stop::NoMemory) => return Err(NoMemory),
            Err(Stop::TooMany) => {}
        }
    }
    Ok(walk(part, &mut positions, word))
}

/// Whether each token is an element, and their names are a word of the part, by a walk of the part
/// for each token, whatever its size.
pub fn has_children_by_walk(alloc: Global, part: &Part, word: &[Token]) -> Result<bool, NoMemory>
    ensures { IfOk result
        (λ b. IsTrue b ↔ IsOfChildren (plain_part part.now) (map plain_token word.now)) }
{
    let mut positions = Vec::new(alloc);
    push_positions(part, &mut positions)?;
    Ok(walk(part, &mut positions, word))
}

/// Whether the names of the tokens are a word of the part, by a walk of the part for each token.
/// The positions are those before the first name.
fn walk(part: &Part, positions: &mut [bool], word: &[Token]) -> bool
    requires { positions.old ≡ unreached_positions (plain_part part.now) }
    ensures { IsTrue result ↔ IsOfChildren (plain_part part.now) (map plain_token word.now) }
{
    let mut is_end = may_be_empty(part);
    let mut entered = true;
    for token in word {
        let Token::Name(name) = token else {
            return false;
        };
        let moved = advance(part, entered, *name, positions, 0);
        if !moved.is_reached {
            return false;
        }
        is_end = moved.is_end;
        entered = false;
    }
    is_end
}
