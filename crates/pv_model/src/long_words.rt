//! Whether a word is one of a content particle that is laid out.

ghost use Rattle.std.specs.Prelude.{◌≡◌, ◌↔◌, IsTrue, IfOk, map};
ghost use Rattle.pv_model.specs.Models.{IsOfChildren};
ghost use Rattle.pv_model.specs.PlainForms.{plain_layout, plain_part, plain_token};
ghost use Rattle.pv_model.specs.LaidOut.{HasPlaces, HasTokens};
ghost use Rattle.pv_model.specs.Layouts.{has_empty_word};

use crate::layout::{ModelLayout, lay_out};
use crate::models::{Part, Token};
use crate::places::Places;
use crate::reach::{Stop, advance};
use std::alloc::Global;
use std::mem;

/// The pairs are walked while the names reach, on the whole, one place in so many or fewer. To find
/// a place among the pairs takes about as long as to walk over so many.
const PLACES_FOR_ONE: usize = 16;

/// So many places may be reached beyond that.
const PLACES_AT_ONCE: usize = 64;

/// Whether the part has the word, unless its names reach too many places.
pub fn has_long_word(alloc: Global, part: &Part, word: &[Token]) -> Result<bool, Stop>
    ensures { IfOk result
        (λ b. IsTrue b ↔ IsOfChildren (plain_part part.now) (map plain_token word.now)) }
{
    let mut places = Places::new(alloc);
    let layout = lay_out(alloc, part, &mut places)?;
    has_tokens(alloc, &layout, &places, layout.may_be_empty(), word)
}

/// Whether the particle that is laid out has the word, unless its names reach too many places.
pub fn has_tokens(
    alloc: Global,
    layout: &ModelLayout,
    places: &Places,
    may_be_empty: bool,
    word: &[Token],
) -> Result<bool, Stop>
    requires places { HasPlaces (plain_layout layout.now) places.now }
    requires empty_word { may_be_empty ≡ has_empty_word (plain_layout layout.now) }
    ensures { IfOk result
        (λ b. IsTrue b ↔ HasTokens (plain_layout layout.now) (map plain_token word.now)) }
{
    let mut reached = Vec::new(alloc);
    let mut next = Vec::new(alloc);
    let mut spare = PLACES_AT_ONCE;
    let mut entered = true;
    let mut is_end = may_be_empty;
    for token in word {
        let Token::Name(name) = token else {
            return Ok(false);
        };
        let called = places.of(name.0);
        spare = spare.saturating_add(places.count() / PLACES_FOR_ONE);
        let ends = advance(layout, entered, name.0, &reached, called, &mut next, spare)?;
        if next.is_empty() {
            return Ok(false);
        }
        spare = spare.saturating_sub(next.len());
        is_end = ends.is_end;
        entered = false;
        reached.clear();
        mem::swap(&mut reached, &mut next);
    }
    Ok(is_end)
}
