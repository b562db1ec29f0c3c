//! What stands at a place of a word, and over a span of it.

ghost use Rattle.std.specs.Prelude.{◌≡◌, ◌≤◌, ◌<◌, ◌↔◌, IsTrue, Some, length, map, slice_get, suc};
ghost use Rattle.pv_model.specs.Plain.{named, text};
ghost use Rattle.pv_model.specs.PlainForms.{plain_token};

use crate::models::{NameId, Token};

/// Whether a text stands at a place.
pub fn is_text_at(word: &[Token], place: u32) -> bool
    requires { place < length word.now }
    ensures { IsTrue result ↔ (slice_get (map plain_token word.now) place ≡ Some text) }
{
    word[place as usize] == Token::Text
}

/// Whether the tokens of a span are one element of a name.
pub fn is_element_over(word: &[Token], id: NameId, from: u32, to: u32) -> bool
    requires { (from ≤ to) × (to ≤ length word.now) }
    ensures { IsTrue result ↔ ((slice_get (map plain_token word.now) from ≡ Some (named id.0)) ×
        (to ≡ suc from)) }
{
    to - from == 1 && word[from as usize] == Token::Name(id)
}
