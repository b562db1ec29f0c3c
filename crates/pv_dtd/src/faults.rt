//! Faults that are found before an item is read: references of parameter entities, and too many
//! open parentheses.

ghost use Rattle.std.specs.Prelude.{◌≡◌, is_some};
ghost use Rattle.std.specs.Option.{option_map};
ghost use Rattle.pv_dtd.specs.ItemReading.{declaration_word, inner_parameter_at, parameter_at};
ghost use Rattle.pv_dtd.specs.ItemReading.{opens_too_many, is_too_deep};

use crate::declarations::skipped_word;
use crate::fronts::after_stop;
use crate::models::MAX_NESTING;
use pv_chars::scan::after_bytes;

// What stands after the word of a declaration.
#[tactic(auto, unfolding(crate::specs::ItemReading::declaration_word, crate::specs::ItemReading::or_else))]
fn declaration_word(bytes: &[u8]) -> Option<&[u8]>
    ensures word { option_map (λ r. r.now) result ≡ declaration_word bytes.now }
{
    after_bytes(b"<!ELEMENT", bytes).or(skipped_word(bytes))
}

#[tactic(auto, unfolding(crate::specs::ItemReading::inner_parameter_at))]
fn inner_parameter_at(bytes: &[u8]) -> Option<&[u8]>
    ensures { option_map (λ r. r.now) result ≡ inner_parameter_at bytes.now }
{
    let inside = declaration_word(bytes)?;
    after_stop(b'%', b">%", inside)
}

/// Whether a reference of a parameter entity or a conditional section stands in front, or a `%`
/// outside quotes in a declaration.
#[tactic(auto, unfolding(crate::specs::ItemReading::parameter_at, crate::specs::ItemReading::or_else))]
pub fn has_parameter(place: &[u8]) -> bool
    ensures { result ≡ is_some (parameter_at place.now) }
{
    after_bytes(b"%", place)
        .or(after_bytes(b"<![", place))
        .or(inner_parameter_at(place))
        .is_some()
}

// Whether more than 64 parentheses are open somewhere before the first `>`.
fn opens_too_many(bytes: &[u8]) -> bool
    ensures { result ≡ opens_too_many 0 0 bytes.now }
{
    let mut opened: usize = 0;
    let mut closed: usize = 0;
    for b in bytes {
        if opened > closed + MAX_NESTING {
            return true;
        }
        match *b {
            b'>' => return false,
            b'(' => opened += 1,
            b')' => closed += 1,
            _ => {}
        }
    }
    opened > closed + MAX_NESTING
}

/// Whether an element declaration's word stands in front, and more than 64 parentheses are open
/// somewhere before its first `>`.
#[tactic(auto, unfolding(crate::specs::ItemReading::is_too_deep))]
pub fn is_too_deep(place: &[u8]) -> bool
    ensures { result ≡ is_too_deep place.now }
{
    match after_bytes(b"<!ELEMENT", place) {
        Some(inside) => opens_too_many(inside),
        None => false,
    }
}
