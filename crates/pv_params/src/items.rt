//! Items, read from the left.

ghost use Rattle.std.specs.Prelude.{◌≡◌, ◌≤◌, length};
ghost use Rattle.std.specs.Option.{option_map};
ghost use Rattle.pv_chars.specs.Spaces.{is_space, begins};
ghost use Rattle.pv_chars.specs.CharReading.{quoted_at, is_chars};
ghost use Rattle.pv_params.specs.ItemReading.{front_of, byte_at, white_at, literal_at, general_at};
ghost use Rattle.pv_params.specs.ItemReading.{named_at, reference_at, inside_at, character_at};
ghost use Rattle.pv_params.specs.ItemReading.{value_at, copy_up_to, are_items, behind_items};
ghost use Rattle.pv_params.specs.ItemReading.{is_inside};
ghost use Rattle.pv_params.specs.ItemReading.{is_value, parameter_named, parameter_given};
ghost use Rattle.pv_params.specs.ItemReading.{parameter_at, keyword_at, held_at, held_by};
ghost use Rattle.pv_params.specs.ItemReading.{declaration_at, between_at, item_at, external_word};
ghost use Rattle.pv_params.specs.ItemReading.{external_at, digits_at};
ghost use Rattle.pv_params.specs.PlainForms.{plain_item, plain_mode, plain_item_found};

use crate::fronts::{after_named, before};
use crate::plain_bytes::behind_run;
use crate::text_mode::TextMode;
use pv_chars::char_reading::{comment_at, instruction_at, is_chars, is_one_of, name_at, quoted_at};
use pv_chars::is_char;
use pv_chars::references::digits_at;
use pv_chars::scan::{after_blank, after_bytes, after_space, is_space};

/// An item, as parts of its text.
#[derive(Clone, Copy, Debug)]
pub enum SpelledItem<'a> {
    /// A byte that is copied.
    Byte(u8),
    /// A text that is copied.
    Text(&'a [u8]),
    /// A character that a reference in a value tells by its number, and that stands in its place.
    Character(char),
    /// A reference to the entity of this name.
    Reference(&'a [u8]),
    /// The declaration of an entity: its name, and its value without quotes.
    Parameter(&'a [u8], &'a [u8]),
    /// Another declaration: its word, and what it holds.
    Declaration(&'a [u8], &'a [u8]),
}

#[tactic(auto, unfolding(crate::specs::ItemReading::byte_at))]
fn byte_at<'a>(others: &[u8], bytes: &'a [u8]) -> Option<(SpelledItem<'a>, &'a [u8])>
    ensures { option_map plain_item_found result ≡ byte_at others.now bytes.now }
{
    match bytes {
        [b, rest @ ..] if !is_one_of(others, *b) => Some((SpelledItem::Byte(*b), rest)),
        _ => None,
    }
}

#[tactic(auto, unfolding(crate::specs::ItemReading::white_at))]
fn white_at(bytes: &[u8]) -> Option<(SpelledItem<'_>, &[u8])>
    ensures { option_map plain_item_found result ≡ white_at bytes.now }
{
    match bytes {
        [b, rest @ ..] if is_space(*b) => Some((SpelledItem::Byte(*b), rest)),
        _ => None,
    }
}

// What is copied, where this stands after it.
#[tactic(auto, unfolding(crate::specs::ItemReading::copy_up_to))]
fn copy_up_to<'a>(bytes: &'a [u8], rest: Option<&'a [u8]>) -> Option<(SpelledItem<'a>, &'a [u8])>
    ensures { option_map plain_item_found result ≡
        copy_up_to bytes.now (option_map (λ r. r.now) rest.entry) }
{
    match rest {
        Some(rest) => Some((SpelledItem::Text(before(bytes, rest)), rest)),
        None => None,
    }
}

// What stands after the literal at the front.
#[tactic(auto, unfolding(crate::specs::ItemReading::literal_at))]
fn literal_at(bytes: &[u8]) -> Option<&[u8]>
    ensures { option_map (λ r. r.now) result ≡ literal_at bytes.now }
{
    let (_, rest) = quoted_at(bytes)?;
    Some(rest)
}

// What stands after the reference by name at the front.
#[tactic(auto, unfolding(crate::specs::ItemReading::general_at))]
fn general_at(bytes: &[u8]) -> Option<&[u8]>
    ensures { option_map (λ r. r.now) result ≡ general_at bytes.now }
{
    let (_, rest) = after_named(b'&', bytes)?;
    Some(rest)
}

#[tactic(auto, unfolding(crate::specs::ItemReading::reference_at))]
fn reference_at(bytes: &[u8]) -> Option<(SpelledItem<'_>, &[u8])>
    ensures { option_map plain_item_found result ≡ reference_at bytes.now }
{
    let (name, rest) = after_named(b'%', bytes)?;
    Some((SpelledItem::Reference(name), rest))
}

#[tactic(auto, unfolding(crate::specs::ItemReading::inside_at, crate::specs::ItemReading::or_else))]
fn inside_at(bytes: &[u8]) -> Option<(SpelledItem<'_>, &[u8])>
    ensures { option_map plain_item_found result ≡ inside_at bytes.now }
{
    if let Some(found) = byte_at(b"<>%'\"", bytes) {
        return Some(found);
    }
    if let Some(found) = copy_up_to(bytes, literal_at(bytes)) {
        return Some(found);
    }
    reference_at(bytes)
}

// The character that a reference by digits in this base gives, after this front.
#[tactic(auto, unfolding(crate::specs::ItemReading::character_at, crate::specs::ItemReading::ended_by))]
fn character_at<'a>(base: u32, front: &[u8], bytes: &'a [u8]) -> Option<(SpelledItem<'a>, &'a [u8])>
    requires some { 2 ≤ base }
    requires known { base ≤ 36 }
    ensures { option_map plain_item_found result ≡ character_at base front.now bytes.now }
{
    let start = after_bytes(front, bytes)?;
    let (value, end) = digits_at(base, start);
    if end.len() == start.len() || !is_char(value) {
        return None;
    }
    let c = char::from_u32(value)?;
    let rest = after_bytes(b";", end)?;
    Some((SpelledItem::Character(c), rest))
}

#[tactic(auto, unfolding(crate::specs::ItemReading::value_at, crate::specs::ItemReading::or_else))]
fn value_at(bytes: &[u8]) -> Option<(SpelledItem<'_>, &[u8])>
    ensures { option_map plain_item_found result ≡ value_at bytes.now }
{
    if let Some(found) = byte_at(b"%&", bytes) {
        return Some(found);
    }
    if let Some(found) = copy_up_to(bytes, general_at(bytes)) {
        return Some(found);
    }
    if let Some(found) = character_at(10, b"&#", bytes) {
        return Some(found);
    }
    if let Some(found) = character_at(16, b"&#x", bytes) {
        return Some(found);
    }
    reference_at(bytes)
}

// What stands after all items of the mode Inside.
fn behind_inside(bytes: &[u8]) -> &[u8]
    ensures { result.now ≡ behind_items inside_at (length bytes.now) bytes.now }
{
    let mut rest = behind_run(TextMode::Inside, bytes);
    'items: while let Some((_, more)) = inside_at(rest) {
        rest = behind_run(TextMode::Inside, more);
    }
    rest
}

// What stands after all items of the mode Value.
fn behind_value(bytes: &[u8]) -> &[u8]
    ensures { result.now ≡ behind_items value_at (length bytes.now) bytes.now }
{
    let mut rest = behind_run(TextMode::Value, bytes);
    'items: while let Some((_, more)) = value_at(rest) {
        rest = behind_run(TextMode::Value, more);
    }
    rest
}

/// Whether the whole text is of the form of mode Inside.
#[tactic(auto, unfolding(crate::specs::ItemReading::is_inside))]
pub fn is_inside(text: &[u8]) -> bool
    ensures { result ≡ is_inside text.now }
{
    is_chars(text) && behind_inside(text).is_empty()
}

#[tactic(auto, unfolding(crate::specs::ItemReading::is_value))]
fn is_value(text: &[u8]) -> bool
    ensures { result ≡ is_value text.now }
{
    is_chars(text) && behind_value(text).is_empty()
}

// The name of the parameter declaration at the front, and what stands after it and white space.
#[tactic(auto, unfolding(crate::specs::ItemReading::parameter_named))]
fn parameter_named(bytes: &[u8]) -> Option<(&[u8], &[u8])>
    ensures { option_map (λ r. (r.0.now, r.1.now)) result ≡ parameter_named bytes.now }
{
    let blank = after_bytes(b"<!ENTITY", bytes)?;
    let percent = after_blank(blank)?;
    let after = after_bytes(b"%", percent)?;
    let start = after_blank(after)?;
    let (name, end) = name_at(start)?;
    let rest = after_blank(end)?;
    Some((name, rest))
}

// The value of a parameter declaration, and what stands after the declaration.
#[tactic(auto, unfolding(crate::specs::ItemReading::parameter_given))]
fn parameter_given(bytes: &[u8]) -> Option<(&[u8], &[u8])>
    ensures { option_map (λ r. (r.0.now, r.1.now)) result ≡ parameter_given bytes.now }
{
    let (given, end) = quoted_at(bytes)?;
    let rest = after_bytes(b">", after_space(end))?;
    if is_value(given) {
        Some((given, rest))
    } else {
        None
    }
}

#[tactic(auto, unfolding(crate::specs::ItemReading::parameter_at))]
fn parameter_at(bytes: &[u8]) -> Option<(SpelledItem<'_>, &[u8])>
    ensures { option_map plain_item_found result ≡ parameter_at bytes.now }
{
    let (name, behind) = parameter_named(bytes)?;
    let (given, rest) = parameter_given(behind)?;
    Some((SpelledItem::Parameter(name, given), rest))
}

// The word of another declaration at the front, and what stands after it.
#[tactic(auto, unfolding(crate::specs::ItemReading::keyword_at, crate::specs::ItemReading::or_else))]
fn keyword_at(bytes: &[u8]) -> Option<(&'static [u8], &[u8])>
    ensures { option_map (λ r. (r.0.now, r.1.now)) result ≡ keyword_at bytes.now }
{
    if let Some(rest) = after_bytes(b"<!ELEMENT", bytes) {
        return Some((b"<!ELEMENT", rest));
    }
    if let Some(rest) = after_bytes(b"<!ATTLIST", bytes) {
        return Some((b"<!ATTLIST", rest));
    }
    if let Some(rest) = after_bytes(b"<!ENTITY", bytes) {
        return Some((b"<!ENTITY", rest));
    }
    let rest = after_bytes(b"<!NOTATION", bytes)?;
    Some((b"<!NOTATION", rest))
}

fn begins_white(bytes: &[u8]) -> bool
    ensures { result ≡ begins is_space bytes.now }
{
    match bytes {
        [b, ..] => is_space(*b),
        [] => false,
    }
}

// What a declaration holds after its word, and what stands after it.
#[tactic(auto, unfolding(crate::specs::ItemReading::held_at, crate::specs::ItemReading::held_by))]
fn held_at(bytes: &[u8]) -> Option<(&[u8], &[u8])>
    ensures { option_map (λ r. (r.0.now, r.1.now)) result ≡ held_at bytes.now }
{
    let end = behind_inside(bytes);
    let held = before(bytes, end);
    if begins_white(held) && is_chars(held) {
        let rest = after_bytes(b">", end)?;
        Some((held, rest))
    } else {
        None
    }
}

#[tactic(auto, unfolding(crate::specs::ItemReading::declaration_at))]
fn declaration_at(bytes: &[u8]) -> Option<(SpelledItem<'_>, &[u8])>
    ensures { option_map plain_item_found result ≡ declaration_at bytes.now }
{
    let (word, behind) = keyword_at(bytes)?;
    let (held, rest) = held_at(behind)?;
    Some((SpelledItem::Declaration(word, held), rest))
}

#[tactic(auto, unfolding(crate::specs::ItemReading::between_at, crate::specs::ItemReading::or_else))]
fn between_at(bytes: &[u8]) -> Option<(SpelledItem<'_>, &[u8])>
    ensures { option_map plain_item_found result ≡ between_at bytes.now }
{
    if let Some(found) = white_at(bytes) {
        return Some(found);
    }
    if let Some(found) = copy_up_to(bytes, comment_at(bytes)) {
        return Some(found);
    }
    if let Some(found) = copy_up_to(bytes, instruction_at(bytes)) {
        return Some(found);
    }
    if let Some(found) = reference_at(bytes) {
        return Some(found);
    }
    if let Some(found) = declaration_at(bytes) {
        return Some(found);
    }
    parameter_at(bytes)
}

/// The item at the front of the rest of a text that is read in this mode, and what stands after
/// it.
#[tactic(auto, unfolding(crate::specs::ItemReading::item_at))]
pub fn item_at(mode: TextMode, bytes: &[u8]) -> Option<(SpelledItem<'_>, &[u8])>
    ensures { option_map plain_item_found result ≡ item_at (plain_mode mode) bytes.now }
{
    match mode {
        TextMode::File(_) => between_at(bytes),
        TextMode::Between => between_at(bytes),
        TextMode::Inside => inside_at(bytes),
        TextMode::Value => value_at(bytes),
    }
}

#[tactic(auto, unfolding(crate::specs::ItemReading::external_word, crate::specs::ItemReading::or_else))]
fn external_word(bytes: &[u8]) -> Option<&[u8]>
    ensures { option_map (λ r. r.now) result ≡ external_word bytes.now }
{
    after_bytes(b"SYSTEM", bytes).or(after_bytes(b"PUBLIC", bytes))
}

/// What stands after the word of the external parameter entity that is declared at the front.
#[tactic(auto, unfolding(crate::specs::ItemReading::external_at))]
pub fn external_at(bytes: &[u8]) -> Option<&[u8]>
    ensures { option_map (λ r. r.now) result ≡ external_at bytes.now }
{
    let (_, rest) = parameter_named(bytes)?;
    external_word(rest)
}
