//! Reads items: element declarations, skipped declarations, comments, processing instructions and
//! the text declaration.

ghost use Rattle.std.specs.Prelude.{◌≡◌, ◌≤◌, ◌<◌, length, IfOk, IfSome};
ghost use Rattle.std.specs.Option.{option_map};
ghost use Rattle.pv_dtd.specs.ItemReading.{element_at, skipped_word, behind_chars, skipped_at};
ghost use Rattle.pv_dtd.specs.ItemReading.{front_at, item_at};
ghost use Rattle.pv_dtd.specs.NamedForms.{named_item};

use crate::fronts::{after_stop, after_white};
use crate::items::SpelledItem;
use crate::models::model_at;
use pv_chars::NoMemory;
use pv_chars::char_reading::{comment_at, instruction_at, is_chars, name_at, text_declaration_at};
use pv_chars::scan::{after_blank, after_bytes, after_space};
use std::alloc::Global;

#[tactic(auto, unfolding(crate::specs::ItemReading::element_at))]
fn element_at<'a>(
    alloc: Global,
    bytes: &'a [u8],
) -> Result<Option<(SpelledItem<'a>, &'a [u8])>, NoMemory>
    ensures read { IfOk result
        (λ o. option_map (λ r. (named_item r.0, r.1.now)) o ≡ element_at bytes.now) }
    ensures within { IfOk result (λ o. IfSome o (λ r. length r.1.now < length bytes.now)) }
{
    let Some(blank) = after_bytes(b"<!ELEMENT", bytes) else {
        return Ok(None);
    };
    let Some(start) = after_blank(blank) else {
        return Ok(None);
    };
    let Some((name, after_name)) = name_at(start) else {
        return Ok(None);
    };
    let Some(spec) = after_blank(after_name) else {
        return Ok(None);
    };
    let Some((model, after_model)) = model_at(alloc, spec)? else {
        return Ok(None);
    };
    let Some(rest) = after_bytes(b">", after_space(after_model)) else {
        return Ok(None);
    };
    Ok(Some((SpelledItem::Element(name, model), rest)))
}

/// What stands after the word of a declaration that is skipped.
#[tactic(auto, unfolding(crate::specs::ItemReading::skipped_word, crate::specs::ItemReading::or_else))]
pub fn skipped_word(bytes: &[u8]) -> Option<&[u8]>
    ensures word { option_map (λ r. r.now) result ≡ skipped_word bytes.now }
    ensures within { IfSome result (λ r. length r.now < length bytes.now) }
{
    after_bytes(b"<!ATTLIST", bytes)
        .or(after_bytes(b"<!ENTITY", bytes))
        .or(after_bytes(b"<!NOTATION", bytes))
}

// The rest, where what stands before it and one byte are Chars.
#[tactic(auto, unfolding(crate::specs::ItemReading::behind_chars))]
fn behind_chars<'a>(bytes: &[u8], rest: &'a [u8]) -> Option<&'a [u8]>
    requires { length rest.now < length bytes.now }
    ensures read { option_map (λ r. r.now) result ≡ behind_chars bytes.now rest.now }
    ensures within { IfSome result (λ r. length r.now ≤ length rest.now) }
{
    let inside = bytes.split_at(bytes.len() - (rest.len() + 1)).0;
    if is_chars(inside) { Some(rest) } else { None }
}

#[tactic(auto, unfolding(crate::specs::ItemReading::skipped_at))]
fn skipped_at(bytes: &[u8]) -> Option<&[u8]>
    ensures read { option_map (λ r. r.now) result ≡ skipped_at bytes.now }
    ensures within { IfSome result (λ r. length r.now < length bytes.now) }
{
    let blank = skipped_word(bytes)?;
    let inside = after_white(blank)?;
    let rest = after_stop(b'>', b">%<", inside)?;
    behind_chars(inside, rest)
}

#[tactic(auto, unfolding(crate::specs::ItemReading::front_at))]
fn front_at(front: bool, bytes: &[u8]) -> Option<&[u8]>
    ensures read { option_map (λ r. r.now) result ≡ front_at front bytes.now }
    ensures within { IfSome result (λ r. length r.now < length bytes.now) }
{
    if front {
        text_declaration_at(bytes)
    } else {
        None
    }
}

/// The item in front, and what stands after it. A text declaration is one where this is the front
/// of the text.
#[tactic(auto, unfolding(crate::specs::ItemReading::item_at, crate::specs::ItemReading::read_as, crate::specs::ItemReading::or_else))]
pub fn item_at<'a>(
    alloc: Global,
    front: bool,
    bytes: &'a [u8],
) -> Result<Option<(SpelledItem<'a>, &'a [u8])>, NoMemory>
    ensures read { IfOk result
        (λ o. option_map (λ r. (named_item r.0, r.1.now)) o ≡ item_at front bytes.now) }
    ensures within { IfOk result (λ o. IfSome o (λ r. length r.1.now < length bytes.now)) }
{
    if let Some(rest) = front_at(front, bytes) {
        return Ok(Some((SpelledItem::TextDeclaration, rest)));
    }
    if let Some(rest) = skipped_at(bytes) {
        return Ok(Some((SpelledItem::Skipped, rest)));
    }
    if let Some(rest) = comment_at(bytes) {
        return Ok(Some((SpelledItem::Comment, rest)));
    }
    if let Some(rest) = instruction_at(bytes) {
        return Ok(Some((SpelledItem::Instruction, rest)));
    }
    element_at(alloc, bytes)
}
