//! Reads content models (XML 1.0, sections 3.2, 3.2.1 and 3.2.2).

ghost use Rattle.std.specs.Prelude.{◌≡◌, ◌≤◌, suc, codes, length, map, IfOk, IfSome};
ghost use Rattle.std.specs.Option.{option_map};
ghost use Rattle.pv_chars.specs.Scan.{after_bytes};
ghost use Rattle.pv_dtd.specs.ItemReading.{listed_at, after_end, mixed_at, children_at};
ghost use Rattle.pv_dtd.specs.ItemReading.{group_model_at, model_at};
ghost use Rattle.pv_dtd.specs.NamedForms.{named_model};

use crate::items::SpelledModel;
use crate::particles::particle_at;
use pv_chars::NoMemory;
use pv_chars::char_reading::name_at;
use pv_chars::scan::{after_bytes, after_space};
use std::alloc::Global;

/// How many parentheses may be open in an element declaration, and so how many groups may stand
/// one inside another.
pub const MAX_NESTING: usize = 64;

// The names that are listed after `#PCDATA`, and what stands after them and space.
fn listed_at<'a>(
    alloc: Global,
    bytes: &'a [u8],
) -> Result<Option<(Vec<&'a [u8]>, &'a [u8])>, NoMemory>
    ensures read { IfOk result
        (λ o. option_map (λ r. (map (λ n. n.now) r.0.items, r.1.now)) o ≡
        listed_at (suc (length bytes.now)) bytes.now) }
    ensures within { IfOk result (λ o. IfSome o (λ r. length r.1.now ≤ length bytes.now)) }
{
    let mut names: Vec<&'a [u8]> = Vec::new(alloc);
    let mut rest = bytes;
    'listed: loop {
        let place = after_space(rest);
        let Some(after) = after_bytes(b"|", place) else {
            return Ok(Some((names, place)));
        };
        let Some((name, behind)) = name_at(after_space(after)) else {
            return Ok(None);
        };
        names.push(name)?;
        rest = behind;
    }
}

// What stands after the `)` or `)*` of a model that lists these names.
fn after_end<'a>(names: &[&[u8]], close: &'a [u8]) -> Option<&'a [u8]>
    ensures end { option_map (λ r. r.now) result ≡
        after_end (map (λ n. n.now) names.now) close.now (after_bytes (codes "*") close.now) }
    ensures within { IfSome result (λ r. length r.now ≤ length close.now) }
{
    match after_bytes(b"*", close) {
        Some(after) => Some(after),
        None if names.is_empty() => Some(close),
        None => None,
    }
}

// A mixed model after its `#PCDATA`.
#[tactic(auto, unfolding(crate::specs::ItemReading::mixed_at))]
fn mixed_at<'a>(
    alloc: Global,
    bytes: &'a [u8],
) -> Result<Option<(SpelledModel<'a>, &'a [u8])>, NoMemory>
    ensures read { IfOk result
        (λ o. option_map (λ r. (named_model r.0, r.1.now)) o ≡ mixed_at bytes.now) }
    ensures within { IfOk result (λ o. IfSome o (λ r. length r.1.now ≤ length bytes.now)) }
{
    let Some((names, place)) = listed_at(alloc, bytes)? else {
        return Ok(None);
    };
    let Some(close) = after_bytes(b")", place) else {
        return Ok(None);
    };
    let Some(rest) = after_end(names.as_slice(), close) else {
        return Ok(None);
    };
    Ok(Some((SpelledModel::Mixed(names), rest)))
}

#[tactic(auto, unfolding(crate::specs::ItemReading::children_at))]
fn children_at<'a>(
    alloc: Global,
    bytes: &'a [u8],
) -> Result<Option<(SpelledModel<'a>, &'a [u8])>, NoMemory>
    ensures read { IfOk result
        (λ o. option_map (λ r. (named_model r.0, r.1.now)) o ≡ children_at bytes.now) }
    ensures within { IfOk result (λ o. IfSome o (λ r. length r.1.now ≤ length bytes.now)) }
{
    let Some((part, rest)) = particle_at(alloc, bytes, MAX_NESTING)? else {
        return Ok(None);
    };
    Ok(Some((SpelledModel::Children(Box::new(alloc, part)?), rest)))
}

// A mixed model, or one of elements alone.
#[tactic(auto, unfolding(crate::specs::ItemReading::group_model_at))]
fn group_model_at<'a>(
    alloc: Global,
    bytes: &'a [u8],
) -> Result<Option<(SpelledModel<'a>, &'a [u8])>, NoMemory>
    ensures read { IfOk result
        (λ o. option_map (λ r. (named_model r.0, r.1.now)) o ≡ group_model_at bytes.now) }
    ensures within { IfOk result (λ o. IfSome o (λ r. length r.1.now ≤ length bytes.now)) }
{
    let Some(inside) = after_bytes(b"(", bytes) else {
        return Ok(None);
    };
    match after_bytes(b"#PCDATA", after_space(inside)) {
        Some(rest) => mixed_at(alloc, rest),
        None => children_at(alloc, bytes),
    }
}

/// The content model at the front (XML 1.0, section 3.2, contentspec), and what stands after it, or
/// `None` where none stands there.
#[tactic(auto, unfolding(crate::specs::ItemReading::model_at))]
pub fn model_at<'a>(
    alloc: Global,
    bytes: &'a [u8],
) -> Result<Option<(SpelledModel<'a>, &'a [u8])>, NoMemory>
    ensures read { IfOk result
        (λ o. option_map (λ r. (named_model r.0, r.1.now)) o ≡ model_at bytes.now) }
    ensures within { IfOk result (λ o. IfSome o (λ r. length r.1.now ≤ length bytes.now)) }
{
    if let Some(rest) = after_bytes(b"EMPTY", bytes) {
        return Ok(Some((SpelledModel::Empty, rest)));
    }
    if let Some(rest) = after_bytes(b"ANY", bytes) {
        return Ok(Some((SpelledModel::Any, rest)));
    }
    group_model_at(alloc, bytes)
}
