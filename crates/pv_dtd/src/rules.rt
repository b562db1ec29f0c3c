//! The rules that an item keeps after earlier ones.

ghost use Rattle.std.specs.Prelude.{◌≡◌, ◌≤◌, length, map, IfOk};
ghost use Rattle.std.specs.List.{list_any};
ghost use Rattle.pv_dtd.specs.Facts.{are_distinct, MAX_TYPES, MAX_PARTS};
ghost use Rattle.std.specs.Option.{option_map};
ghost use Rattle.pv_dtd.specs.Items.{element, listed_in_model, spelled_in, spelled_in_all};
ghost use Rattle.pv_dtd.specs.Items.{spelled_in_model};
ghost use Rattle.pv_dtd.specs.Kinds.{is_too_long, passes_limit};
ghost use Rattle.pv_dtd.specs.ItemReading.{broken_rule};
ghost use Rattle.pv_dtd.specs.RuleKinds.{kind_of_rule};
ghost use Rattle.pv_dtd.specs.NamedForms.{named_part, named_parts, named_model, named_item};

use crate::items::{SpelledItem, SpelledModel, SpelledPart};
use crate::names::NameTable;
use crate::parts::parts_of;
use indexmap::IndexSet;
use pv_chars::NoMemory;
use std::alloc::Global;

/// The most names that a DTD declares.
const MAX_TYPES: usize = 4_096;

/// The most parts of its content models.
const MAX_PARTS: u64 = 65_536;

/// The most bytes of a name that a DTD keeps.
const MAX_NAME_BYTES: usize = 256;

/// A rule that an item breaks after earlier ones, named like the variant of `DtdError` that says
/// so.
#[derive(Clone, Copy, Debug, PartialEq, Eq)]
pub enum Rule {
    Twice,
    MixedTwice,
    Limit,
}

// The names that a mixed model lists.
fn listed_in<'a, 'm>(model: &'m SpelledModel<'a>) -> &'m [&'a [u8]]
    ensures { map (λ n. n.now) result.now ≡ listed_in_model (named_model model.now) }
{
    match model {
        SpelledModel::Mixed(names) => names.as_slice(),
        SpelledModel::Empty | SpelledModel::Any | SpelledModel::Children(_) => &[],
    }
}

// Whether no two of the names are the same.
fn are_distinct(alloc: Global, names: &[&[u8]]) -> Result<bool, NoMemory>
    ensures { IfOk result (λ b. b ≡ are_distinct (map (λ n. n.now) names.now)) }
{
    let mut seen: IndexSet<&[u8]> = IndexSet::new(alloc);
    for name in names {
        if !seen.insert(*name)? {
            return Ok(false);
        }
    }
    Ok(true)
}

fn is_too_long(name: &[u8]) -> bool
    ensures { result ≡ is_too_long name.now }
{
    name.len() > MAX_NAME_BYTES
}

// Whether one of the names is too long.
fn any_too_long(names: &[&[u8]]) -> bool
    ensures { result ≡ list_any is_too_long (map (λ n. n.now) names.now) }
{
    for name in names {
        if is_too_long(name) {
            return true;
        }
    }
    false
}

// Whether a name in the particle is too long.
#[cycle(long)]
fn has_too_long(part: &SpelledPart) -> bool
    ensures { result ≡ list_any is_too_long (spelled_in (named_part part.now)) }
{
    match part {
        SpelledPart::Name(name) => is_too_long(name),
        SpelledPart::Seq(members) => have_too_long(members.as_slice()),
        SpelledPart::Choice(members) => have_too_long(members.as_slice()),
        SpelledPart::Opt(part) => has_too_long(part),
        SpelledPart::Star(part) => has_too_long(part),
        SpelledPart::Plus(part) => has_too_long(part),
    }
}

#[cycle(long)]
fn have_too_long(members: &[SpelledPart]) -> bool
    ensures { result ≡ list_any is_too_long (spelled_in_all (named_parts members.now)) }
{
    for member in members {
        if has_too_long(member) {
            return true;
        }
    }
    false
}

fn model_has_too_long(model: &SpelledModel) -> bool
    ensures { result ≡ list_any is_too_long (spelled_in_model (named_model model.now)) }
{
    match model {
        SpelledModel::Empty => false,
        SpelledModel::Any => false,
        SpelledModel::Mixed(names) => any_too_long(names.as_slice()),
        SpelledModel::Children(part) => has_too_long(part),
    }
}

// Whether the item passes a limit after these names and so many parts.
fn passes_limit(declared: &NameTable, parts: u64, name: &[u8], model: &SpelledModel) -> bool
    requires types { length declared.now ≤ MAX_TYPES }
    requires parts { parts ≤ MAX_PARTS }
    ensures { result ≡ passes_limit declared.now parts (element name.now (named_model model.now)) }
{
    is_too_long(name)
        || model_has_too_long(model)
        || declared.len() + 1 > MAX_TYPES
        || parts_of(model) > MAX_PARTS - parts
}

// The first rule that an element declaration breaks after these names and so many parts.
fn broken_by_element(
    alloc: Global,
    declared: &NameTable,
    parts: u64,
    name: &[u8],
    model: &SpelledModel,
) -> Result<Option<Rule>, NoMemory>
    requires types { length declared.now ≤ MAX_TYPES }
    requires parts { parts ≤ MAX_PARTS }
    ensures { IfOk result
        (λ rule. option_map kind_of_rule rule ≡
        broken_rule declared.now parts (element name.now (named_model model.now))) }
{
    if declared.contains(name) {
        return Ok(Some(Rule::Twice));
    }
    if !are_distinct(alloc, listed_in(model))? {
        return Ok(Some(Rule::MixedTwice));
    }
    if passes_limit(declared, parts, name, model) {
        return Ok(Some(Rule::Limit));
    }
    Ok(None)
}

/// The first rule that an item breaks where these names are declared, with so many parts.
pub fn broken_rule(
    alloc: Global,
    declared: &NameTable,
    parts: u64,
    item: &SpelledItem,
) -> Result<Option<Rule>, NoMemory>
    requires types { length declared.now ≤ MAX_TYPES }
    requires parts { parts ≤ MAX_PARTS }
    ensures { IfOk result
        (λ rule. option_map kind_of_rule rule ≡
        broken_rule declared.now parts (named_item item.now)) }
{
    match item {
        SpelledItem::Element(name, model) => broken_by_element(alloc, declared, parts, name, model),
        SpelledItem::TextDeclaration => Ok(None),
        SpelledItem::Skipped => Ok(None),
        SpelledItem::Comment => Ok(None),
        SpelledItem::Instruction => Ok(None),
    }
}
