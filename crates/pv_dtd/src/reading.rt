//! Reads a DTD, in one pass from left to right.

ghost use Rattle.std.specs.Prelude.{◌≡◌, ◌≤◌, ◌+◌, ◌++◌, ◌&&◌, ◌^◌, [], map, length, nat_eq, OnOk};
ghost use Rattle.std.specs.Prelude.{IfOk, IfErr};
ghost use Rattle.pv_dtd.specs.Facts.{MAX_DTD_BYTES, MAX_PARTS};
ghost use Rattle.pv_dtd.specs.Items.{declared_by, model_in, parts_by};
ghost use Rattle.pv_dtd.specs.Meaning.{Outcome, is_dtd, DtdTextMeans, is_place};
ghost use Rattle.pv_dtd.specs.NamedForms.{named_model, named_item};
ghost use Rattle.pv_dtd.specs.NameOrder.{with_names};
ghost use Rattle.pv_dtd.specs.PlainForms.{plain_dtd, Refuses, Answers, refusal};
ghost use Rattle.pv_dtd.specs.RuleKinds.{kind_of_rule};
ghost use Rattle.pv_dtd.specs.SoFar.{Tells, Declares};
ghost use Rattle.pv_dtd.specs.Numbering.{dtd_of_items};

use crate::declarations::item_at;
use crate::dtd::Dtd;
use crate::errors::DtdError;
use crate::faults::{has_parameter, is_too_deep};
use crate::items::{SpelledItem, SpelledModel};
use crate::names::NameTable;
use crate::numbering::models_of;
use crate::parts::parts_of;
use crate::rules::{Rule, broken_rule};
use pv_chars::NoMemory;
use pv_chars::scan::{after_byte_order_mark, after_space, is_space};
use std::alloc::Global;

/// The most bytes of a DTD that is read. More are refused as `DtdError::Limit(0)`.
///
/// ```rust
/// assert!(rt; MAX_DTD_BYTES == 4 * 1024 * 1024);
/// ```
pub const MAX_DTD_BYTES: usize = 4_194_304;

// Whether nothing stands before the place of this rest, no item and no white space.
fn is_front(count: u64, rest: &[u8]) -> bool
    ensures { result ≡ (nat_eq count 0 && is_place rest.now) }
{
    match rest {
        [b, ..] => count == 0 && !is_space(*b),
        [] => false,
    }
}

// The refusal of an item that breaks a rule, after so many items.
fn refusal(rule: Rule, count: u64) -> DtdError
    ensures { result ≡ refusal (kind_of_rule rule) count }
{
    match rule {
        Rule::Twice => DtdError::Twice(count),
        Rule::MixedTwice => DtdError::MixedTwice(count),
        Rule::Limit => DtdError::Limit(count),
    }
}

// What was read so far: the models in order, and the number of their parts.
#[derive(Drop)]
struct Declared<'a> {
    models: Vec<SpelledModel<'a>>,
    parts: u64,
}

// Puts what an item declares after the names, models and parts.
fn add<'a>(
    alloc: Global,
    names: &mut NameTable,
    declared: &mut Declared<'a>,
    item: SpelledItem<'a>,
) -> Result<(), NoMemory>
    requires { declared.old.parts + parts_by (named_item item) ≤ MAX_PARTS }
    ensures names { OnOk result (names.new
        ≡ with_names names.old (declared_by (named_item item.entry))) }
    ensures models { OnOk result (map named_model declared.new.models.items ≡
        map named_model declared.old.models.items ++ model_in (named_item item.entry)) }
    ensures parts { OnOk result (declared.new.parts ≡ declared.old.parts +
        parts_by (named_item item.entry)) }
{
    match item {
        SpelledItem::Element(name, model) => {
            names.number(alloc, name)?;
            declared.parts += parts_of(&model);
            declared.models.push(model)?;
            Ok(())
        }
        SpelledItem::TextDeclaration => Ok(()),
        SpelledItem::Skipped => Ok(()),
        SpelledItem::Comment => Ok(()),
        SpelledItem::Instruction => Ok(()),
    }
}

// The models that the items of a text declare; the names get those that they declare.
fn declarations<'a>(
    alloc: Global,
    names: &mut NameTable,
    bytes: &'a [u8],
) -> Result<Declared<'a>, DtdError>
    requires empty { names.old ≡ [] }
    requires short { length bytes.now ≤ MAX_DTD_BYTES }
    ensures { Tells (λ d items. Declares names.new (map named_model d.models.items) d.parts items)
        bytes.now result }
{
    let mut declared = Declared {
        models: Vec::new(alloc),
        parts: 0,
    };
    let mut count: u64 = 0;
    let mut rest = bytes;
    'items: loop {
        let place = after_space(rest);
        if place.is_empty() {
            return Ok(declared);
        }
        if has_parameter(place) {
            return Err(DtdError::Parameter(count));
        }
        if is_too_deep(place) {
            return Err(DtdError::Limit(count));
        }
        let Some((item, more)) = item_at(alloc, is_front(count, rest), place)? else {
            return Err(DtdError::Syntax(count));
        };
        if let Some(rule) = broken_rule(alloc, names, declared.parts, &item)? {
            return Err(refusal(rule, count));
        }
        add(alloc, names, &mut declared, item)?;
        count += 1;
        rest = more;
    }
}

// The DTD that the items of a text are.
fn dtd_of(alloc: Global, bytes: &[u8]) -> Result<Dtd, DtdError>
    requires { length bytes.now ≤ MAX_DTD_BYTES }
    ensures { Tells (λ dtd items. plain_dtd dtd ≡ dtd_of_items items) bytes.now result }
{
    let mut names = NameTable::new(alloc);
    let declared = declarations(alloc, &mut names, bytes)?;
    let models = models_of(alloc, &mut names, declared.models.as_slice())?;
    Ok(Dtd::of(names, models, declared.parts as u32))
}

/// The DTD that the bytes are, or their first item in fault, by its kind and the number of whole
/// items before it.
///
/// ```rust
/// let text = b"<!ELEMENT a ANY><!ELEMENT a EMPTY>"; // test_layers: faults
/// assert!(rt; matches!(read_dtd(alloc, text), Err(DtdError::Twice(1))));
/// assert!(rt; read_dtd(alloc, b"<!ELEMENT a (b)>")?.names() == 2);
/// ```
pub fn read_dtd(alloc: Global, bytes: &[u8]) -> Result<Dtd, DtdError>
    ensures read { IfOk result (λ dtd. DtdTextMeans bytes.now (is_dtd (plain_dtd dtd))) }
    ensures refused { IfErr result (λ error. Refuses bytes.now error) }
    ensures exactly { (o : Outcome) → DtdTextMeans bytes.now o → Answers o result }
{
    if bytes.len() > MAX_DTD_BYTES {
        return Err(DtdError::Limit(0));
    }
    dtd_of(alloc, after_byte_order_mark(bytes))
}
