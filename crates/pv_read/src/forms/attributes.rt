//! The attributes of a tag (XML 1.0, section 3.1).

ghost use Rattle.std.specs.Prelude.{MatchOption};
ghost use Rattle.pv_chars.specs.Fronts.{Begins, BeginsNone};
ghost use Rattle.pv_tree.specs.Attributes.{IsAttribute};
ghost use Rattle.pv_read.specs.PlainReferences.{IsReferenceOf};
ghost use Rattle.pv_read.specs.Takes.{TakesPieces, TakesAttributes};

use crate::forms::references::References;
use crate::forms::values::are_pieces;
use pv_chars::declarations::declaration_part_at;
use pv_chars::name_at;
use pv_chars::scan::{after_blank, after_space};

// What stands after the attribute at the front, which white space begins.
fn after_attribute(references: References, bytes: &[u8]) -> Option<&[u8]>
    ensures { MatchOption result (BeginsNone (IsAttribute (IsReferenceOf references)) bytes.now)
        (λ r. Begins (IsAttribute (IsReferenceOf references)) bytes.now r.now) }
{
    let start = after_blank(bytes)?;
    let (name, _) = name_at(start)?;
    let (value, rest) = declaration_part_at(name, bytes)?;
    if !are_pieces(references, value) {
        return None;
    }
    Some(rest)
}

// What stands after as many attributes as stand at the front.
fn after_attributes(references: References, bytes: &[u8]) -> &[u8]
    ensures { TakesPieces (IsAttribute (IsReferenceOf references)) bytes.now result.now }
{
    let mut rest = bytes;
    'attributes: while let Some(more) = after_attribute(references, rest) {
        rest = more;
    }
    rest
}

/// The attributes at the front with the white space after them, and what stands after it.
pub fn attributes_at(references: References, bytes: &[u8]) -> (&[u8], &[u8])
    ensures { TakesAttributes (IsReferenceOf references) bytes.now result.0.now result.1.now }
{
    let rest = after_space(after_attributes(references, bytes));
    bytes.split_at(bytes.len() - rest.len())
}
