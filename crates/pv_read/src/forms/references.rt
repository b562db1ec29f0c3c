//! References (XML 1.0, section 4.1).

ghost use Rattle.std.specs.Prelude.{◌↔◌, IsTrue, MatchOption};
ghost use Rattle.pv_chars.specs.Fronts.{Begins, BeginsNone};
ghost use Rattle.pv_read.specs.PlainReferences.{MayBeNamed, IsReferenceOf};

use pv_chars::is_predefined;
use pv_chars::references::{after_char_ref, entity_ref_at};

/// Which references may stand in attributes and character data.
#[derive(Clone, Copy)]
pub enum References {
    /// To characters, and to any names.
    Any,
    /// To characters, and to the five names that need no declaration (XML 1.0, section 4.6).
    Known,
}

// Whether a reference may be to this name.
fn may_be_named(references: References, name: &[u8]) -> bool
    ensures { IsTrue result ↔ MayBeNamed references name.now }
{
    match references {
        References::Any => true,
        References::Known => is_predefined(name),
    }
}

/// What stands after the reference at the front.
pub fn after_reference(references: References, bytes: &[u8]) -> Option<&[u8]>
    ensures { MatchOption result (BeginsNone (IsReferenceOf references) bytes.now)
        (λ r. Begins (IsReferenceOf references) bytes.now r.now) }
{
    if let Some(rest) = after_char_ref(bytes) {
        return Some(rest);
    }
    let (name, rest) = entity_ref_at(bytes)?;
    if !may_be_named(references, name) {
        return None;
    }
    Some(rest)
}
