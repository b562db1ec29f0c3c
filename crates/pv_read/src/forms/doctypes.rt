//! Document type declarations (XML 1.0, section 2.8).

ghost use Rattle.std.specs.Prelude.{◌↔◌, IsTrue, MatchOption};
ghost use Rattle.pv_tree.specs.Prolog.{IsDoctypeFront};
ghost use Rattle.pv_read.specs.Items.{BeginsItem};
ghost use Rattle.pv_read.specs.Kinds.{BeginsSubset};
ghost use Rattle.pv_read.specs.PlainItems.{plain_item, BeginsNoneOf};
ghost use Rattle.pv_read.specs.Takes.{BeginsNoDoctypeFront, TakesDoctypeFront};
ghost use Rattle.pv_read.specs.declared.forms.sorts.Sort.TheVariants as sort;

use crate::forms::external_ids::after_external_id;
use crate::forms::items::Item;
use pv_chars::name_at;
use pv_chars::scan::{after_blank, after_bytes, after_space};

// The name in the front of a document type declaration, and what stands after all of the front.
fn doctype_front_at(bytes: &[u8]) -> Option<(&[u8], &[u8])>
    ensures { MatchOption result (BeginsNoDoctypeFront bytes.now)
        (λ r. TakesDoctypeFront bytes.now r.0.now r.1.now) }
{
    let inside = after_bytes(b"<!DOCTYPE", bytes)?;
    let start = after_blank(inside)?;
    let (name, after) = name_at(start)?;
    let end = after_external_id(after).unwrap_or(after);
    Some((name, after_space(end)))
}

/// The document type declaration without an internal subset at the front, and what stands after
/// it.
pub fn doctype_at(bytes: &[u8]) -> Option<(Item<'_>, &[u8])>
    ensures { MatchOption result (BeginsNoneOf sort.Doctype bytes.now)
        (λ r. BeginsItem (plain_item r.0) bytes.now r.1.now) }
{
    let (name, end) = doctype_front_at(bytes)?;
    let rest = after_bytes(b">", end)?;
    let bytes = bytes.split_at(bytes.len() - rest.len()).0;
    Some((Item::Doctype { name, bytes }, rest))
}

/// Whether a document type declaration stands at the front, up to the `[` of its internal subset.
pub fn begins_subset(bytes: &[u8]) -> bool
    ensures { IsTrue result ↔ BeginsSubset bytes.now }
{
    match doctype_front_at(bytes) {
        Some((_, end)) => after_bytes(b"[", end).is_some(),
        None => false,
    }
}
