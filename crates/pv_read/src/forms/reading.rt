//! Any item at the front of some bytes.

ghost use Rattle.std.specs.Prelude.{◌<◌, length, IfSome, MatchOption};
ghost use Rattle.pv_chars.specs.Fronts.{BeginsNone};
ghost use Rattle.pv_chars.specs.Markup.{IsComment, IsInstruction};
ghost use Rattle.pv_chars.specs.Declarations.{IsXmlDecl};
ghost use Rattle.pv_read.specs.Items.{BeginsItem};
ghost use Rattle.pv_read.specs.PlainItems.{plain_item, BeginsNoItem};

use crate::forms::doctypes::doctype_at;
use crate::forms::items::Item;
use crate::forms::markup::{cdata_at, comment_at, instruction_at, xml_declaration_at};
use crate::forms::sorts::{Sort, sort_of};
use crate::forms::tags::{end_tag_at, tag_at};
use crate::forms::texts::text_run_at;

// The comment, processing instruction or XML declaration at the front, and what stands after it.
fn misc_at(bytes: &[u8]) -> Option<(Item<'_>, &[u8])>
    ensures { MatchOption result
        (BeginsNone IsComment bytes.now × BeginsNone IsInstruction bytes.now ×
        BeginsNone IsXmlDecl bytes.now)
        (λ r. BeginsItem (plain_item r.0) bytes.now r.1.now) }
{
    if let Some(found) = comment_at(bytes) {
        return Some(found);
    }
    if let Some(found) = instruction_at(bytes) {
        return Some(found);
    }
    xml_declaration_at(bytes)
}

// The item at the front, and what stands after it.
fn any_item_at(bytes: &[u8]) -> Option<(Item<'_>, &[u8])>
    ensures { MatchOption result (BeginsNoItem bytes.now)
        (λ r. BeginsItem (plain_item r.0) bytes.now r.1.now) }
{
    match sort_of(bytes) {
        Sort::Text => text_run_at(bytes),
        Sort::Tag => tag_at(bytes),
        Sort::EndTag => end_tag_at(bytes),
        Sort::Misc => misc_at(bytes),
        Sort::Section => cdata_at(bytes),
        Sort::Doctype => doctype_at(bytes),
    }
}

/// The item at the front, and what stands after it.
pub fn item_at(bytes: &[u8]) -> Option<(Item<'_>, &[u8])>
    ensures item { MatchOption result (BeginsNoItem bytes.now)
        (λ r. BeginsItem (plain_item r.0) bytes.now r.1.now) }
    ensures shorter { IfSome result (λ r. length r.1.now < length bytes.now) }
{
    any_item_at(bytes)
}
