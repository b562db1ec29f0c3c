//! Text runs (XML 1.0, section 2.4).

ghost use Rattle.std.specs.Prelude.{◌≡◌, ◌↔◌, ◌++◌, codes, IsTrue, MatchOption};
ghost use Rattle.pv_chars.specs.Fronts.{ContainsBytes};
ghost use Rattle.pv_tree.specs.Attributes.{IsCharacterData};
ghost use Rattle.pv_read.specs.Items.{IsRunEnd, BeginsItem};
ghost use Rattle.pv_read.specs.PlainItems.{plain_item, BeginsNoneOf};
ghost use Rattle.pv_read.specs.PlainReferences.{IsReferenceOf};
ghost use Rattle.pv_read.specs.declared.forms.sorts.Sort.TheVariants as sort;

use crate::forms::items::Item;
use crate::forms::references::References;
use crate::forms::values::{are_pieces, cut_before};
use pv_chars::delimiters::up_to;

/// The bytes before the first `<`, and what stands from there on.
pub fn run_at(bytes: &[u8]) -> (&[u8], &[u8])
    ensures whole { bytes.now ≡ result.0.now ++ result.1.now }
    ensures free { ContainsBytes result.0.now (codes "<") → ⊥ }
    ensures ends { IsRunEnd result.1.now }
{
    cut_before(b'<', bytes)
}

// Whether `]]>` stands in the bytes.
fn holds_close_mark(bytes: &[u8]) -> bool
    ensures { IsTrue result ↔ ContainsBytes bytes.now (codes "]]>") }
{
    up_to(b"]]>", bytes).is_some()
}

/// Whether the bytes are character data with such references.
pub fn is_character_data(references: References, bytes: &[u8]) -> bool
    ensures { IsTrue result ↔ IsCharacterData (IsReferenceOf references) bytes.now }
{
    if bytes.is_empty() {
        return false;
    }
    if holds_close_mark(bytes) {
        return false;
    }
    are_pieces(references, bytes)
}

/// The text run at the front, and what stands after it.
pub fn text_run_at(bytes: &[u8]) -> Option<(Item<'_>, &[u8])>
    ensures { MatchOption result (BeginsNoneOf sort.Text bytes.now)
        (λ r. BeginsItem (plain_item r.0) bytes.now r.1.now) }
{
    let (run, rest) = run_at(bytes);
    if !is_character_data(References::Any, run) {
        return None;
    }
    Some((Item::TextRun(run), rest))
}
