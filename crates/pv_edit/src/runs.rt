//! Whether an edit would make texts that stand side by side spell `]]>`.

ghost use Rattle.std.specs.Prelude.{◌≡◌, ◌≤◌, ℕ, List, length};
ghost use Rattle.pv_tree.specs.PlainDocs.{plain_doc};
ghost use Rattle.pv_tree.specs.Marks.{blank_mark};
ghost use Rattle.pv_edit.specs.Effects.{change_of, parent_of};
ghost use Rattle.pv_edit.specs.GivenNames.{new_units};
ghost use Rattle.pv_edit.specs.Reasons.{kids_at, makes_close_mark};
ghost use Rattle.pv_edit.specs.Places.{IsInner};
ghost use Rattle.pv_edit.specs.declared.edits.Edit.TheVariants as edit;

use crate::close_marks::{spell_close_mark, spell_close_mark_with};
use crate::places::{kids_at, kids_of, part_at};
use pv_chars::Units;
use pv_tree::{Doc, Path};

/// Whether the kids of an element would in its place.
pub(crate) fn unwrap_makes_close_mark(doc: &Doc, parent: &Path, path: &Path) -> bool
    requires parent { parent.now ≡ parent_of path.now }
    requires there { IsInner path.now (plain_doc doc.now).root }
    ensures { result ≡ makes_close_mark (change_of blank_mark (plain_doc doc.now).root
        (edit.Unwrap path.now)) (plain_doc doc.now).root }
{
    let (front, node, back) = part_at(doc, parent, path);
    spell_close_mark(front, kids_of(node), back)
}

/// Whether a text would with other units.
pub(crate) fn set_text_makes_close_mark(
    doc: &Doc,
    parent: &Path,
    path: &Path,
    units: &Units,
) -> bool
    requires parent { parent.now ≡ parent_of path.now }
    requires there { IsInner path.now (plain_doc doc.now).root }
    ensures { (text : List ℕ) → units.now ≡ new_units text →
        result ≡ makes_close_mark (change_of blank_mark (plain_doc doc.now).root
        (edit.SetText path.now text)) (plain_doc doc.now).root }
{
    let (front, _, back) = part_at(doc, parent, path);
    spell_close_mark_with(front, units, back)
}

/// Whether a new text would.
pub(crate) fn add_text_makes_close_mark(doc: &Doc, path: &Path, at: u32, units: &Units) -> bool
    requires { at ≤ length (kids_at path.now (plain_doc doc.now).root) }
    ensures { (text : List ℕ) → units.now ≡ new_units text →
        result ≡ makes_close_mark (change_of blank_mark (plain_doc doc.now).root
        (edit.AddText path.now at text)) (plain_doc doc.now).root }
{
    let (front, back) = kids_at(doc, path).split_at(at as usize);
    spell_close_mark_with(front, units, back)
}

/// Whether the texts around one would without it.
pub(crate) fn del_text_makes_close_mark(doc: &Doc, parent: &Path, path: &Path) -> bool
    requires parent { parent.now ≡ parent_of path.now }
    requires there { IsInner path.now (plain_doc doc.now).root }
    ensures { result ≡ makes_close_mark (change_of blank_mark (plain_doc doc.now).root
        (edit.DelText path.now)) (plain_doc doc.now).root }
{
    let (front, _, back) = part_at(doc, parent, path);
    spell_close_mark(front, &[], back)
}
