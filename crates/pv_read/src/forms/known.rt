//! Whether the references of an item are known.

ghost use Rattle.std.specs.Prelude.{◌↔◌, IsTrue};
ghost use Rattle.pv_chars.specs.References.{IsReference};
ghost use Rattle.pv_tree.specs.Attributes.{IsAttributes, IsCharacterData, IsKnownReference};
ghost use Rattle.pv_read.specs.Items.{HasForm, HasKnownReferences};
ghost use Rattle.pv_read.specs.PlainItems.{plain_item};

use crate::forms::attributes::attributes_at;
use crate::forms::items::Item;
use crate::forms::references::References;
use crate::forms::values::are_pieces;
use memchr::memchr;

// Whether each reference in the attributes is known.
fn are_known_attributes(attrs: &[u8]) -> bool
    requires { IsAttributes IsReference attrs.now }
    ensures { IsTrue result ↔ IsAttributes IsKnownReference attrs.now }
{
    match memchr(b'&', attrs) {
        Some(_) => attributes_at(References::Known, attrs).1.is_empty(),
        None => true,
    }
}

// Whether each reference in the character data is known.
fn is_known_data(bytes: &[u8]) -> bool
    requires { IsCharacterData IsReference bytes.now }
    ensures { IsTrue result ↔ IsCharacterData IsKnownReference bytes.now }
{
    match memchr(b'&', bytes) {
        Some(_) => are_pieces(References::Known, bytes),
        None => true,
    }
}

/// Whether each reference in the item is to a character, or to a name that needs no declaration
/// (XML 1.0, section 4.6).
pub fn has_known_references(item: &Item<'_>) -> bool
    requires { HasForm (plain_item item.now) }
    ensures { IsTrue result ↔ HasKnownReferences (plain_item item.now) }
{
    match item {
        Item::StartTag(tag) => are_known_attributes(tag.attrs),
        Item::EmptyTag(tag) => are_known_attributes(tag.attrs),
        Item::TextRun(bytes) => is_known_data(bytes),
        _ => true,
    }
}
