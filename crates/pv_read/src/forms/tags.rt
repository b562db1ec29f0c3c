//! Start tags, empty-element tags and end tags (XML 1.0, section 3.1).

ghost use Rattle.std.specs.Prelude.{◌++◌, codes, MatchOption};
ghost use Rattle.pv_chars.specs.Characters.{is_name_char, BeginsNo};
ghost use Rattle.pv_chars.specs.Names.{IsName};
ghost use Rattle.pv_read.specs.Items.{BeginsItem};
ghost use Rattle.pv_read.specs.PlainItems.{plain_item, BeginsNoneOf};
ghost use Rattle.pv_read.specs.declared.forms.sorts.Sort.TheVariants as sort;

use crate::forms::attributes::attributes_at;
use crate::forms::items::{Item, Tag};
use crate::forms::references::References;
use pv_chars::name_at;
use pv_chars::scan::{after_bytes, after_space};

// The tag that begins with `<` and this name, by the bytes after its name.
fn tag_named<'a>(name: &'a [u8], bytes: &'a [u8]) -> Option<(Item<'a>, &'a [u8])>
    requires named { IsName name.now }
    requires ends { BeginsNo is_name_char bytes.now }
    ensures { MatchOption result (BeginsNoneOf sort.Tag (codes "<" ++ (name.now ++ bytes.now)))
        (λ r. BeginsItem (plain_item r.0) (codes "<" ++ (name.now ++ bytes.now)) r.1.now) }
{
    let (attrs, end) = attributes_at(References::Any, bytes);
    let tag = Tag { name, attrs };
    if let Some(rest) = after_bytes(b">", end) {
        return Some((Item::StartTag(tag), rest));
    }
    let rest = after_bytes(b"/>", end)?;
    Some((Item::EmptyTag(tag), rest))
}

/// The start tag or empty-element tag at the front, and what stands after it.
pub fn tag_at(bytes: &[u8]) -> Option<(Item<'_>, &[u8])>
    ensures { MatchOption result (BeginsNoneOf sort.Tag bytes.now)
        (λ r. BeginsItem (plain_item r.0) bytes.now r.1.now) }
{
    let start = after_bytes(b"<", bytes)?;
    let (name, inside) = name_at(start)?;
    tag_named(name, inside)
}

// The end tag that begins with `</` and this name, by the bytes after its name.
fn end_tag_named<'a>(name: &'a [u8], bytes: &'a [u8]) -> Option<(Item<'a>, &'a [u8])>
    requires named { IsName name.now }
    requires ends { BeginsNo is_name_char bytes.now }
    ensures { MatchOption result (BeginsNoneOf sort.EndTag (codes "</" ++ (name.now ++ bytes.now)))
        (λ r. BeginsItem (plain_item r.0) (codes "</" ++ (name.now ++ bytes.now)) r.1.now) }
{
    let end = after_space(bytes);
    let rest = after_bytes(b">", end)?;
    let gap = bytes.split_at(bytes.len() - end.len()).0;
    Some((Item::EndTag { name, gap }, rest))
}

/// The end tag at the front, and what stands after it.
pub fn end_tag_at(bytes: &[u8]) -> Option<(Item<'_>, &[u8])>
    ensures { MatchOption result (BeginsNoneOf sort.EndTag bytes.now)
        (λ r. BeginsItem (plain_item r.0) bytes.now r.1.now) }
{
    let start = after_bytes(b"</", bytes)?;
    let (name, inside) = name_at(start)?;
    end_tag_named(name, inside)
}
