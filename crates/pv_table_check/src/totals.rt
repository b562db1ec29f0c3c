//! What the tables of a pack add up to.

ghost use Rattle.std.specs.Prelude.{◌≡◌, ◌↔◌, ℕ, IfOk, IfSome, IsNone, IsTrue};
ghost use Rattle.pv_dtd.specs.PlainForms.{plain_dtd};
ghost use Rattle.pv_rules.specs.PlainForms.{plain_site};
ghost use Rattle.pv_rules.specs.Rules.{over};
ghost use Rattle.pv_tree.specs.Lists.{lists_of};
ghost use Rattle.pv_tree.specs.PlainDocs.{plain_doc};
ghost use Rattle.pv_tables.specs.Values.{HasWholeValue, HaveTotal, listed_value};

use crate::lists::find_list;
use crate::lookup::is_same_goal;
use pv_chars::NoMemory;
use pv_dtd::Dtd;
use pv_rules::{HEAVIEST, Site};
use pv_tables::laws::goals_law;
use pv_tables::{Entry, Table};
use pv_tree::laws::list_at_law;
use pv_tree::{Doc, Mark, word};
use std::alloc::Global;

// The value that the first of some entries gives a site over a span, in whatever order they stand.
fn first_value(entries: &[Entry], site: Site, from: u32, to: u32) -> u32
    ensures { result ≡ listed_value entries.now (over (plain_site site) from to) }
{
    goals_law();
    let probe = Entry {
        site,
        from,
        to,
        value: 0,
    };
    for entry in entries {
        if is_same_goal(entry, &probe) {
            return entry.value;
        }
    }
    HEAVIEST
}

// The value of a table for the whole word of its list; none where it has the path of no list, or of
// one whose owner's name the DTD doesn't have.
fn whole_value(
    alloc: Global,
    dtd: &Dtd,
    root: &[u8],
    doc: &Doc,
    table: &Table,
) -> Result<Option<u32>, NoMemory>
    ensures value { IfOk result (λ value. IfSome value (HasWholeValue (plain_dtd dtd.now) root.now
        (lists_of (plain_doc doc.now)) table.now)) }
    ensures none { IfOk result (λ value. IsNone value → (k : ℕ) → HasWholeValue (plain_dtd dtd.now)
        root.now (lists_of (plain_doc doc.now)) table.now k → ⊥) }
{
    let Some(list) = find_list(dtd, root, doc, &table.path) else {
        return Ok(None);
    };
    let tokens = word(alloc, dtd, list.kids)?;
    let places = tokens.as_slice().len() as u32;
    Ok(Some(first_value(table.entries.as_slice(), list.site, 0, places)))
}

/// Whether the whole-list values of tables add up to a total.
///
/// What isn't listed counts 1,000,001. It takes memory for the longest word.
pub fn tables_add_up(
    alloc: Global,
    dtd: &Dtd,
    root: &[u8],
    doc: &Doc,
    tables: &[Table],
    total: u64,
) -> Result<bool, NoMemory>
    ensures { IfOk result (λ agree. IsTrue agree ↔ HaveTotal (plain_dtd dtd.now) root.now
        (lists_of (plain_doc doc.now)) tables.now total) }
{
    list_at_law::<Mark>();
    let mut left = total;
    for table in tables {
        let Some(value) = whole_value(alloc, dtd, root, doc, table)? else {
            return Ok(false);
        };
        let Some(less) = left.checked_sub(u64::from(value)) else {
            return Ok(false);
        };
        left = less;
    }
    Ok(left == 0)
}
