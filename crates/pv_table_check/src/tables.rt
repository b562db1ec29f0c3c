//! Whether the tables of a pack are closed ones of lists of a document.

ghost use Rattle.std.specs.Prelude.{◌≡◌, ◌<◌, ◌-◌, ◌^◌, ◌↔◌, IfOk, IsTrue, length, map};
ghost use Rattle.pv_model.specs.PlainForms.{plain_token};
ghost use Rattle.pv_dtd.specs.PlainForms.{plain_dtd};
ghost use Rattle.pv_rules.specs.Derivations.{IsClosed};
ghost use Rattle.pv_rules.specs.PlainForms.{IsFlat};
ghost use Rattle.pv_rules.specs.Rules.{IsKnownWord, Rule};
ghost use Rattle.pv_tree.specs.Lists.{lists_of};
ghost use Rattle.pv_tree.specs.PlainDocs.{plain_doc};
ghost use Rattle.pv_tables.specs.Values.{listed_value};
ghost use Rattle.pv_table_check.specs.ClosedEntries.{AreOver};
ghost use Rattle.pv_table_check.specs.ClosedTables.{AreClosedTables, IsClosedTable};

use crate::closing::is_closed;
use crate::fitting::are_over;
use crate::lists::find_list;
use crate::paths::paths_ascend;
use crate::tested::Tested;
use pv_chars::NoMemory;
use pv_dtd::Dtd;
use pv_missing::laws::lists::known_word_law;
use pv_model::Token;
use pv_rules::FlatDtd;
use pv_tables::{Entry, Table};
use pv_tree::laws::list_at_law;
use pv_tree::{Doc, Mark, word};
use std::alloc::Global;

// Whether entries are over a word, ascend strictly, and are closed.
fn entries_closed(
    alloc: Global,
    dtd: &Dtd,
    flat: &FlatDtd,
    word: &[Token],
    entries: &[Entry],
) -> bool
    requires flat { IsFlat (plain_dtd dtd.now) flat.now }
    requires few { length word.now < 2 ^ 32 - 1 }
    requires known { IsKnownWord (plain_dtd dtd.now) (map plain_token word.now) }
    ensures { IsTrue result ↔
        (AreOver (plain_dtd dtd.now) (map plain_token word.now) entries.now ×
        IsClosed (Rule (plain_dtd dtd.now) (map plain_token word.now))
        (listed_value entries.now)) }
{
    if !are_over(dtd, flat, word, entries) {
        return false;
    }
    let tested = Tested {
        alloc,
        dtd,
        flat,
        word,
        entries,
    };
    is_closed(&tested)
}

// Whether a table is a closed one of a list of the document.
fn table_closed(
    alloc: Global,
    dtd: &Dtd,
    flat: &FlatDtd,
    root: &[u8],
    doc: &Doc,
    table: &Table,
) -> Result<bool, NoMemory>
    requires { IsFlat (plain_dtd dtd.now) flat.now }
    ensures { IfOk result (λ closed. IsTrue closed ↔ IsClosedTable (plain_dtd dtd.now) root.now
        (lists_of (plain_doc doc.now)) table.now) }
{
    list_at_law::<Mark>();
    known_word_law::<Mark>();
    let Some(list) = find_list(dtd, root, doc, &table.path) else {
        return Ok(false);
    };
    let tokens = word(alloc, dtd, list.kids)?;
    Ok(entries_closed(
        alloc,
        dtd,
        flat,
        tokens.as_slice(),
        table.entries.as_slice(),
    ))
}

/// Whether the paths of tables ascend in document order, and each table is a closed one of a list
/// of the document.
///
/// It looks up the list of each table by its path, and tests the rules of the missing grammar over
/// the listed entries alone: in a time about linear in the entries, the sites of the DTD and the
/// sums that are tried. It takes memory for the parts of the DTD and for the longest word.
pub fn tables_closed(
    alloc: Global,
    dtd: &Dtd,
    root: &[u8],
    doc: &Doc,
    tables: &[Table],
) -> Result<bool, NoMemory>
    ensures { IfOk result (λ closed. IsTrue closed ↔ AreClosedTables (plain_dtd dtd.now) root.now
        (lists_of (plain_doc doc.now)) tables.now) }
{
    let flat = FlatDtd::of(alloc, dtd)?;
    if !paths_ascend(tables) {
        return Ok(false);
    }
    for table in tables {
        if !table_closed(alloc, dtd, &flat, root, doc, table)? {
            return Ok(false);
        }
    }
    Ok(true)
}
