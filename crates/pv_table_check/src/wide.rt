//! Tables of lists that are too wide for weights.

ghost use Rattle.std.specs.Prelude.{◌≡◌, false, IfOk, IfSome, IsNone, IsTrue};
ghost use Rattle.std.specs.List.{Contains};
ghost use Rattle.pv_dtd.specs.PlainForms.{plain_dtd};
ghost use Rattle.pv_tree.specs.Lists.{Listed, lists_of};
ghost use Rattle.pv_tree.specs.PlainDocs.{plain_doc};
ghost use Rattle.pv_tree.specs.declared.nodes.Mark.{Mark};
ghost use Rattle.pv_missing.specs.Widths.{IsListForWeights};
ghost use Rattle.pv_table_check.specs.ClosedTables.{AreNarrowTables, IsFirstWideTable, IsNarrowTable};

use pv_chars::NoMemory;
use pv_dtd::Dtd;
use pv_missing::is_narrow_for_weights;
use pv_tables::Table;
use pv_tree::laws::list_at_law;
use pv_tree::{Doc, Mark, Path, word};
use std::alloc::Global;

// Whether a table has the path of a list of the document that is too wide for weights.
fn is_wide(alloc: Global, dtd: &Dtd, doc: &Doc, table: &Table) -> Result<bool, NoMemory>
    ensures wide { IfOk result (λ wide. IsTrue wide → (list : Listed Mark) ×
        Contains (lists_of (plain_doc doc.now)) list × (table.now.path ≡ list.path) ×
        ¬ IsListForWeights (plain_dtd dtd.now) list) }
    ensures narrow { IfOk result (λ wide. wide ≡ false →
        IsNarrowTable (plain_dtd dtd.now) (lists_of (plain_doc doc.now)) table.now) }
{
    list_at_law::<Mark>();
    let Some(kids) = doc.kids_at(&table.path) else {
        return Ok(false);
    };
    let tokens = word(alloc, dtd, kids)?;
    Ok(!is_narrow_for_weights(dtd, tokens.as_slice().len() as u64))
}

/// The path of the first table that has that of a list of the document which is too wide for
/// weights.
pub fn first_wide_table(
    alloc: Global,
    dtd: &Dtd,
    doc: &Doc,
    tables: &[Table],
) -> Result<Option<Path>, NoMemory>
    ensures none { IfOk result (λ found. IsNone found →
        AreNarrowTables (plain_dtd dtd.now) (lists_of (plain_doc doc.now)) tables.now) }
    ensures first { IfOk result (λ found. IfSome found
        (IsFirstWideTable (plain_dtd dtd.now) (lists_of (plain_doc doc.now)) tables.now)) }
{
    for table in tables {
        if is_wide(alloc, dtd, doc, table)? {
            return Ok(Some(Path::new(alloc, table.path.places())?));
        }
    }
    Ok(None)
}
