//! The tables of a document.

ghost use Rattle.std.specs.Prelude.{IfErr, IfOk};
ghost use Rattle.pv_productive.specs.PlainForms.{dtd_of};
ghost use Rattle.pv_tree.specs.PlainDocs.{plain_doc};
ghost use Rattle.pv_complete.specs.KnownWeights.{AreKnown};
ghost use Rattle.pv_complete.specs.NeededElements.{AreLiveVerdicts, Needs};
ghost use Rattle.pv_complete.specs.Tables.{HasTables, HasTablesCause};

use crate::errors::NeedError;
use crate::listings::made::Made;
use crate::listings::tabling::table_doc;
use crate::missing::known::KnownWeights;
use crate::missing::needing::need_under;
use pv_chars::List;
use pv_missing::Verdicts;
use pv_span::{ColumnLayout, Tables};
use pv_tree::Doc;
use std::alloc::Global;

/// How many elements are missing in a document, and the tables that show it.
#[derive(Drop)]
pub struct TabledNeed {
    pub count: u64,
    pub tables: Tables,
}

/// The least number of missing elements of a document with its tables, under a grammar that is laid
/// out, by the verdicts of its lists.
pub fn tables_under(
    alloc: Global,
    layout: &ColumnLayout<'_>,
    root: &[u8],
    doc: &Doc,
    verdicts: &Verdicts,
    known: &mut KnownWeights,
) -> Result<TabledNeed, NeedError>
    requires { AreKnown (dtd_of layout.now.grammar.now) known.old }
    ensures needs { IfOk result (λ told. AreLiveVerdicts (dtd_of layout.now.grammar.now) root.now
        (plain_doc doc.now) verdicts.now.verdicts →
        Needs (dtd_of layout.now.grammar.now) root.now (plain_doc doc.now) told.count) }
    ensures tables { IfOk result (λ told. AreLiveVerdicts (dtd_of layout.now.grammar.now) root.now
        (plain_doc doc.now) verdicts.now.verdicts →
        HasTables (dtd_of layout.now.grammar.now) root.now (plain_doc doc.now) told.tables) }
    ensures refused { IfErr result (λ error. AreLiveVerdicts (dtd_of layout.now.grammar.now)
        root.now (plain_doc doc.now) verdicts.now.verdicts →
        HasTablesCause (dtd_of layout.now.grammar.now) root.now (plain_doc doc.now) error) }
    ensures known { AreKnown (dtd_of layout.now.grammar.now) known.new }
{
    let count = need_under(alloc, layout, root, doc, verdicts, known)?;
    let mut made = Made::new(alloc);
    table_doc(alloc, layout, root, doc, verdicts, known, &mut made)?;
    Ok(TabledNeed {
        count,
        tables: List::of(made.tables),
    })
}
