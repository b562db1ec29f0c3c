//! Whether the numbers of a pack agree.

ghost use Rattle.std.specs.Prelude.{◌↔◌, IfOk, IsTrue};
ghost use Rattle.pv_dtd.specs.PlainForms.{plain_dtd};
ghost use Rattle.pv_tree.specs.Lists.{lists_of};
ghost use Rattle.pv_tree.specs.PlainDocs.{plain_doc};
ghost use Rattle.pv_verify.specs.Tests.{HasTotals};

use pv_cert::Pack;
use pv_chars::NoMemory;
use pv_dtd::Dtd;
use pv_table_check::tables_add_up;
use pv_tree::Doc;
use std::alloc::Global;

/// Whether there are as many marks as the total says, and the whole-list values of the tables add
/// up to it.
pub fn totals_agree(
    alloc: Global,
    dtd: &Dtd,
    root: &[u8],
    doc: &Doc,
    pack: &Pack,
) -> Result<bool, NoMemory>
    ensures { IfOk result (λ agree. IsTrue agree ↔ HasTotals (plain_dtd dtd.now) root.now
        (lists_of (plain_doc doc.now)) pack.now) }
{
    if pack.marks.as_slice().len() as u64 != pack.total {
        return Ok(false);
    }
    tables_add_up(alloc, dtd, root, doc, pack.tables.as_slice(), pack.total)
}
