//! What is known of each list of a document.

ghost use Rattle.std.specs.Prelude.{◌≡◌, IfOk};
ghost use Rattle.pv_cache.specs.Rows.{rows_of};
ghost use Rattle.pv_tree.specs.PlainDocs.{plain_doc};

use pv_chars::NoMemory;
use pv_edit::VerdictRow;
use pv_tree::{Doc, Lists};
use std::alloc::Global;

/// What the marks of a document tell of each list, in document order.
pub(crate) fn rows_of(alloc: Global, doc: &Doc) -> Result<Vec<VerdictRow>, NoMemory>
    ensures { IfOk result (λ rows. rows.items ≡ rows_of (plain_doc doc.now)) }
{
    let mut rows = Vec::new(alloc);
    let mut lists = Lists::of(alloc, doc);
    while let Some(list) = lists.next()? {
        let path = lists.path(alloc)?;
        rows.push(VerdictRow {
            path,
            verdict: list.mark.verdict,
            stamp: list.mark.stamp,
        })?;
    }
    Ok(rows)
}
