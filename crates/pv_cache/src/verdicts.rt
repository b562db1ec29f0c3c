//! The verdicts of all lists of a document, as its marks tell them.

ghost use Rattle.std.specs.Prelude.{◌≡◌, IfOk};
ghost use Rattle.pv_cache.specs.WellMarked.{verdicts_told};
ghost use Rattle.pv_tree.specs.PlainDocs.{plain_doc};

use pv_chars::NoMemory;
use pv_tree::{Doc, Lists, Verdict};
use std::alloc::Global;

/// The verdicts that the marks of a document tell, in document order.
pub(crate) fn verdicts_told(alloc: Global, doc: &Doc) -> Result<Vec<Verdict>, NoMemory>
    ensures { IfOk result (λ verdicts. verdicts.items ≡ verdicts_told (plain_doc doc.now)) }
{
    let mut verdicts = Vec::new(alloc);
    let mut lists = Lists::of(alloc, doc);
    while let Some(list) = lists.next()? {
        verdicts.push(list.mark.verdict)?;
    }
    Ok(verdicts)
}
