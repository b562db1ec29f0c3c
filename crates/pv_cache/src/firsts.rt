//! The first Impossible list, as marks tell.

ghost use Rattle.std.specs.Prelude.{◌≡◌, IfOk};
ghost use Rattle.pv_cache.specs.Firsts.{first_bad};
ghost use Rattle.pv_tree.specs.PlainDocs.{plain_doc};

use pv_chars::NoMemory;
use pv_tree::{Doc, Lists, Path, Verdict};
use std::alloc::Global;

/// The path of the first Impossible list.
pub(crate) fn first_bad(alloc: Global, doc: &Doc) -> Result<Option<Path>, NoMemory>
    ensures { IfOk result (λ first. first ≡ first_bad (plain_doc doc.now)) }
{
    let mut lists = Lists::of(alloc, doc);
    while let Some(list) = lists.next()? {
        if list.mark.verdict == Verdict::Impossible {
            return Ok(Some(lists.path(alloc)?));
        }
    }
    Ok(None)
}
