//! Ranges turned into nested elements.

ghost use Rattle.std.specs.Prelude.{◌≡◌, ◌≤◌, ◌⊎◌, false, length, Ok, Err, IfOk, MatchResult};
ghost use Rattle.pv_chars.specs.Names.{IsName};
ghost use Rattle.pv_chars.specs.Texts.{holds_close_mark};
ghost use Rattle.pv_chars.specs.Units.{AllUnits};
ghost use Rattle.pv_tree.specs.PlainDocs.{plain_doc};
ghost use Rattle.pv_standoff.specs.Ranges.{AreNamed, MAX_RANGES as MAX_RANGE_COUNT};
ghost use Rattle.pv_standoff.specs.NestOutcomes.{NestMeans};
ghost use Rattle.pv_standoff.specs.Spans.{document_of_root};
ghost use Rattle.pv_tree.specs.PlainForms.{plain};

use crate::building::build;
use crate::errors::NestError;
use crate::ranges::{Range, Ranges};
use crate::refusing::{first_crossing, first_outside, first_twice};
use crate::sorting::in_order;
use pv_chars::{Bytes, Units, bytes_of};
use pv_tree::{Doc, Mark, Node};
use std::alloc::Global;

// The root of the one document that stands for the text and the ranges.
fn root_of(alloc: Global, root: Bytes, text: &Units, ranges: &[Range]) -> Result<Node, NestError>
    requires no_close_mark { holds_close_mark text.now ≡ false }
    ensures means { MatchResult result
        (λ node. NestMeans root text.now ranges.now (Ok (document_of_root (plain node))))
        (λ e. (e ≡ NestError.NoMemory) ⊎ NestMeans root text.now ranges.now (Err e)) }
    ensures units { IfOk result (λ _. AllUnits text.now) }
{
    if let Some(k) = first_outside(text.len(), ranges) {
        return Err(NestError::Outside(k as u64));
    }
    let sorted = in_order(alloc, ranges)?;
    if let Some(range) = first_twice(sorted.as_slice()) {
        return Err(NestError::Twice {
            from: range.from,
            to: range.to,
            level: range.level,
        });
    }
    if let Some((range, next)) = first_crossing(alloc, sorted.as_slice())? {
        return Err(NestError::Crossing {
            from: range.from,
            to: range.to,
            next_from: next.from,
            next_to: next.to,
        });
    }
    build(alloc, root, text, sorted.as_slice())
}

/// The one document that stands for the text and the ranges, or the first cause why none is given.
pub fn nest(alloc: Global, root: &[u8], text: &Units, ranges: &Ranges) -> Result<Doc, NestError>
    requires root { IsName root.now }
    requires named { AreNamed ranges.now }
    requires few { length ranges.now ≤ MAX_RANGE_COUNT }
    requires no_close_mark { holds_close_mark text.now ≡ false }
    ensures { MatchResult result
        (λ doc. NestMeans root.now text.now ranges.now (Ok (plain_doc doc)))
        (λ e. (e ≡ NestError.NoMemory) ⊎ NestMeans root.now text.now ranges.now (Err e)) }
{
    let name = bytes_of(alloc, root)?;
    let root = root_of(alloc, name, text, ranges.as_slice())?;
    Ok(Doc {
        before: Bytes::of(Vec::new(alloc)),
        root,
        after: Bytes::of(Vec::new(alloc)),
        mark: Mark::BLANK,
    })
}
