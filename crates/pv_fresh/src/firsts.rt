//! The first Impossible list: its number, and its path.

ghost use Rattle.std.specs.Prelude.{◌≡◌, ◌≢◌, List, ℕ, IfOk, MatchOption, Some, slice_get};
ghost use Rattle.pv_dtd.specs.Plain.{PlainDtd};
ghost use Rattle.pv_tree.specs.Lists.{lists_of};
ghost use Rattle.pv_tree.specs.PlainDocs.{plain_doc};
ghost use Rattle.pv_tree.specs.declared.nodes.Verdict.TheVariants as verdict;
ghost use Rattle.pv_missing.specs.Verdicts.{AreVerdicts, HaveVerdicts, IsFirstVerdict};
ghost use Rattle.pv_fresh.specs.Firsts.{IsFirstPath, IsPathOf};

use pv_chars::NoMemory;
use pv_missing::Verdicts;
use pv_missing::laws::verdicts::first_impossible_at_law;
use pv_tree::{Doc, Lists, Mark, Path, Verdict};
use std::alloc::Global;

// The number of the first Impossible verdict.
fn first_impossible(verdicts: &[Verdict]) -> Option<u64>
    ensures { MatchOption result
        ((k : ℕ) → slice_get verdicts.now k ≢ Some verdict.Impossible)
        (IsFirstVerdict verdict.Impossible verdicts.now) }
{
    for (k, one) in verdicts.iter().enumerate() {
        if matches!(one, Verdict::Impossible) {
            return Some(k as u64);
        }
    }
    None
}

// The path of the list of this number, counted from 0 in document order.
fn path_of_list(alloc: Global, doc: &Doc, number: u64) -> Result<Path, NoMemory>
    ensures { IfOk result (IsPathOf (lists_of (plain_doc doc.now)) number) }
{
    let mut lists = Lists::of(alloc, doc);
    for _list in 0..number {
        lists.next()?;
    }
    lists.next()?;
    lists.path(alloc)
}

// The path of the first list whose verdict is Impossible.
fn first_path(alloc: Global, doc: &Doc, verdicts: &[Verdict]) -> Result<Option<Path>, NoMemory>
    ensures { IfOk result (IsFirstPath (lists_of (plain_doc doc.now)) verdicts.now) }
{
    match first_impossible(verdicts) {
        Some(number) => Ok(Some(path_of_list(alloc, doc, number)?)),
        None => Ok(None),
    }
}

/// The verdicts of all lists of a document, with the path of the first Impossible one.
pub fn with_first(alloc: Global, doc: &Doc, verdicts: Vec<Verdict>) -> Result<Verdicts, NoMemory>
    ensures verdicts { IfOk result (λ vs. vs.verdicts ≡ verdicts.items) }
    ensures first { IfOk result (λ vs. (g : PlainDtd) (root : List ℕ) →
        AreVerdicts g root (lists_of (plain_doc doc.now)) verdicts.items →
        HaveVerdicts g root (lists_of (plain_doc doc.now)) vs) }
{
    first_impossible_at_law::<Mark>();
    let first = first_path(alloc, doc, &verdicts)?;
    Ok(Verdicts::of(verdicts, first))
}
