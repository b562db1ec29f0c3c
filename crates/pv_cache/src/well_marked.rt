//! A well marked document, and what its lists are judged by.

ghost use Rattle.std.specs.Prelude.{◌≡◌, ◌≤◌};
ghost use Rattle.pv_cache.specs.AcceptedEdits.{MAX_EDITED_NODES};
ghost use Rattle.pv_cache.specs.ChangedWords.{AreKeptLists};
ghost use Rattle.pv_cache.specs.WellMarked.{IsWellMarked, told_bad};
ghost use Rattle.pv_tree.specs.Plain.{nodes_in};
ghost use Rattle.pv_tree.specs.PlainDocs.{plain_doc};

use crate::kept_lists::KeptLists;
use crate::planned::PlannedGrammar;
use pv_chars::Bytes;
use pv_tree::Doc;
use std::alloc::Global;

/// A document for a DTD and a root's name, whose marks tell of its lists, and how many of these are
/// Impossible. Of some lists the tokens are kept.
#[derive(Drop)]
pub struct WellMarked {
    pub alloc: Global,
    pub grammar: PlannedGrammar,
    pub root: Bytes,
    pub doc: Doc,
    pub bad: u64,
    pub kept: KeptLists,
    pub ghost marked: { ∥ IsWellMarked grammar root (plain_doc doc) ∥₁ },
    pub ghost counted: { bad ≡ told_bad (plain_doc doc) },
    pub ghost few: { nodes_in (plain_doc doc).root ≤ MAX_EDITED_NODES },
    pub ghost held: { AreKeptLists grammar (plain_doc doc) kept },
}
