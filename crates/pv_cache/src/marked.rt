//! A document whose marks tell the verdict of each list, whatever edits came before.

ghost use Rattle.std.specs.Prelude.{◌≡◌, ◌≤◌, ◌+◌, ℕ, None, IfErr, IfOk, MatchOption};
ghost use Rattle.std.specs.Prelude.{OnErr, OnOk, length};
ghost use Rattle.std.specs.List.{AllByRecursion};
ghost use Rattle.pv_cache.specs.AcceptedEdits.{IsAccepted, IsHoldable, MAX_EDITED_NODES};
ghost use Rattle.pv_cache.specs.JudgedMoves.{CountsEdit};
ghost use Rattle.pv_cache.specs.Moves.{HasBad, HasGround, HasOpen, IsEdited, IsReverted};
ghost use Rattle.pv_cache.specs.Rows.{AreRows, IsVerdictAt, TellVerdicts};
ghost use Rattle.pv_cache.specs.Stamps.{doc_as, stamps_of};
ghost use Rattle.pv_cache.specs.WellMarked.{IsWellMarked};
ghost use Rattle.pv_edit.specs.ChangedLists.{changed_lists, makes};
ghost use Rattle.pv_edit.specs.Inverses.{IsKept, LeadsBack};
ghost use Rattle.pv_missing.specs.Verdicts.{HaveVerdicts};
ghost use Rattle.pv_missing.specs.Widths.{IsListForVerdict};
ghost use Rattle.pv_productive.specs.PlainForms.{dtd_of};
ghost use Rattle.pv_tree.specs.Lists.{lists_of};
ghost use Rattle.pv_tree.specs.Places.{list_at};
ghost use Rattle.pv_tree.specs.Plain.{PlainDoc, nodes_in};
ghost use Rattle.pv_tree.specs.PlainDocs.{plain_doc};

use crate::bad_lists::bad_by;
use crate::firsts::first_bad;
use crate::kept_lists::KeptLists;
use crate::laying::lay_doc;
use crate::planned::PlannedGrammar;
use crate::rows::rows_of;
use crate::told::told_verdict;
use crate::verdicts::verdicts_told;
use crate::well_marked::WellMarked;
use pv_chars::{Bytes, List, NoMemory};
use pv_edit::{Ask, Done, Edit, EditAnswer, Inverse, VerdictRows};
use pv_missing::Verdicts;
use pv_productive::Grammar;
use pv_steps::Steps;
use pv_tree::{Doc, Found, Path, Verdict};
use std::alloc::Global;
use std::marker::Model;
use std::sync::ledger::Ledger;

/// A document for a DTD and a root's name, whose marks tell the verdict of each list.
///
/// No list of it is too wide for a verdict, and it has at most 33,554,432 nodes below its document
/// node. It also keeps how many of its lists are Impossible.
#[derive(Drop)]
pub struct Marked {
    document: WellMarked,
}

impl Model for Marked {
    ghost use Rattle.pv_cache.specs.Stamps.{StampedDoc};
    ghost use Rattle.pv_cache.specs.Codes.{stamped_code};

    ghost Value = { StampedDoc };

    ghost coded = { stamped_code };

    ghost use Rattle.pv_cache.specs.PlainForms.{stamped_inside};

    ghost view = { stamped_inside };
}

impl Marked {
    /// Marks a document by the verdicts of its lists. It isn't copied, and all stamps are 0. The
    /// call lays out the rules of the grammar; who has them laid out calls `build_by`.
    pub fn build(
        alloc: Global,
        grammar: Grammar,
        root: Bytes,
        doc: Doc,
        verdicts: Verdicts,
    ) -> Result<Marked, NoMemory>
        requires verdicts { HaveVerdicts (dtd_of grammar) root (lists_of (plain_doc doc)) verdicts }
        requires narrow { AllByRecursion (IsListForVerdict (dtd_of grammar))
            (lists_of (plain_doc doc)) }
        requires few { nodes_in (plain_doc doc).root ≤ MAX_EDITED_NODES }
        ensures { IfOk result (λ marked. marked
            ≡ record { dtd = dtd_of grammar; root = root; doc = doc_as (λ _. 0) (plain_doc doc) }) }
    {
        let grammar = PlannedGrammar::of(alloc, grammar)?;
        Ok(Marked::build_by(alloc, grammar, root, doc, verdicts))
    }

    /// Marks a document by a grammar whose rules are laid out.
    pub fn build_by(
        alloc: Global,
        grammar: PlannedGrammar,
        root: Bytes,
        doc: Doc,
        verdicts: Verdicts,
    ) -> Marked
        requires verdicts { HaveVerdicts grammar root (lists_of (plain_doc doc)) verdicts }
        requires narrow { AllByRecursion (IsListForVerdict grammar) (lists_of (plain_doc doc)) }
        requires few { nodes_in (plain_doc doc).root ≤ MAX_EDITED_NODES }
        ensures { result
            ≡ record { dtd = grammar; root = root; doc = doc_as (λ _. 0) (plain_doc doc) } }
    {
        let mut doc = doc;
        lay_doc(&mut doc, &verdicts);
        let bad = bad_by(&doc, &verdicts);
        let document = WellMarked {
            alloc,
            grammar,
            root,
            doc,
            bad,
            kept: KeptLists::none(),
        };
        Marked { document }
    }

    /// Judges an edit: Ok where it is accepted, else the ground on which it is refused.
    ///
    /// At most two lists are checked, beside the tree.
    pub fn judge<L: Ledger>(&self, edit: &Edit, steps: &mut Steps<L>) -> Result<(), EditAnswer>
        ensures accepted { OnOk result ((edited : PlainDoc ℕ) ×
            IsAccepted 0 self.now.dtd self.now.root self.now.doc edit.now edited) }
        ensures refused { IfErr result (HasGround 0 self.now.dtd self.now.root self.now.doc
            edit.now) }
        ensures each { CountsEdit (length (changed_lists (makes edit.now))) steps.old steps.new
            result }
        ensures steps { steps.new ≤ steps.old + 2 }
        ensures later { steps.old ≤ steps.new }
    {
        let _judged = self.document.judge(edit, steps)?;
        Ok(())
    }

    /// Keeps the tokens of the list that an edit is asked of, and remembers its word, so that
    /// `judge` is faster for each name that is tried. No answer depends on it.
    pub fn keep_for(&mut self, ask: &Ask)
        ensures { self.new ≡ self.old }
    {
        self.document.keep_for(ask)
    }

    /// Makes an edit, where it is accepted, and gives what undoes it. The lists that it changes get
    /// the stamp. After a refusal the document is as it was.
    ///
    /// At most two lists are checked, beside the tree.
    pub fn edit<L: Ledger>(
        &mut self,
        edit: &Edit,
        stamp: u64,
        steps: &mut Steps<L>,
    ) -> Result<(Done, Inverse), EditAnswer>
        ensures edited { IfOk result (λ made. IsEdited self.old edit.now stamp made.0 made.1
            self.new) }
        ensures refused { IfErr result (HasGround 0 self.old.dtd self.old.root self.old.doc
            edit.now) }
        ensures unchanged { OnErr result (self.new ≡ self.old) }
        ensures each { CountsEdit (length (changed_lists (makes edit.now))) steps.old steps.new
            result }
        ensures steps { steps.new ≤ steps.old + 2 }
        ensures later { steps.old ≤ steps.new }
    {
        self.document.edit(edit, stamp, steps)
    }

    /// Takes an edit back: makes the document that an inverse leads to, which can be held. The
    /// lists that this changes get the stamp. After an error the document is as it was.
    ///
    /// At most two lists are checked, beside the tree.
    pub fn revert<L: Ledger>(
        &mut self,
        inverse: &Inverse,
        stamp: u64,
        steps: &mut Steps<L>,
    ) -> Result<Done, NoMemory>
        requires { (before : PlainDoc Unit) × LeadsBack inverse.now self.old.doc before ×
            IsHoldable self.old.dtd before }
        ensures reverted { (before : PlainDoc Unit)
            (back : LeadsBack inverse.now self.old.doc before) →
            IfOk result (λ done. IsReverted self.old inverse.now back.edit before stamp done
            self.new) }
        ensures unchanged { OnErr result (self.new ≡ self.old) }
        ensures each { IfOk result (λ done. steps.new ≡ steps.old + done.checked) }
        ensures steps { steps.new ≤ steps.old + 2 }
        ensures later { steps.old ≤ steps.new }
    {
        self.document.revert(inverse, stamp, steps)
    }

    /// How many lists of the document are Possible.
    pub fn open_count(&self) -> u64
        ensures { HasOpen self.now result }
    {
        self.document.doc.mark.left
    }

    /// How many lists of the document are Impossible.
    pub fn bad_count(&self) -> u64
        ensures { HasBad self.now result }
    {
        self.document.bad
    }

    /// The verdict of the list at a path; none where no list stands there.
    pub fn verdict_at(&self, path: &Path) -> Option<Verdict>
        ensures { MatchOption result (list_at path.now self.now.doc.root ≡ None)
            (IsVerdictAt self.now.dtd self.now.root self.now.doc path.now) }
    {
        match self.document.doc.node_at(path) {
            None => None,
            Some(Found::Document) => Some(self.document.doc.mark.verdict),
            Some(Found::Inner(node)) => told_verdict(node),
        }
    }

    /// The path, the verdict and the stamp of each list, in document order.
    pub fn verdict_rows(&self) -> Result<VerdictRows, NoMemory>
        ensures { IfOk result (AreRows self.now) }
    {
        Ok(List::of(rows_of(self.document.alloc, &self.document.doc)?))
    }

    /// The verdicts of all its lists, in document order, and the path of the first Impossible one.
    pub fn verdicts(&self) -> Result<Verdicts, NoMemory>
        ensures { IfOk result (TellVerdicts self.now) }
    {
        let verdicts = verdicts_told(self.document.alloc, &self.document.doc)?;
        let first = first_bad(self.document.alloc, &self.document.doc)?;
        Ok(Verdicts::of(verdicts, first))
    }

    /// The document; its marks are those of a well marked one.
    pub fn doc(&self) -> &Doc
        ensures doc { stamps_of (plain_doc result.now) ≡ self.now.doc }
        ensures marked { ∥ IsWellMarked self.now.dtd self.now.root (plain_doc result.now) ∥₁ }
    {
        &self.document.doc
    }

    /// The root's name.
    pub fn root(&self) -> &[u8]
        ensures { result.now ≡ self.now.root }
    {
        self.document.root.as_slice()
    }

    /// The grammar that edits are judged by.
    pub fn grammar(&self) -> &Grammar
        ensures { dtd_of result.now ≡ self.now.dtd }
    {
        self.document.grammar.grammar()
    }

    /// The document can be held, and it has what each document has.
    pub fn holdable_law(&self)
        ensures holdable { IsHoldable self.now.dtd self.now.doc }
        ensures kept { IsKept self.now.doc.root }
    {
        let _document = &self.document;
    }
}
