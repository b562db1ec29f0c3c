//! Edits of a well marked document, and taking them back.

ghost use Rattle.std.specs.Prelude.{◌≡◌, ◌≤◌, ◌+◌, nat_lt, IfErr, IfOk, None, OnErr, OnOk};
ghost use Rattle.std.specs.Prelude.{[], length, ℕ};
ghost use Rattle.pv_cache.specs.AcceptedEdits.{IsAccepted, IsHoldable, MAX_EDITED_NODES};
ghost use Rattle.pv_cache.specs.VerdictsAfterChange.{AreJudged, owner_at};
ghost use Rattle.pv_cache.specs.MarkedTasks.{AreNarrowAfter, IsReady, IsTaskFor, edited_doc};
ghost use Rattle.pv_cache.specs.ChangedWords.{AreListTokens};
ghost use Rattle.pv_cache.specs.JudgedMoves.{CountsEdit, CountsRefused};
ghost use Rattle.pv_cache.specs.Moves.{HasGround, IsEdited, IsReverted};
ghost use Rattle.pv_cache.specs.PlainForms.{stamped_doc};
ghost use Rattle.pv_cache.specs.PlainMarked.{plain_marked};
ghost use Rattle.pv_cache.specs.Stamps.{changed_by, stamps_of};
ghost use Rattle.pv_edit.specs.ChangedLists.{changed_lists, makes};
ghost use Rattle.pv_edit.specs.Changes.{list_after};
ghost use Rattle.pv_edit.specs.Counts.{nodes_made, nodes_taken};
ghost use Rattle.pv_edit.specs.FittingChanges.{plain_task};
ghost use Rattle.pv_edit.specs.Inverses.{LeadsBack};
ghost use Rattle.pv_edit.specs.Preparations.{IsPreparation};
ghost use Rattle.pv_edit.specs.Reasons.{kids_at, reason_of};
ghost use Rattle.pv_tree.specs.Marks.{blank_mark};
ghost use Rattle.pv_tree.specs.Plain.{PlainDoc, forest_of};
ghost use Rattle.pv_tree.specs.PlainDocs.{plain_doc};

use crate::updates::ChangedVerdicts;
use crate::well_marked::WellMarked;
use crate::words::ListTokens;
use pv_chars::NoMemory;
use pv_edit::laws::{changed_lists_law, leads_back_law, nodes_law};
use pv_edit::{Done, Edit, EditAnswer, Inverse, Preparation, Task, prepare, prepare_back};
use pv_reach::ReachError;
use pv_steps::Steps;
use pv_tree::Mark;
use std::sync::ledger::Ledger;

// The nodes that an edited document may have below its document node.
const MAX_NODES: u64 = 33_554_432;

// Whether an edit would give a document of so many nodes too many.
fn gives_too_many(edit: &Edit, nodes: u64) -> bool
    requires { nodes ≤ MAX_EDITED_NODES }
    ensures { result ≡ nat_lt (MAX_EDITED_NODES + nodes_taken edit.now)
        (nodes + nodes_made edit.now) }
{
    MAX_NODES + edit.nodes_taken() < nodes + edit.nodes_made()
}

/// An edit that is accepted: what it does, what undoes it, the verdicts of the lists that it
/// changes, and the tokens of its list afterwards.
#[derive(Drop)]
pub(crate) struct JudgedEdit {
    pub task: Task,
    pub inverse: Inverse,
    pub verdicts: ChangedVerdicts,
    pub tokens: ListTokens,
}

impl WellMarked {
    // What an edit does and what undoes it, where it can be made and doesn't give too many nodes;
    // else the ground on which it is refused.
    fn prepare_edit(&self, edit: &Edit) -> Result<Preparation, EditAnswer>
        ensures given { OnOk result (reason_of blank_mark (plain_doc self.now.doc).root edit.now
            ≡ None) }
        ensures prepared { IfOk result (IsPreparation (plain_doc self.now.doc).root edit.now) }
        ensures task { IfOk result (λ ready. IsTaskFor (plain_doc self.now.doc) ready.task) }
        ensures refused { IfErr result (HasGround 0 self.now.grammar self.now.root
            (stamps_of (plain_doc self.now.doc)) edit.now) }
        ensures none { IfErr result (λ why. (lists count : ℕ) →
            CountsRefused lists count count why) }
    {
        changed_lists_law::<Mark>();
        nodes_law::<Mark>();
        let ready = prepare(self.alloc, &self.doc, edit)?;
        if gives_too_many(edit, self.doc.mark.nodes) {
            return Err(EditAnswer::Limit);
        }
        Ok(ready)
    }

    // Prepares an edit as `prepare_edit` does. The tokens of the list that it changes are kept,
    // also if it is refused then.
    fn prepare_keeping(&mut self, edit: &Edit) -> Result<Preparation, EditAnswer>
        ensures same { plain_marked self.new ≡ plain_marked self.old }
        ensures given { OnOk result (reason_of blank_mark (plain_doc self.new.doc).root edit.now
            ≡ None) }
        ensures prepared { IfOk result (IsPreparation (plain_doc self.new.doc).root edit.now) }
        ensures task { IfOk result (λ ready. IsTaskFor (plain_doc self.new.doc) ready.task) }
        ensures refused { IfErr result (HasGround 0 self.old.grammar self.old.root
            (stamps_of (plain_doc self.old.doc)) edit.now) }
        ensures none { IfErr result (λ why. (lists count : ℕ) →
            CountsRefused lists count count why) }
    {
        let ready = self.prepare_edit(edit)?;
        self.keep_tried(&ready.task.list);
        Ok(ready)
    }

    // Judges a prepared edit: it is accepted and ready to be made, or there is a ground to refuse
    // it.
    fn judge_prepared<L: Ledger>(
        &self,
        _edit: &Edit,
        ready: Preparation,
        steps: &mut Steps<L>,
    ) -> Result<JudgedEdit, EditAnswer>
        requires given { reason_of blank_mark (plain_doc self.now.doc).root _edit.now ≡ None }
        requires prepared { IsPreparation (plain_doc self.now.doc).root _edit.now ready }
        requires task { IsTaskFor (plain_doc self.now.doc) ready.task }
        ensures ready { IfOk result (IsReady self.now.grammar self.now.root
            (plain_doc self.now.doc) _edit.now) }
        ensures accepted { OnOk result (IsAccepted 0 self.now.grammar self.now.root
            (stamps_of (plain_doc self.now.doc)) _edit.now
            (stamps_of (edited_doc (plain_doc self.now.doc) _edit.now))) }
        ensures refused { IfErr result (HasGround 0 self.now.grammar self.now.root
            (stamps_of (plain_doc self.now.doc)) _edit.now) }
        ensures each { CountsEdit (length (changed_lists (makes _edit.now))) steps.old steps.new
            result }
        ensures steps { steps.new ≤ steps.old + 2 }
        ensures later { steps.old ≤ steps.new }
    {
        changed_lists_law::<Mark>();
        let Preparation { task, inverse } = ready;
        let (verdicts, tokens) = self.judge_change(&task, steps)?;
        Ok(JudgedEdit {
            task,
            inverse,
            verdicts,
            tokens,
        })
    }

    /// Judges an edit: it is accepted and ready to be made, or there is a ground to refuse it.
    pub(crate) fn judge<L: Ledger>(
        &self,
        edit: &Edit,
        steps: &mut Steps<L>,
    ) -> Result<JudgedEdit, EditAnswer>
        ensures ready { IfOk result (IsReady self.now.grammar self.now.root
            (plain_doc self.now.doc) edit.now) }
        ensures accepted { OnOk result (IsAccepted 0 self.now.grammar self.now.root
            (stamps_of (plain_doc self.now.doc)) edit.now
            (stamps_of (edited_doc (plain_doc self.now.doc) edit.now))) }
        ensures refused { IfErr result (HasGround 0 self.now.grammar self.now.root
            (stamps_of (plain_doc self.now.doc)) edit.now) }
        ensures each { CountsEdit (length (changed_lists (makes edit.now))) steps.old steps.new
            result }
        ensures steps { steps.new ≤ steps.old + 2 }
        ensures later { steps.old ≤ steps.new }
    {
        let ready = self.prepare_edit(edit)?;
        self.judge_prepared(edit, ready, steps)
    }

    /// Makes an edit, where it is accepted, and gives what undoes it. After a refusal the document
    /// is as it was.
    pub(crate) fn edit<L: Ledger>(
        &mut self,
        edit: &Edit,
        stamp: u64,
        steps: &mut Steps<L>,
    ) -> Result<(Done, Inverse), EditAnswer>
        ensures edited { IfOk result (λ made. IsEdited (stamped_doc self.old) edit.now stamp
            made.0 made.1 (stamped_doc self.new)) }
        ensures refused { IfErr result (HasGround 0 self.old.grammar self.old.root
            (stamps_of (plain_doc self.old.doc)) edit.now) }
        ensures unchanged { OnErr result (stamped_doc self.new ≡ stamped_doc self.old) }
        ensures each { CountsEdit (length (changed_lists (makes edit.now))) steps.old steps.new
            result }
        ensures steps { steps.new ≤ steps.old + 2 }
        ensures later { steps.old ≤ steps.new }
    {
        let ready = self.prepare_keeping(edit)?;
        self.edit_prepared(edit, ready, stamp, steps)
    }

    // Makes a prepared edit, where it is accepted.
    fn edit_prepared<L: Ledger>(
        &mut self,
        edit: &Edit,
        ready: Preparation,
        stamp: u64,
        steps: &mut Steps<L>,
    ) -> Result<(Done, Inverse), EditAnswer>
        requires given { reason_of blank_mark (plain_doc self.old.doc).root edit.now ≡ None }
        requires prepared { IsPreparation (plain_doc self.old.doc).root edit.now ready }
        requires task { IsTaskFor (plain_doc self.old.doc) ready.task }
        ensures edited { IfOk result (λ made. IsEdited (stamped_doc self.old) edit.now stamp
            made.0 made.1 (stamped_doc self.new)) }
        ensures refused { IfErr result (HasGround 0 self.old.grammar self.old.root
            (stamps_of (plain_doc self.old.doc)) edit.now) }
        ensures unchanged { OnErr result (stamped_doc self.new ≡ stamped_doc self.old) }
        ensures each { CountsEdit (length (changed_lists (makes edit.now))) steps.old steps.new
            result }
        ensures steps { steps.new ≤ steps.old + 2 }
        ensures later { steps.old ≤ steps.new }
    {
        changed_lists_law::<Mark>();
        let judged = self.judge_prepared(edit, ready, steps)?;
        let JudgedEdit {
            task,
            inverse,
            verdicts,
            tokens,
        } = judged;
        let checked = self.make_judged(task, verdicts, tokens, stamp)?;
        let left = self.doc.mark.left;
        let bad = self.bad;
        Ok((Done { checked, left, bad }, inverse))
    }

    // The verdicts of the lists that a task changes, none of which is too wide afterwards, and the
    // tokens of its list.
    fn judge_back<L: Ledger>(
        &self,
        task: &Task,
        steps: &mut Steps<L>,
    ) -> Result<(ChangedVerdicts, ListTokens), NoMemory>
        requires task { IsTaskFor (plain_doc self.now.doc) task.now }
        requires narrow { AreNarrowAfter self.now.grammar (plain_task task.now)
            (kids_at task.now.list (plain_doc self.now.doc).root) }
        ensures judged { IfOk result (λ found. AreJudged self.now.grammar self.now.root
            (owner_at task.now.list (plain_doc self.now.doc).root)
            (kids_at task.now.list (plain_doc self.now.doc).root)
            (plain_task task.now) found.0.outer found.0.inner) }
        ensures tokens { IfOk result (λ found. AreListTokens self.now.grammar
            (forest_of (list_after (plain_task task.now)
            (kids_at task.now.list (plain_doc self.now.doc).root))) found.1) }
        ensures each { IfOk result (λ found.
            steps.new ≡ steps.old + length (changed_by [] found.0.inner)) }
        ensures steps { steps.new ≤ steps.old + 2 }
        ensures later { steps.old ≤ steps.new }
    {
        let words = self.words_of(task)?;
        match self.judge_task(task, &words, steps) {
            Ok(verdicts) => Ok((verdicts, words.into_outer())),
            Err(ReachError::TooWide) => unreachable!(),
            Err(ReachError::NoMemory) => Err(NoMemory),
        }
    }

    /// Takes an edit back: makes the document that an inverse leads to. After an error the document
    /// is as it was.
    pub(crate) fn revert<L: Ledger>(
        &mut self,
        inverse: &Inverse,
        stamp: u64,
        steps: &mut Steps<L>,
    ) -> Result<Done, NoMemory>
        requires { (before : PlainDoc Unit) ×
            LeadsBack inverse.now (plain_doc self.old.doc) before ×
            IsHoldable self.old.grammar before }
        ensures reverted { (before : PlainDoc Unit)
            (back : LeadsBack inverse.now (plain_doc self.old.doc) before) →
            IfOk result (λ done. IsReverted (stamped_doc self.old) inverse.now back.edit before
            stamp done (stamped_doc self.new)) }
        ensures unchanged { OnErr result (stamped_doc self.new ≡ stamped_doc self.old) }
        ensures each { IfOk result (λ done. steps.new ≡ steps.old + done.checked) }
        ensures steps { steps.new ≤ steps.old + 2 }
        ensures later { steps.old ≤ steps.new }
    {
        leads_back_law::<Mark>();
        changed_lists_law::<Mark>();
        let task = prepare_back(self.alloc, &self.doc, inverse)?;
        let (verdicts, tokens) = self.judge_back(&task, steps)?;
        let checked = self.make_judged(task, verdicts, tokens, stamp)?;
        let left = self.doc.mark.left;
        Ok(Done {
            checked,
            left,
            bad: self.bad,
        })
    }
}
