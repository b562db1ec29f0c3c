//! The decision on a change of one list, by the verdicts of the lists that it changes.

ghost use Rattle.std.specs.Prelude.{◌≡◌, ◌≤◌, ◌+◌, true, IfErr, IfOk, IfSome, MatchOption, Some};
ghost use Rattle.std.specs.Prelude.{false, length, None};
ghost use Rattle.pv_cache.specs.BadLists.{bad_gained, bad_lost};
ghost use Rattle.pv_cache.specs.VerdictsAfterChange.{AreJudged, IsFirstAmong, owner_at};
ghost use Rattle.pv_cache.specs.MarkedTasks.{IsTaskFor, IsUnaccepted};
ghost use Rattle.pv_cache.specs.ChangedWords.{AreListTokens, AreWords};
ghost use Rattle.pv_cache.specs.declared.updates.InnerVerdict.{InnerVerdict};
ghost use Rattle.pv_cache.specs.JudgedMoves.{CountsEdit};
ghost use Rattle.pv_edit.specs.BroughtElements.{lists_changed};
ghost use Rattle.pv_edit.specs.Changes.{list_after};
ghost use Rattle.pv_edit.specs.FittingChanges.{plain_task};
ghost use Rattle.pv_edit.specs.Reasons.{kids_at};
ghost use Rattle.pv_tree.specs.Plain.{forest_of};
ghost use Rattle.pv_tree.specs.PlainDocs.{plain_doc};
ghost use Rattle.pv_tree.specs.declared.nodes.Verdict.TheVariants as verdict;

use crate::updates::{ChangedVerdicts, InnerVerdict};
use crate::well_marked::WellMarked;
use crate::words::{ListTokens, Words};
use pv_chars::NoMemory;
use pv_edit::{EditAnswer, Task, kid_path};
use pv_reach::ReachError;
use pv_steps::Steps;
use pv_tree::{Path, Verdict};
use std::alloc::Global;
use std::sync::ledger::Ledger;

// Whether the inner list, if there is one, is Impossible.
fn is_inner_impossible(inner: Option<InnerVerdict>) -> bool
    ensures is { result ≡ true → (i : InnerVerdict) × (inner ≡ Some i) ×
        (i.verdict ≡ verdict.Impossible) }
    ensures isnt { result ≡ false → IfSome inner (λ i. i.verdict ≡ verdict.Impossible → ⊥) }
{
    match inner {
        None => false,
        Some(inner) => inner.verdict == Verdict::Impossible,
    }
}

/// The path of the first of the changed lists whose verdict is Impossible. `list` is the path of
/// the outer list, and `from` the place of the inner one's owner in it.
fn first_impossible(
    alloc: Global,
    list: &Path,
    from: u32,
    verdicts: &ChangedVerdicts,
) -> Result<Option<Path>, NoMemory>
    requires { IfSome verdicts.now.inner (λ i. i.place ≡ from) }
    ensures { IfOk result (λ first. MatchOption first
        (bad_gained verdicts.now.outer verdicts.now.inner ≡ 0)
        (IsFirstAmong list.now verdicts.now.outer verdicts.now.inner)) }
{
    if verdicts.outer == Verdict::Impossible {
        return Ok(Some(Path::new(alloc, list.places())?));
    }
    if is_inner_impossible(verdicts.inner) {
        return Ok(Some(kid_path(alloc, list, from)?));
    }
    Ok(None)
}

impl WellMarked {
    // Decides on a change by its words: the verdicts of the lists that it changes, or why it isn't
    // accepted.
    // Limits come before verdicts, and the outer list before the inner one. No more lists may be
    // Impossible afterwards.
    fn decide<L: Ledger>(
        &self,
        task: &Task,
        words: &Words<'_>,
        steps: &mut Steps<L>,
    ) -> Result<ChangedVerdicts, EditAnswer>
        requires task { IsTaskFor (plain_doc self.now.doc) task.now }
        requires words { AreWords self.now.grammar (plain_task task.now)
            (kids_at task.now.list (plain_doc self.now.doc).root) words.now }
        ensures judged { IfOk result (λ verdicts. AreJudged self.now.grammar self.now.root
            (owner_at task.now.list (plain_doc self.now.doc).root)
            (kids_at task.now.list (plain_doc self.now.doc).root)
            (plain_task task.now) verdicts.outer verdicts.inner) }
        ensures no_more { IfOk result (λ verdicts. bad_gained verdicts.outer verdicts.inner
            ≤ bad_lost (plain_task task.now) (plain_doc self.now.doc)) }
        ensures refused { IfErr result (IsUnaccepted self.now.grammar self.now.root
            (plain_doc self.now.doc) (plain_task task.now)) }
        ensures each { CountsEdit (length (lists_changed (plain_task task.now))) steps.old
            steps.new result }
        ensures steps { steps.new ≤ steps.old + 2 }
        ensures later { steps.old ≤ steps.new }
    {
        let verdicts = match self.judge_task(task, words, steps) {
            Ok(verdicts) => verdicts,
            Err(ReachError::TooWide) => return Err(EditAnswer::Limit),
            Err(ReachError::NoMemory) => return Err(EditAnswer::NoMemory),
        };
        if self.bad_after(task, &verdicts) <= self.bad {
            return Ok(verdicts);
        }
        let from = task.change.from as u32;
        match first_impossible(self.alloc, &task.list, from, &verdicts)? {
            None => unreachable!(),
            Some(path) => Err(EditAnswer::Impossible(path)),
        }
    }

    /// Judges a task: the verdicts of the lists that it changes and the tokens of its list
    /// afterwards, or why it isn't accepted.
    pub(crate) fn judge_change<L: Ledger>(
        &self,
        task: &Task,
        steps: &mut Steps<L>,
    ) -> Result<(ChangedVerdicts, ListTokens), EditAnswer>
        requires { IsTaskFor (plain_doc self.now.doc) task.now }
        ensures judged { IfOk result (λ found. AreJudged self.now.grammar self.now.root
            (owner_at task.now.list (plain_doc self.now.doc).root)
            (kids_at task.now.list (plain_doc self.now.doc).root)
            (plain_task task.now) found.0.outer found.0.inner) }
        ensures no_more { IfOk result (λ found. bad_gained found.0.outer found.0.inner
            ≤ bad_lost (plain_task task.now) (plain_doc self.now.doc)) }
        ensures tokens { IfOk result (λ found. AreListTokens self.now.grammar
            (forest_of (list_after (plain_task task.now)
            (kids_at task.now.list (plain_doc self.now.doc).root))) found.1) }
        ensures refused { IfErr result (IsUnaccepted self.now.grammar self.now.root
            (plain_doc self.now.doc) (plain_task task.now)) }
        ensures each { CountsEdit (length (lists_changed (plain_task task.now))) steps.old
            steps.new result }
        ensures steps { steps.new ≤ steps.old + 2 }
        ensures later { steps.old ≤ steps.new }
    {
        let words = self.words_of(task)?;
        let verdicts = self.decide(task, &words, steps)?;
        Ok((verdicts, words.into_outer()))
    }
}
