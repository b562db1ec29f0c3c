//! A change of one list of a well marked document.

ghost use Rattle.std.specs.Prelude.{◌≡◌, ◌≤◌, ◌<◌, ◌+◌, ◌^◌, [], false, IfErr, IfOk, IfSome};
ghost use Rattle.std.specs.Prelude.{OnErr, OnOk, length};
ghost use Rattle.std.specs.List.{between};
ghost use Rattle.std.specs.Option.{option_map};
ghost use Rattle.pv_cache.specs.BadLists.{bad_gained, bad_lost, own_at};
ghost use Rattle.pv_cache.specs.VerdictsAfterChange.{AreJudged, owner_at};
ghost use Rattle.pv_cache.specs.MarkedTasks.{AreNarrowAfter, IsChanged, IsTaskFor};
ghost use Rattle.pv_cache.specs.ChangedWords.{AreListTokens, AreWords};
ghost use Rattle.pv_cache.specs.Updates.{IsExchange};
ghost use Rattle.pv_cache.specs.PlainMarked.{plain_marked};
ghost use Rattle.pv_cache.specs.Stamps.{changed_by};
ghost use Rattle.pv_cache.specs.WellMarked.{told_left_in, told_nodes_in};
ghost use Rattle.pv_edit.specs.Changes.{list_after};
ghost use Rattle.pv_edit.specs.FittingChanges.{SuitsChange, plain_change, plain_task};
ghost use Rattle.pv_edit.specs.Reasons.{kids_at, lacks_list};
ghost use Rattle.pv_missing.specs.PlainForms.{plain_of};
ghost use Rattle.pv_missing.specs.ListWeights.{site_of};
ghost use Rattle.pv_reach.specs.declared.errors.ReachError.TheVariants.{TooWide as too_wide};
ghost use Rattle.pv_rules.specs.Sites.{HasSite};
ghost use Rattle.pv_tree.specs.Places.{spot_at};
ghost use Rattle.pv_tree.specs.Plain.{forest_of};
ghost use Rattle.pv_tree.specs.PlainDocs.{plain_doc};
ghost use Rattle.pv_tree.specs.PlainForms.{plain_all};

use crate::bad_lists::{bad_taken, own_bad, own_inner, own_of};
use crate::judging::judge_words;
use crate::told::told_in;
use crate::updates::{ChangedVerdicts, Exchange, Update, update_doc};
use crate::well_marked::WellMarked;
use crate::words::{ListTokens, Words};
use pv_chars::NoMemory;
use pv_edit::{Change, Task, make};
use pv_missing::{Of, element_owner, root_owner};
use pv_reach::ReachError;
use pv_steps::Steps;
use pv_tree::{Found, Node, Path};
use std::sync::ledger::Ledger;

// How many lists have a new verdict.
fn number_of(update: &Update) -> u32
    ensures { result ≡ length (changed_by [] update.now.inner) }
{
    match update.inner {
        None => 1,
        Some(_) => 2,
    }
}

// What a change of these kids exchanges.
fn exchange_of(kids: &[Node], change: &Change) -> Exchange
    requires suits { SuitsChange (plain_change [] change.now) (plain_all kids.now) }
    requires left { told_left_in (forest_of (between change.now.from change.now.to
        (plain_all kids.now))) < 2 ^ 64 }
    requires nodes { told_nodes_in (forest_of (between change.now.from change.now.to
        (plain_all kids.now))) < 2 ^ 64 }
    ensures { IsExchange (plain_change [] change.now) (plain_all kids.now) result }
{
    let behind = kids.len() - change.to;
    let gone = told_in(&kids[change.from..change.to]);
    Exchange {
        from: change.from,
        behind,
        gone,
    }
}

impl WellMarked {
    /// The owner of the list at a path; none where the DTD doesn't have its name.
    pub(crate) fn owner_of(&self, list: &Path) -> Option<Of>
        ensures owner { lacks_list list.now (plain_doc self.now.doc).root ≡ false →
            site_of self.now.grammar self.now.root
            (owner_at list.now (plain_doc self.now.doc).root) ≡ option_map plain_of result }
        ensures known { IfSome result (λ of. HasSite self.now.grammar (plain_of of)) }
    {
        match self.doc.node_at(list) {
            Some(Found::Document) => root_owner(self.grammar.dtd(), self.root.as_slice()),
            Some(Found::Inner(Node::Elem { name, .. })) => {
                element_owner(self.grammar.dtd(), name.as_slice())
            }
            _ => None,
        }
    }

    /// The verdicts of the lists that a task changes, found by their words before the document is
    /// touched.
    pub(crate) fn judge_task<L: Ledger>(
        &self,
        task: &Task,
        words: &Words<'_>,
        steps: &mut Steps<L>,
    ) -> Result<ChangedVerdicts, ReachError>
        requires task { IsTaskFor (plain_doc self.now.doc) task.now }
        requires words { AreWords self.now.grammar (plain_task task.now)
            (kids_at task.now.list (plain_doc self.now.doc).root) words.now }
        ensures judged { IfOk result (λ verdicts. AreJudged self.now.grammar self.now.root
            (owner_at task.now.list (plain_doc self.now.doc).root)
            (kids_at task.now.list (plain_doc self.now.doc).root)
            (plain_task task.now) verdicts.outer verdicts.inner) }
        ensures wide { IfErr result (λ e. e ≡ too_wide →
            ¬ AreNarrowAfter self.now.grammar (plain_task task.now)
            (kids_at task.now.list (plain_doc self.now.doc).root)) }
        ensures each { IfOk result (λ verdicts.
            steps.new ≡ steps.old + length (changed_by [] verdicts.inner)) }
        ensures none { IfErr result (λ e. e ≡ too_wide → steps.new ≡ steps.old) }
        ensures steps { steps.new ≤ steps.old + 2 }
        ensures later { steps.old ≤ steps.new }
    {
        let owner = self.owner_of(&task.list);
        judge_words(
            self.alloc,
            &self.grammar,
            owner,
            words,
            task.change.from,
            steps,
        )
    }

    // One, where the list at a path is Impossible.
    fn own_at(&self, list: &Path) -> u64
        ensures { result ≡ own_at self.now.doc.mark
            (spot_at list.now (plain_doc self.now.doc).root) }
    {
        match self.doc.node_at(list) {
            None => 0,
            Some(Found::Document) => own_bad(self.doc.mark.verdict),
            Some(Found::Inner(node)) => own_of(node),
        }
    }

    // How many of the lists that a task takes away or changes are Impossible.
    fn bad_lost(&self, task: &Task) -> u64
        requires { IsTaskFor (plain_doc self.now.doc) task.now }
        ensures { result ≡ bad_lost (plain_task task.now) (plain_doc self.now.doc) }
    {
        let Some(kids) = self.doc.kids_at(&task.list) else {
            unreachable!()
        };
        self.own_at(&task.list) + bad_taken(kids, &task.change)
    }

    /// How many lists are Impossible once a task is done whose lists have these verdicts.
    pub(crate) fn bad_after(&self, task: &Task, verdicts: &ChangedVerdicts) -> u64
        requires task { IsTaskFor (plain_doc self.now.doc) task.now }
        requires judged { AreJudged self.now.grammar self.now.root
            (owner_at task.now.list (plain_doc self.now.doc).root)
            (kids_at task.now.list (plain_doc self.now.doc).root)
            (plain_task task.now) verdicts.now.outer verdicts.now.inner }
        ensures { result + bad_lost (plain_task task.now) (plain_doc self.now.doc)
            ≡ self.now.bad + bad_gained verdicts.now.outer verdicts.now.inner }
    {
        let gained = own_bad(verdicts.outer) + own_inner(verdicts.inner);
        self.bad + gained - self.bad_lost(task)
    }

    // What a task's change exchanges in its list.
    fn exchange(&self, task: &Task) -> Exchange
        requires { IsTaskFor (plain_doc self.now.doc) task.now }
        ensures { IsExchange (plain_task task.now)
            (kids_at task.now.list (plain_doc self.now.doc).root) result }
    {
        let Some(kids) = self.doc.kids_at(&task.list) else {
            unreachable!()
        };
        exchange_of(kids, &task.change)
    }

    /// Makes a change whose lists have these verdicts, and updates the marks. Without memory the
    /// document is left.
    ///
    /// The changed lists get the stamp; their number is given. The tokens are kept, which are those
    /// of the list after the change, and those of one list that stays as it was; a long word of the
    /// changed one is remembered beside the grammar.
    pub(crate) fn make_judged(
        &mut self,
        task: Task,
        verdicts: ChangedVerdicts,
        tokens: ListTokens,
        stamp: u64,
    ) -> Result<u32, NoMemory>
        requires task { IsTaskFor (plain_doc self.old.doc) task }
        requires judged { AreJudged self.old.grammar self.old.root
            (owner_at task.list (plain_doc self.old.doc).root)
            (kids_at task.list (plain_doc self.old.doc).root)
            (plain_task task) verdicts.outer verdicts.inner }
        requires tokens { AreListTokens self.old.grammar (forest_of (list_after (plain_task task)
            (kids_at task.list (plain_doc self.old.doc).root))) tokens }
        ensures changed { IfOk result (λ lists.
            IsChanged (plain_marked self.old) task stamp lists (plain_marked self.new)) }
        ensures unchanged { OnErr result (plain_marked self.new ≡ plain_marked self.old) }
    {
        let owner = self.owner_of(&task.list);
        let again = self.again(&task, &tokens);
        let update = Update {
            verdict: verdicts.outer,
            inner: verdicts.inner,
            stamp,
        };
        let list = Path::new(self.alloc, task.list.places())?;
        let bad = self.bad_after(&task, &verdicts);
        let exchange = self.exchange(&task);
        make(self.alloc, &mut self.doc, task)?;
        update_doc(self.alloc, &mut self.doc, list.places(), &update, &exchange);
        self.bad = bad;
        self.kept.change(list, tokens);
        self.remember_kept(owner, again);
        Ok(number_of(&update))
    }
}
