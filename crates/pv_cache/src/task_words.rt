//! The words of the lists that a task changes.

ghost use Rattle.std.specs.Prelude.{IfOk};
ghost use Rattle.pv_cache.specs.MarkedTasks.{IsTaskFor};
ghost use Rattle.pv_cache.specs.ChangedWords.{AreListTokens, AreWords};
ghost use Rattle.pv_edit.specs.FittingChanges.{plain_task};
ghost use Rattle.pv_edit.specs.Reasons.{kids_at};
ghost use Rattle.pv_tree.specs.Plain.{forest_of};
ghost use Rattle.pv_tree.specs.PlainDocs.{plain_doc};

use crate::well_marked::WellMarked;
use crate::words::{ListTokens, Words, tokens_of, words_after};
use pv_chars::NoMemory;
use pv_edit::Task;

impl WellMarked {
    // The tokens of the list that a task changes.
    fn tokens_before(&self, task: &Task) -> Result<ListTokens, NoMemory>
        requires { IsTaskFor (plain_doc self.now.doc) task.now }
        ensures { IfOk result (AreListTokens self.now.grammar
            (forest_of (kids_at task.now.list (plain_doc self.now.doc).root))) }
    {
        let Some(kids) = self.doc.kids_at(&task.list) else {
            unreachable!()
        };
        let tokens = tokens_of(self.alloc, self.grammar.dtd(), kids)?;
        Ok(tokens)
    }

    // The words of the lists that a task changes, by the tokens before.
    fn words_by<'a>(&'a self, task: &'a Task, before: &ListTokens) -> Result<Words<'a>, NoMemory>
        requires task { IsTaskFor (plain_doc self.now.doc) task.now }
        requires before { AreListTokens self.now.grammar
            (forest_of (kids_at task.now.list (plain_doc self.now.doc).root)) before.now }
        ensures { IfOk result (AreWords self.now.grammar (plain_task task.now)
            (kids_at task.now.list (plain_doc self.now.doc).root)) }
    {
        let Some(kids) = self.doc.kids_at(&task.list) else {
            unreachable!()
        };
        let dtd = self.grammar.dtd();
        let words = words_after(self.alloc, dtd, kids, &task.change, before)?;
        Ok(words)
    }

    /// The words of the lists that a task changes. Where the tokens of the list are kept, names are
    /// looked up for what comes alone.
    pub(crate) fn words_of<'a>(&'a self, task: &'a Task) -> Result<Words<'a>, NoMemory>
        requires { IsTaskFor (plain_doc self.now.doc) task.now }
        ensures { IfOk result (AreWords self.now.grammar (plain_task task.now)
            (kids_at task.now.list (plain_doc self.now.doc).root)) }
    {
        if let Some(before) = self.kept_at(&task.list) {
            return self.words_by(task, before);
        }
        let before = self.tokens_before(task)?;
        self.words_by(task, &before)
    }
}
