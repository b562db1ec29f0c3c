//! What is kept of lists from one edit to the next: their tokens, and beside the grammar a long
//! word.

ghost use Rattle.std.specs.Prelude.{◌≡◌, IfSome};
ghost use Rattle.pv_cache.specs.ChangedWords.{AreKeptTokens, AreListTokens};
ghost use Rattle.pv_cache.specs.PlainMarked.{plain_marked};
ghost use Rattle.pv_edit.specs.Reasons.{kids_at};
ghost use Rattle.pv_tree.specs.Plain.{forest_of};
ghost use Rattle.pv_tree.specs.PlainDocs.{plain_doc};

use crate::kept_lists::{KEPT_KIDS, KeptTokens};
use crate::planned::{Again, REMEMBERED_TOKENS};
use crate::well_marked::WellMarked;
use crate::words::{ListTokens, number_shown, tokens_of};
use pv_edit::{Ask, Task};
use pv_missing::Of;
use pv_tree::{Found, Node, Path};

impl WellMarked {
    /// The tokens of the list at a path, where they are kept.
    pub(crate) fn kept_at(&self, list: &Path) -> Option<&ListTokens>
        ensures { IfSome result (λ tokens. AreListTokens self.now.grammar
            (forest_of (kids_at list.now (plain_doc self.now.doc).root)) tokens.now) }
    {
        self.kept.at(list)
    }

    // The tokens of the list at a path, if one of many kids stands there. Without memory there are
    // none.
    fn tokens_at(&self, list: &Path) -> Option<KeptTokens>
        ensures { IfSome result (AreKeptTokens self.now.grammar (plain_doc self.now.doc)) }
    {
        let kids = self.doc.kids_at(list)?;
        if kids.len() < KEPT_KIDS {
            return None;
        }
        let tokens = tokens_of(self.alloc, self.grammar.dtd(), kids).ok()?;
        let list = Path::new(self.alloc, list.places()).ok()?;
        Some(KeptTokens { list, tokens })
    }

    /// Keeps the tokens of the list at a path, so that edits of it that are refused, or only asked
    /// of, don't look them up again.
    pub(crate) fn keep(&mut self, list: &Path)
        ensures { plain_marked self.new ≡ plain_marked self.old }
    {
        if self.kept_at(list).is_some() {
            return;
        }
        if let Some(asked) = self.tokens_at(list) {
            self.kept.ask(asked);
        }
    }

    // Keeps the tokens of the list at a path, and remembers its word, so that words which differ
    // from it in a token are judged by it.
    fn keep_asked(&mut self, list: &Path)
        ensures { plain_marked self.new ≡ plain_marked self.old }
    {
        self.keep(list);
        let owner = self.owner_of(list);
        if let Some(tokens) = self.kept.at(list) {
            let word = &tokens.word.tokens;
            self.grammar.remember_asked(self.alloc, owner, word);
        }
    }

    /// Keeps the tokens of the list in which an edit is tried. Where the edit before was tried
    /// there too, and refused, the list's word is remembered as well.
    pub(crate) fn keep_tried(&mut self, list: &Path)
        ensures { plain_marked self.new ≡ plain_marked self.old }
    {
        if self.kept.was_tried_in(list) {
            self.keep_asked(list);
            return;
        }
        self.keep(list);
        self.note_tried(list);
    }

    // Notes the list in which an edit is tried, if its word is long.
    fn note_tried(&mut self, list: &Path)
        ensures { plain_marked self.new ≡ plain_marked self.old }
    {
        if self.has_long_word(list) {
            self.kept.try_in(Path::new(self.alloc, list.places()).ok());
        }
    }

    // Whether the tokens of the list at a path are kept, and its word is one to remember.
    fn has_long_word(&self, list: &Path) -> bool {
        match self.kept.at(list) {
            Some(tokens) => tokens.word.tokens.len() >= REMEMBERED_TOKENS,
            None => false,
        }
    }

    /// Keeps what several edits of the list that is asked of are judged by.
    pub(crate) fn keep_for(&mut self, ask: &Ask)
        ensures { plain_marked self.new ≡ plain_marked self.old }
    {
        match ask {
            Ask::Wrap { path, from, to } => self.keep_within(path, *from, *to),
            Ask::Rename { path } => self.keep_around(path),
        }
    }

    // Keeps what edits of the list at a path are judged by, if it has kids from one place up to
    // another.
    fn keep_within(&mut self, list: &Path, from: u32, to: u32)
        ensures { plain_marked self.new ≡ plain_marked self.old }
    {
        let count = match self.doc.kids_at(list) {
            Some(kids) => kids.len(),
            None => return,
        };
        if from <= to && to as usize <= count {
            self.keep_asked(list);
        }
    }

    // Keeps what edits of the list are judged by in which the element at a path stands, if one
    // does.
    fn keep_around(&mut self, path: &Path)
        ensures { plain_marked self.new ≡ plain_marked self.old }
    {
        let Some(Found::Inner(Node::Elem { .. })) = self.doc.node_at(path) else {
            return;
        };
        if let [list @ .., _] = path.places() {
            if let Ok(list) = Path::new(self.alloc, list) {
                self.keep_asked(&list);
            }
        }
    }

    /// The change of its word, where a task changes the list that was changed last, by the tokens
    /// afterwards.
    pub(crate) fn again(&self, task: &Task, after: &ListTokens) -> Option<Again> {
        let Some(kept) = &self.kept.last else {
            return None;
        };
        let before = kept.of_list(&task.list)?;
        let change = &task.change;
        let from = number_shown(before.shown.get(..change.from)?);
        let gone = number_shown(before.shown.get(change.from..change.to)?);
        let left = before.word.tokens.len().saturating_sub(gone);
        let came = after.word.tokens.len().saturating_sub(left);
        Some(Again { from, gone, came })
    }

    /// Remembers the word of the list that was changed last, which has this owner, beside the
    /// grammar.
    pub(crate) fn remember_kept(&mut self, owner: Option<Of>, again: Option<Again>)
        ensures marked { plain_marked self.new ≡ plain_marked self.old }
    {
        if let Some(kept) = &self.kept.last {
            let word = &kept.tokens.word.tokens;
            self.grammar.remember(self.alloc, owner, word, again);
        }
    }
}
