//! The tokens of three lists, which are kept: of the one that was changed last, and of two that an
//! edit was asked of or that were changed before.

ghost use Rattle.std.specs.Prelude.{◌≡◌, IfSome, IsTrue};
ghost use Rattle.std.specs.Option.{ForSome};
ghost use Rattle.pv_cache.specs.Apart.{is_apart};
ghost use Rattle.pv_cache.specs.ChangedWords.{AreKeptLists, AreKeptTokens, AreListTokens};
ghost use Rattle.pv_dtd.specs.Plain.{PlainDtd};
ghost use Rattle.pv_edit.specs.Reasons.{kids_at};
ghost use Rattle.pv_tree.specs.Plain.{PlainDoc, forest_of};
ghost use Rattle.pv_tree.specs.declared.nodes.Mark.{Mark};
ghost use Rattle.pv_cache.specs.declared.kept_lists.KeptTokens.{KeptTokens as PlainKept};

use crate::words::ListTokens;
use pv_tree::Path;

/// The tokens of a list of fewer kids are kept only where it was changed last: looking them up
/// takes no longer than the rest of an edit.
pub(crate) const KEPT_KIDS: usize = 16;

/// The tokens of the list at a path.
#[derive(Drop)]
pub struct KeptTokens {
    pub list: Path,
    pub tokens: ListTokens,
}

/// The tokens of the list that was changed last, and of two others; and the path of the list in
/// which an edit was tried last, if nothing was changed since.
#[derive(Drop)]
pub struct KeptLists {
    pub last: Option<KeptTokens>,
    pub asked: Option<KeptTokens>,
    pub older: Option<KeptTokens>,
    pub tried: Option<Path>,
}

// Whether a list isn't the one at a path, and isn't below it.
fn is_apart(changed: &[u32], list: &[u32]) -> bool
    ensures { result ≡ is_apart changed.now list.now }
{
    let [first, below @ ..] = changed else {
        return false;
    };
    let [other, rest @ ..] = list else {
        return true;
    };
    *first != *other || is_apart(below, rest)
}

impl KeptTokens {
    /// The tokens, where they are those of the list at this path.
    pub(crate) fn of_list(&self, list: &Path) -> Option<&ListTokens>
        ensures path { IfSome result (λ _. self.now.list ≡ list.now) }
        ensures tokens { IfSome result (λ tokens. tokens.now ≡ self.now.tokens) }
    {
        if self.list.places() == list.places() {
            return Some(&self.tokens);
        }
        None
    }

    // Whether they are worth keeping, and stay right where the list at a path changes.
    fn outlast(&self, changed: &[u32]) -> bool
        ensures { IsTrue result → IsTrue (is_apart changed.now self.now.list) }
    {
        self.tokens.shown.len() >= KEPT_KIDS && is_apart(changed, self.list.places())
    }
}

// What is kept of a list, where its tokens stay right once the list at a path changes.
fn lasting(changed: &[u32], kept: Option<KeptTokens>) -> Option<KeptTokens>
    ensures held { (g : PlainDtd) (doc : PlainDoc Mark) → ForSome kept (AreKeptTokens g doc) →
        ForSome result (AreKeptTokens g doc) }
    ensures apart { ForSome result (λ tokens. IsTrue (is_apart changed.now tokens.list)) }
{
    let kept = kept?;
    if kept.outlast(changed) {
        Some(kept)
    } else {
        None
    }
}

// What is kept of the first two of some lists, of which each may be missing.
fn first_two(
    last: Option<KeptTokens>,
    asked: Option<KeptTokens>,
    older: Option<KeptTokens>,
) -> (Option<KeptTokens>, Option<KeptTokens>)
    ensures { (g : PlainDtd) (doc : PlainDoc Mark) → ForSome last (AreKeptTokens g doc) →
        ForSome asked (AreKeptTokens g doc) → ForSome older (AreKeptTokens g doc) →
        ForSome result.0 (AreKeptTokens g doc) × ForSome result.1 (AreKeptTokens g doc) }
{
    match (last, asked) {
        (None, asked) => (asked, older),
        (last, None) => (last, older),
        (last, asked) => (last, asked),
    }
}

impl KeptLists {
    /// Of no list.
    pub(crate) fn none() -> KeptLists
        ensures { (g : PlainDtd) (doc : PlainDoc Mark) → AreKeptLists g doc result }
    {
        KeptLists {
            last: None,
            asked: None,
            older: None,
            tried: None,
        }
    }

    /// The tokens of the list at a path, where they are kept.
    pub(crate) fn at(&self, list: &Path) -> Option<&ListTokens>
        ensures { (g : PlainDtd) (doc : PlainDoc Mark) → AreKeptLists g doc self.now →
            IfSome result (λ tokens.
            AreListTokens g (forest_of (kids_at list.now doc.root)) tokens.now) }
    {
        if let Some(last) = &self.last {
            if let Some(tokens) = last.of_list(list) {
                return Some(tokens);
            }
        }
        if let Some(asked) = &self.asked {
            if let Some(tokens) = asked.of_list(list) {
                return Some(tokens);
            }
        }
        if let Some(older) = &self.older {
            if let Some(tokens) = older.of_list(list) {
                return Some(tokens);
            }
        }
        None
    }

    /// Whether an edit was tried last in the list at a path, and nothing was changed since.
    pub(crate) fn was_tried_in(&self, list: &Path) -> bool {
        match &self.tried {
            Some(tried) => tried.places() == list.places(),
            None => false,
        }
    }

    /// Notes the list in which an edit is tried.
    pub(crate) fn try_in(&mut self, list: Option<Path>)
        ensures { (g : PlainDtd) (doc : PlainDoc Mark) → AreKeptLists g doc self.old →
            AreKeptLists g doc self.new }
    {
        self.tried = list;
    }

    /// Keeps the tokens of a list that an edit is asked of.
    pub(crate) fn ask(&mut self, asked: KeptTokens)
        ensures { (g : PlainDtd) (doc : PlainDoc Mark) → AreKeptLists g doc self.old →
            AreKeptTokens g doc asked → AreKeptLists g doc self.new }
    {
        self.older = self.asked.take();
        self.asked = Some(asked);
    }

    /// Keeps the tokens of the list at a path, which has changed, and of another list those that
    /// stay right.
    pub(crate) fn change(&mut self, list: Path, tokens: ListTokens)
        ensures { (g : PlainDtd) (before after : PlainDoc Mark) → AreKeptLists g before self.old →
            ((kept : PlainKept) → IsTrue (is_apart list kept.list) →
            AreKeptTokens g before kept → AreKeptTokens g after kept) →
            AreListTokens g (forest_of (kids_at list after.root)) tokens →
            AreKeptLists g after self.new }
    {
        let changed = list.places();
        let last = lasting(changed, self.last.take());
        let asked = lasting(changed, self.asked.take());
        let older = lasting(changed, self.older.take());
        self.tried = None;
        let (asked, older) = first_two(last, asked, older);
        self.asked = asked;
        self.older = older;
        self.last = Some(KeptTokens { list, tokens });
    }
}
