//! The first list of a document that doesn't pass a test.

ghost use Rattle.std.specs.Prelude.{◌≤◌, List, ℕ, IfOk, MatchOption, length};
ghost use Rattle.std.specs.List.{AllByRecursion};
ghost use Rattle.pv_tree.specs.Legal.{MAX_NODES};
ghost use Rattle.pv_tree.specs.Lists.{IsFirstNot, Listed, lists_of};
ghost use Rattle.pv_tree.specs.PlainDocs.{plain_doc};
ghost use Rattle.pv_tree.specs.Search.{Tells};
ghost use Rattle.pv_tree.specs.Walks.{list_given};
ghost use Rattle.pv_tree.specs.declared.nodes.Mark.{Mark};

use crate::document::Doc;
use crate::paths::Path;
use crate::walk::{DocList, Lists};
use pv_chars::NoMemory;
use std::alloc::Global;

/// A test of a document's lists, asked of one after another in document order. `passes` is what it
/// tests of a list, by the name of the root, and `awaits` that these lists come next.
///
/// `first_invalid` asks of each list by such a test whether it is valid by itself.
///
/// ```rust
/// // Passes lists of at most two nodes, and counts what it is asked.
/// struct Short;
/// impl ListTest for Short {
///     type State = u64;
///     ghost passes = { λ _ _ list. length (trees_of list.kids) ≤ 2 };
///     ghost awaits = { λ _ _ _ _. Unit {0} };
///     fn passes_list(&self, list: &DocList<'_>, asked: &mut u64) -> Result<bool, NoMemory> {
///         *asked += 1;
///         Ok(list.kids.len() <= 2)
///     }
/// }
/// let doc = read_doc(alloc, b"<a><b>x<c/>y</b><b/></a>", b"a")?;
/// let mut asked = 0;
/// let found = first_list(alloc, &Short, &doc, &mut asked)?;
/// assert!(rt; found.is_some_and(|path| path.places() == [0, 0].as_slice()));
/// assert!(rt; asked == 3); // those of the document node, of `a` and of its first kid
/// ```
pub trait ListTest {
    /// What is kept from one list to the next.
    type State;

    ghost passes: { Self → List ℕ → Listed Mark → Type 0 };

    ghost awaits: { Self → Self.State → List ℕ → List (Listed Mark) → Type 0 };

    /// Whether a list passes.
    fn passes_list(&self, list: &DocList<'_>, state: &mut Self::State) -> Result<bool, NoMemory>
        requires { length list.now.kids.now ≤ MAX_NODES }
        ensures { (path : List ℕ) → IfOk result (Tells (passes self.now) (awaits self.now state.old)
            (awaits self.now state.new) (list_given path list.now)) };
}

/// The path of the first list, in document order, that doesn't pass.
///
/// See `first_invalid`, whose example finds the first list that isn't valid by itself, and
/// `ListTest`, whose example finds the first of more than two nodes.
pub fn first_list<T: ListTest>(
    alloc: Global,
    test: &T,
    doc: &Doc,
    state: &mut T::State,
) -> Result<Option<Path>, NoMemory>
    ensures { IfOk result (λ found. (root : List ℕ) →
        T.awaits test.now state.old root (lists_of (plain_doc doc.now)) →
        MatchOption found
        (AllByRecursion (T.passes test.now root) (lists_of (plain_doc doc.now)))
        (IsFirstNot (T.passes test.now root) (lists_of (plain_doc doc.now)))) }
{
    let mut lists = Lists::of(alloc, doc);
    while let Some(list) = lists.next()? {
        if !test.passes_list(&list, state)? {
            return Ok(Some(lists.path(alloc)?));
        }
    }
    Ok(None)
}
