//! A document: its root, and the bytes before and after it.

ghost use Rattle.std.specs.Prelude.{◌≡◌, ◌≤◌, ℕ, List, IsTrue, IfOk};
ghost use Rattle.pv_tree.specs.Plain.{depth_of, nodes_in, is_element};
ghost use Rattle.pv_tree.specs.Legal.{has_names, is_formed, IsLegal, has_no_close_mark, MAX_DEPTH};
ghost use Rattle.pv_tree.specs.Legal.{MAX_NODES};
ghost use Rattle.pv_tree.specs.Units.{HasUnits, HasUnits-prop};
ghost use Rattle.pv_tree.specs.Prolog.{IsEpilog, IsProlog};
ghost use Rattle.pv_tree.specs.PlainForms.{plain, plain_all};

use crate::nodes::{Mark, Node};
use crate::paths::Path;
use crate::places::Found;
use pv_chars::{Bytes, NoMemory, bytes_of};
use std::alloc::Global;

/// A document: the bytes before the root's tag, the root element, and the bytes after its end.
///
/// ```rust
/// let doc = read_doc(alloc, b"<a/>\n", b"a")?; // test_rows: tells_the_smallest_document
/// assert!(rt; doc.depth() == 1 && doc.nodes() == 1);
/// assert!(rt; doc.after.as_slice() == b"\n".as_slice());
/// ```
#[derive(Debug, Drop)]
pub struct Doc {
    pub before: Bytes,
    pub root: Node,
    pub after: Bytes,
    /// The mark of the list that holds the root alone.
    pub mark: Mark,
    pub ghost rooted: { IsTrue (is_element (plain root)) },
    pub ghost formed: { IsTrue (is_formed (plain root)) },
    pub ghost shallow: { depth_of (plain root) ≤ MAX_DEPTH },
    pub ghost small: { nodes_in (plain root) ≤ MAX_NODES },
    pub ghost named: { IsTrue (has_names (plain root)) },
    pub ghost units: { HasUnits (plain root) } by { HasUnits-prop (plain root) },
    pub ghost legal: { ∥ IsLegal (plain root) ∥₁ },
    pub ghost no_close_mark: { IsTrue (has_no_close_mark (plain root)) },
    pub ghost prolog: { ∥ ((name : List ℕ) × IsProlog name before) ∥₁ },
    pub ghost epilog: { ∥ IsEpilog after ∥₁ },
}

impl Doc {
    ghost use Rattle.std.specs.Option.{option_map};
    ghost use Rattle.pv_tree.specs.Places.{list_at, spot_at};
    ghost use Rattle.pv_tree.specs.PlainDocs.{plain_doc, plain_found};

    /// What stands at a path: the document node or a node of the tree, and nothing where the path
    /// leads past the tree.
    ///
    /// ```rust
    /// let doc = read_doc(alloc, b"<a> <b/>x</a>", b"a")?;
    /// let path = Path::new(alloc, &[0, 2])?;
    /// assert!(rt; matches!(doc.node_at(&path), Some(Found::Inner(Node::Text(_)))));
    /// ```
    pub fn node_at(&self, path: &Path) -> Option<Found<'_>>
        ensures { option_map plain_found result ≡ spot_at path.now (plain_doc self.now).root }
    {
        match path.places() {
            [] => Some(Found::Document),
            [0, below @ ..] => Some(Found::Inner(self.root.find(below)?)),
            [_, ..] => None,
        }
    }

    /// The list at a path: that of the document node, or of an element.
    ///
    /// ```rust
    /// let doc = read_doc(alloc, b"<a> <b/>x</a>", b"a")?;
    /// let path = Path::new(alloc, &[0])?;
    /// assert!(rt; doc.kids_at(&path).is_some_and(|kids| kids.len() == 3));
    /// ```
    pub fn kids_at(&self, path: &Path) -> Option<&[Node]>
        ensures { option_map (λ kids. plain_all kids.now) result
            ≡ list_at path.now (plain_doc self.now).root }
    {
        match path.places() {
            [] => Some(std::slice::from_ref(&self.root)),
            [0, below @ ..] => self.root.find(below)?.list(),
            [_, ..] => None,
        }
    }

    /// How many elements stand one inside another, the root included.
    ///
    /// ```rust
    /// assert!(rt; read_doc(alloc, b"<a> <b/>x</a>", b"a")?.depth() == 2);
    /// ```
    pub fn depth(&self) -> u32
        ensures { result ≡ depth_of (plain_doc self.now).root }
    {
        self.root.depth()
    }

    /// The number of nodes below the document node, the root included.
    ///
    /// ```rust
    /// assert!(rt; read_doc(alloc, b"<a> <b/>x</a>", b"a")?.nodes() == 4);
    /// ```
    pub fn nodes(&self) -> u64
        ensures { result ≡ nodes_in (plain_doc self.now).root }
    {
        self.root.nodes()
    }

    /// An equal document with equal marks.
    ///
    /// ```rust
    /// let doc = read_doc(alloc, b"<a> <b/>x</a>", b"a")?;
    /// assert!(rt; doc.copy(alloc)?.nodes() == doc.nodes());
    /// ```
    pub fn copy(&self, alloc: Global) -> Result<Doc, NoMemory>
        ensures { IfOk result (λ doc. plain_doc doc ≡ plain_doc self.now) }
    {
        let before = bytes_of(alloc, self.before.as_slice())?;
        let root = self.root.copy(alloc)?;
        let after = bytes_of(alloc, self.after.as_slice())?;
        Ok(Doc {
            before,
            root,
            after,
            mark: self.mark,
        })
    }
}
