//! A walk over the lists of a document, in document order.

ghost use Rattle.std.specs.Prelude.{◌≡◌, ◌≤◌, IfOk, IfSome, length, map};
ghost use Rattle.pv_tree.specs.Legal.{MAX_NODES};
ghost use Rattle.pv_tree.specs.Lists.{lists_of};
ghost use Rattle.pv_tree.specs.MarkedLists.{marked_of, list_alone};
ghost use Rattle.pv_tree.specs.PlainDocs.{plain_doc};
ghost use Rattle.pv_tree.specs.Walks.{ComesTo, left_of, nodes_of, places_above};

use crate::document::Doc;
use crate::nodes::{Mark, Node};
use crate::paths::Path;
use pv_chars::NoMemory;
use std::alloc::Global;

/// Whose list it is: the document node's, or an element's.
///
/// In `<a><b/></a>` the owners are the document node, `a` and `b`, in this order.
///
/// ```rust
/// let doc = read_doc(alloc, b"<a><b/></a>", b"a")?;
/// let mut lists = Lists::of(alloc, &doc);
/// assert!(rt; matches!(lists.next()?, Some(DocList { owner: OwnerName::Document, .. })));
/// assert!(rt; matches!(lists.next()?, Some(DocList { owner: OwnerName::Element(b"a"), .. })));
/// ```
#[derive(Clone, Copy, Debug)]
pub enum OwnerName<'a> {
    /// That of the document node.
    Document,
    /// That of an element of this name.
    Element(&'a [u8]),
}

/// A list of a document: whose it is, its nodes in order, and the mark of its owner.
///
/// In `<a> <b/>x</a>` that of `a` has three kids: a text, `b` and a text.
///
/// ```rust
/// let doc = read_doc(alloc, b"<a> <b/>x</a>", b"a")?;
/// let mut lists = Lists::of(alloc, &doc);
/// assert!(rt; matches!(lists.next()?, Some(list) if list.kids.len() == 1)); // the root alone
/// assert!(rt; matches!(lists.next()?, Some(list) if list.kids.len() == 3)); // the kids of `a`
/// ```
#[derive(Clone, Copy, Debug)]
pub struct DocList<'a> {
    pub owner: OwnerName<'a>,
    pub kids: &'a [Node],
    /// The mark of its owner.
    pub mark: Mark,
}

// Nodes side by side that a walk hasn't come to, and the place of the first of them.
#[derive(Clone, Copy, Debug)]
struct Siblings<'a> {
    next: u32,
    nodes: &'a [Node],
}

// A walk over the lists of elements: the nodes that are left in the list that it came to last, and
// those that are left at each level above, from the document node down.
#[derive(Drop)]
struct Levels<'a> {
    above: Vec<Siblings<'a>>,
    here: Siblings<'a>,
    ghost small: { nodes_of above.items here ≤ MAX_NODES },
}

impl<'a> Levels<'a> {
    // Goes to the next list of an element.
    fn next(&mut self) -> Result<Option<DocList<'a>>, NoMemory>
        ensures given { IfOk result (ComesTo (left_of self.old.above.items self.old.here)
            (places_above self.new.above.items) (left_of self.new.above.items self.new.here)) }
        ensures few { IfOk result (λ given. IfSome given (λ list.
            length list.kids.now ≤ MAX_NODES)) }
    {
        'nodes: loop {
            let Some((node, nodes)) = self.here.nodes.split_first() else {
                let Some(above) = self.above.pop() else {
                    return Ok(None);
                };
                self.here = above;
                continue;
            };
            self.here = Siblings {
                next: self.here.next + 1,
                nodes,
            };
            if let Node::Elem {
                name,
                kids,
                mark,
                ..
            } = node
            {
                self.above.push(self.here)?;
                self.here = Siblings {
                    next: 0,
                    nodes: kids,
                };
                return Ok(Some(DocList {
                    owner: OwnerName::Element(name.as_slice()),
                    kids,
                    mark: *mark,
                }));
            }
        }
    }
}

/// A walk over the lists of a document, in document order: the lists that it hasn't come to, and the
/// path of the list that it came to last.
///
/// It keeps the levels above a list and no lists, so that its memory grows with the depth of the
/// document alone.
///
/// ```rust
/// let doc = read_doc(alloc, b"<a> <b/>x</a>", b"a")?;
/// let mut lists = Lists::of(alloc, &doc);
/// assert!(rt; matches!(lists.next()?, Some(DocList { owner: OwnerName::Document, .. })));
/// assert!(rt; matches!(lists.next()?, Some(DocList { owner: OwnerName::Element(b"a"), .. })));
/// assert!(rt; lists.path(alloc)?.places() == [0].as_slice());
/// ```
#[derive(Drop)]
pub struct Lists<'a> {
    levels: Levels<'a>,
    // The mark of the document node, where its list is the next.
    first: Option<Mark>,
}

impl<'a> Lists<'a> {
    ghost use Rattle.pv_tree.specs.ListWalks.{ComesToNext, lists_left, path_come_to};

    /// The walk over the lists of a document before it has come to any. The first is the document
    /// node's.
    ///
    /// ```rust
    /// let doc = read_doc(alloc, b"<a/>", b"a")?;
    /// let mut lists = Lists::of(alloc, &doc);
    /// assert!(rt; matches!(lists.next()?, Some(DocList { owner: OwnerName::Document, .. })));
    /// ```
    pub fn of(alloc: Global, doc: &'a Doc) -> Lists<'a>
        ensures marked { lists_left result ≡ marked_of (plain_doc doc.now) }
        ensures lists { map list_alone (lists_left result) ≡ lists_of (plain_doc doc.now) }
    {
        Lists {
            levels: Levels {
                above: Vec::new(alloc),
                here: Siblings {
                    next: 0,
                    nodes: std::slice::from_ref(&doc.root),
                },
            },
            first: Some(doc.mark),
        }
    }

    /// Goes to the next list in document order, and returns it, or `None` after the last one. After
    /// an error nothing is known of the walk.
    ///
    /// ```rust
    /// let doc = read_doc(alloc, b"<a/>", b"a")?;
    /// let mut lists = Lists::of(alloc, &doc);
    /// assert!(rt; lists.next()?.is_some()); // the document node's
    /// assert!(rt; lists.next()?.is_some()); // that of `a`
    /// assert!(rt; lists.next()?.is_none());
    /// ```
    pub fn next(&mut self) -> Result<Option<DocList<'a>>, NoMemory>
        ensures given { IfOk result (ComesToNext self.old self.new) }
        ensures few { IfOk result (λ given. IfSome given (λ list.
            length list.kids.now ≤ MAX_NODES)) }
    {
        match self.first.take() {
            Some(mark) => Ok(Some(DocList {
                owner: OwnerName::Document,
                kids: self.levels.here.nodes,
                mark,
            })),
            None => self.levels.next(),
        }
    }

    /// The path of the list that the walk came to last.
    ///
    /// ```rust
    /// let doc = read_doc(alloc, b"<a> <b/>x</a>", b"a")?;
    /// let mut lists = Lists::of(alloc, &doc);
    /// assert!(rt; lists.next()?.is_some());
    /// assert!(rt; lists.next()?.is_some());
    /// assert!(rt; lists.next()?.is_some()); // that of `b`
    /// assert!(rt; lists.path(alloc)?.places() == [0, 1].as_slice());
    /// ```
    pub fn path(&self, alloc: Global) -> Result<Path, NoMemory>
        ensures { IfOk result (λ path. path ≡ path_come_to self.now) }
    {
        let above = &self.levels.above;
        let mut places = Vec::with_capacity(alloc, above.len())?;
        for nodes in above {
            places.push(u32::saturating_sub(nodes.next, 1))?;
        }
        Path::new(alloc, &places)
    }
}
