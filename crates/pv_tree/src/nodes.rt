//! Nodes, and the marks that elements carry.

ghost use Rattle.std.specs.Prelude.{◌≡◌, ◌≤◌, IfOk, List, length, suc, if◌then◌else◌};
ghost use Rattle.std.specs.Option.{option_copied, option_map};
ghost use Rattle.pv_model.specs.Plain.{PlainToken};
ghost use Rattle.pv_dtd.specs.Plain.{PlainDtd};
ghost use Rattle.pv_tree.specs.Heads.{has_token, head_of};
ghost use Rattle.pv_tree.specs.Plain.{depth_of, nodes_in};
ghost use Rattle.pv_tree.specs.Legal.{MAX_DEPTH, MAX_NODES};
ghost use Rattle.pv_tree.specs.Places.{kids_of, list_of, node_below};
ghost use Rattle.pv_tree.specs.PlainForms.{plain, plain_all, plain_end};
ghost use Rattle.pv_tree.specs.Words.{node_before};

use pv_chars::{Bytes, NoMemory, Units, bytes_of};
use std::alloc::Global;

/// What is known of a list. `Impossible` is asked first: a list may be valid by itself and
/// be no part of any valid document, as that of an element whose name isn't productive.
///
/// With `<!ELEMENT doc (head, sec+)>`, where `head` holds text, the list of `doc` is Valid in
/// `<doc><head/><sec/></doc>`, Possible in `<doc>Hello</doc>`, which a `head` around the text and a
/// `sec` after it make valid, and Impossible in `<doc><sec/><head/></doc>`.
///
/// ```rust
/// let dtd = read_dtd(alloc, b"<!ELEMENT doc (head)><!ELEMENT head (#PCDATA)>")?;
/// let grammar = build(alloc, dtd)?;
/// let doc = read_doc(alloc, b"<doc>Hello</doc>", b"doc")?;
/// let verdicts = check_doc(alloc, &grammar, b"doc", &doc, &mut steps)?;
/// assert!(rt; verdicts.at(0) == Some(Verdict::Valid)); // of the document node's list
/// assert!(rt; verdicts.at(1) == Some(Verdict::Possible)); // of that of `doc`
/// ```
#[derive(Clone, Copy, Debug, PartialEq, Eq)]
pub enum Verdict {
    /// The list isn't `Impossible`, and it is valid by itself.
    Valid,
    /// The list isn't `Impossible`, and it isn't valid by itself.
    Possible,
    /// No insertion of elements makes the list a part of a valid document.
    Impossible,
}

/// What an element's list was found to be. A mark is no part of a document's meaning.
///
/// ```rust
/// assert!(rt; Mark::BLANK.verdict == Verdict::Valid && Mark::BLANK.nodes == 0);
/// ```
#[derive(Clone, Copy, Debug, PartialEq, Eq)]
pub struct Mark {
    pub verdict: Verdict,
    /// The number of the change that last changed the list.
    pub stamp: u64,
    /// The Possible lists of the subtree.
    pub left: u64,
    /// The nodes of the subtree.
    pub nodes: u64,
}

impl Mark {
    /// The mark of an element that nothing is known of.
    ///
    /// ```rust
    /// assert!(rt; Mark::BLANK.verdict == Verdict::Valid && Mark::BLANK.stamp == 0);
    /// ```
    pub const BLANK: Mark = Mark {
        verdict: Verdict::Valid,
        stamp: 0,
        left: 0,
        nodes: 0,
    };
}

/// How an element ends.
///
/// `<a/>` is `Short`, and `<a></a >` is `Tagged`, with one blank.
///
/// ```rust
/// let short = read_doc(alloc, b"<a/>", b"a")?;
/// assert!(rt; matches!(&short.root, Node::Elem { end: End::Short, .. }));
/// let tagged = read_doc(alloc, b"<a></a >", b"a")?;
/// assert!(rt; matches!(&tagged.root, Node::Elem { end: End::Tagged(gap), .. }
///     if gap.as_slice() == b" ".as_slice()));
/// ```
#[derive(Debug, Drop)]
pub enum End {
    /// By the `/>` of an empty-element tag.
    Short,
    /// By an end tag, with the bytes between its name and `>`.
    Tagged(Bytes),
}

/// Nodes side by side, in document order: the kids of an element.
///
/// ```rust
/// let comment = Node::Misc(bytes_of(alloc, b"<!--n-->")?);
/// let nodes: Nodes = vec![in alloc; comment]?;
/// assert!(rt; nodes.len() == 1 && !nodes[0].has_token());
/// ```
pub type Nodes = Vec<Node>;

/// A node of a document: an element, a run of text, a CDATA section, or a comment or processing
/// instruction (XML 1.0, sections 2.4 to 2.7 and 3.1).
///
/// ```rust
/// let doc = read_doc(alloc, b"<a id='1'><b/>x</a >", b"a")?;
/// assert!(rt; matches!(&doc.root, Node::Elem { attrs, kids, .. }
///     if attrs.as_slice() == b" id='1'".as_slice() && kids.len() == 2));
/// ```
#[derive(Debug, Drop)]
pub enum Node {
    /// An element. `attrs` are the bytes between its name and `>` or `/>`.
    Elem {
        name: Bytes,
        attrs: Bytes,
        end: End,
        kids: Nodes,
        mark: Mark,
    },
    /// A run of character data and references.
    Text(Units),
    /// A CDATA section, with its delimiters.
    Cdata(Bytes),
    /// A comment or a processing instruction, with its delimiters.
    Misc(Bytes),
}

impl Node {
    /// Whether the node is a token in the word of its list.
    ///
    /// ```rust
    /// let doc = read_doc(alloc, b"<a> <b/>x</a>", b"a")?;
    /// let path = Path::new(alloc, &[0])?;
    /// let kids = doc.kids_at(&path).unwrap_or(&[]);
    /// assert!(rt; !kids[0].has_token() && kids[1].has_token() && kids[2].has_token());
    /// ```
    pub fn has_token(&self) -> bool
        ensures shown { result ≡ has_token (head_of (plain self.now)) }
        ensures counted { (g : PlainDtd) (rest : List PlainToken) →
            length (node_before g (plain self.now) rest)
            ≡ (if result then suc (length rest) else length rest) }
    {
        match self {
            Node::Elem { .. } | Node::Cdata(_) => true,
            Node::Text(units) => units.has_data(),
            Node::Misc(_) => false,
        }
    }

    // The node at a path below this one.
    pub(crate) fn find(&self, path: &[u32]) -> Option<&Node>
        ensures { option_map plain (option_copied result) ≡ node_below path.now (plain self.now) }
    {
        let mut at = self;
        for place in path {
            at = at.kids().get(*place as usize)?;
        }
        Some(at)
    }

    // The kids of an element, and none of any other node.
    fn kids(&self) -> &[Node]
        ensures { plain_all result.now ≡ kids_of (plain self.now) }
    {
        match self {
            Node::Elem { kids, .. } => kids.as_slice(),
            Node::Text(_) | Node::Cdata(_) | Node::Misc(_) => &[],
        }
    }

    // The list of an element.
    pub(crate) fn list(&self) -> Option<&[Node]>
        ensures { option_map (λ kids. plain_all kids.now) result ≡ list_of (plain self.now) }
    {
        match self {
            Node::Elem { kids, .. } => Some(kids.as_slice()),
            Node::Text(_) | Node::Cdata(_) | Node::Misc(_) => None,
        }
    }

    // How many elements stand one inside another.
    pub(crate) fn depth(&self) -> u32
        requires { depth_of (plain self.now) ≤ MAX_DEPTH }
        ensures { result ≡ depth_of (plain self.now) }
    {
        match self {
            Node::Elem { kids, .. } => {
                let mut deepest = 0;
                for kid in kids {
                    deepest = deepest.max(kid.depth());
                }
                deepest + 1
            }
            Node::Text(_) | Node::Cdata(_) | Node::Misc(_) => 0,
        }
    }

    // The number of nodes, this one included.
    pub(crate) fn nodes(&self) -> u64
        requires { nodes_in (plain self.now) ≤ MAX_NODES }
        ensures { result ≡ nodes_in (plain self.now) }
    {
        match self {
            Node::Elem { kids, .. } => {
                let mut sum = 1;
                for kid in kids {
                    sum += kid.nodes();
                }
                sum
            }
            Node::Text(_) | Node::Cdata(_) | Node::Misc(_) => 1,
        }
    }

    // An equal node with equal marks.
    #[cycle(copy)]
    pub(crate) fn copy(&self, alloc: Global) -> Result<Node, NoMemory>
        ensures { IfOk result (λ n. plain n ≡ plain self.now) }
    {
        match self {
            Node::Elem {
                name,
                attrs,
                end,
                kids,
                mark,
            } => {
                let name = bytes_of(alloc, name.as_slice())?;
                let attrs = bytes_of(alloc, attrs.as_slice())?;
                let end = end.copy(alloc)?;
                let kids = copy_all(alloc, kids)?;
                Ok(Node::Elem {
                    name,
                    attrs,
                    end,
                    kids,
                    mark: *mark,
                })
            }
            Node::Text(units) => Ok(Node::Text(units.copy(alloc)?)),
            Node::Cdata(bytes) => Ok(Node::Cdata(bytes_of(alloc, bytes.as_slice())?)),
            Node::Misc(bytes) => Ok(Node::Misc(bytes_of(alloc, bytes.as_slice())?)),
        }
    }
}

impl End {
    // An equal end.
    fn copy(&self, alloc: Global) -> Result<End, NoMemory>
        ensures { IfOk result (λ e. plain_end e ≡ plain_end self.now) }
    {
        match self {
            End::Short => Ok(End::Short),
            End::Tagged(gap) => Ok(End::Tagged(bytes_of(alloc, gap.as_slice())?)),
        }
    }
}

// Equal nodes side by side, in a vector of just their number.
#[cycle(copy)]
fn copy_all(alloc: Global, nodes: &[Node]) -> Result<Nodes, NoMemory>
    ensures { IfOk result (λ copies. plain_all copies.items ≡ plain_all nodes.now) }
{
    let mut copies = Vec::with_capacity(alloc, nodes.len())?;
    for node in nodes {
        copies.push(node.copy(alloc)?)?;
    }
    Ok(copies)
}
