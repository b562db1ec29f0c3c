//! What may stand at a path of a document.

use crate::nodes::Node;

/// What stands at a path: the document node, or a node of the tree.
///
/// ```rust
/// let doc = read_doc(alloc, b"<a> <b/>x</a>", b"a")?;
/// assert!(rt; matches!(doc.node_at(&Path::new(alloc, &[])?), Some(Found::Document)));
/// ```
#[derive(Clone, Copy, Debug)]
pub enum Found<'a> {
    /// The document node, at the path without places.
    Document,
    /// A node of the tree.
    Inner(&'a Node),
}
