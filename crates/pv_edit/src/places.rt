//! What stands where an edit is to be made.

ghost use Rattle.std.specs.Prelude.{◌≡◌, not, is_none, IfOk, IfSome};
ghost use Rattle.pv_tree.specs.PlainDocs.{plain_doc};
ghost use Rattle.pv_tree.specs.Places.{kids_of};
ghost use Rattle.pv_tree.specs.PlainForms.{plain, plain_all};
ghost use Rattle.pv_edit.specs.Effects.{next_of, parent_of, kid_place, units_at, units_on};
ghost use Rattle.pv_edit.specs.Reasons.{is_spot, is_text, kids_at, lacks_element, lacks_list};
ghost use Rattle.pv_edit.specs.Reasons.{lacks_node, lacks_text};
ghost use Rattle.pv_edit.specs.Places.{IsInner, IsParted, first_spot};

use pv_chars::{NoMemory, Units};
use pv_tree::{Doc, Found, Node, Path};
use std::alloc::Global;

/// Whether no node stands at a path.
pub(crate) fn lacks_node(doc: &Doc, path: &Path) -> bool
    ensures { result ≡ lacks_node path.now (plain_doc doc.now).root }
{
    doc.node_at(path).is_none()
}

/// Whether no list stands there.
pub(crate) fn lacks_list(doc: &Doc, path: &Path) -> bool
    ensures { result ≡ lacks_list path.now (plain_doc doc.now).root }
{
    doc.kids_at(path).is_none()
}

/// The list there, or no nodes.
pub(crate) fn kids_at<'a>(doc: &'a Doc, path: &Path) -> &'a [Node]
    ensures { plain_all result.now ≡ kids_at path.now (plain_doc doc.now).root }
{
    doc.kids_at(path).unwrap_or(&[])
}

/// Whether no element of the tree stands there.
pub(crate) fn lacks_element(doc: &Doc, path: &Path) -> bool
    ensures { result ≡ lacks_element path.now (plain_doc doc.now).root }
{
    !matches!(doc.node_at(path), Some(Found::Inner(Node::Elem { .. })))
}

/// The text there.
pub(crate) fn text_at<'a>(doc: &'a Doc, path: &Path) -> Option<&'a Units>
    ensures lacks { is_none result ≡ lacks_text path.now (plain_doc doc.now).root }
    ensures units { IfSome result (λ units. units.now
        ≡ units_at path.now (plain_doc doc.now).root) }
{
    match doc.node_at(path) {
        Some(Found::Inner(Node::Text(units))) => Some(units),
        _ => None,
    }
}

/// The path of the node whose kid stands at a path, and which of its kids that is.
pub(crate) fn path_parts(path: &[u32]) -> (&[u32], usize)
    ensures parent { result.0.now ≡ parent_of path.now }
    ensures place { result.1 ≡ kid_place path.now }
{
    match path {
        [list @ .., place] => (list, *place as usize),
        [] => (&[], 0),
    }
}

/// The path of the node whose kid stands at a path.
pub(crate) fn parent_of(alloc: Global, path: &Path) -> Result<Path, NoMemory>
    ensures { IfOk result (λ p. p ≡ parent_of path.now) }
{
    Path::new(alloc, path_parts(path.places()).0)
}

/// The kids of an element, and none of any other node.
pub(crate) fn kids_of(node: &Node) -> &[Node]
    ensures { plain_all result.now ≡ kids_of (plain node.now) }
{
    match node {
        Node::Elem { kids, .. } => kids.as_slice(),
        Node::Text(_) => &[],
        Node::Cdata(_) => &[],
        Node::Misc(_) => &[],
    }
}

/// The kids before the node at a path, that node, and the kids after it.
pub(crate) fn part_at<'a>(
    doc: &'a Doc,
    parent: &Path,
    path: &Path,
) -> (&'a [Node], &'a Node, &'a [Node])
    requires parent { parent.now ≡ parent_of path.now }
    requires there { IsInner path.now (plain_doc doc.now).root }
    ensures { IsParted (kids_at (parent_of path.now) (plain_doc doc.now).root) (kid_place path.now)
        (plain_all result.0.now) (plain result.1.now) (plain_all result.2.now) }
{
    let (front, rest) = kids_at(doc, parent).split_at(path_parts(path.places()).1);
    match rest {
        [node, back @ ..] => (front, node, back),
        [] => unreachable!(),
    }
}

/// The text after the node at a path.
pub(crate) fn next_text<'a>(doc: &'a Doc, parent: &Path, path: &Path) -> Option<&'a Units>
    requires parent { parent.now ≡ parent_of path.now }
    requires there { IsInner path.now (plain_doc doc.now).root }
    ensures lacks { is_none result ≡ lacks_text (next_of path.now) (plain_doc doc.now).root }
    ensures units { IfSome result (λ units. units.now ≡ units_at (next_of path.now)
        (plain_doc doc.now).root) }
{
    first_text(part_at(doc, parent, path).2)
}

fn first_text(nodes: &[Node]) -> Option<&Units>
    ensures lacks { is_none result ≡ not (is_spot is_text (first_spot (plain_all nodes.now))) }
    ensures units { IfSome result (λ units. units.now
        ≡ units_on (first_spot (plain_all nodes.now))) }
{
    match nodes {
        [Node::Text(units), ..] => Some(units),
        _ => None,
    }
}
