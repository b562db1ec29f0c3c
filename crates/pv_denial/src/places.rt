//! Where a list stands.

ghost use Rattle.std.specs.Prelude.{◌≡◌, MatchOption, None};
ghost use Rattle.std.specs.List.{Contains};
ghost use Rattle.pv_tree.specs.Lists.{Listed, lists_of};
ghost use Rattle.pv_tree.specs.PlainDocs.{plain_doc};
ghost use Rattle.pv_tree.specs.PlainForms.{plain};
ghost use Rattle.pv_tree.specs.Places.{at_node, owner_of};
ghost use Rattle.pv_tree.specs.declared.nodes.Mark.{Mark as PlainMark};
ghost use Rattle.pv_denial.specs.Places.{IsPlaceAt, IsPlaceOfNode};

use pv_tree::laws::list_at_law;
use pv_tree::{Doc, Found, Mark, Node, Path};

/// The owner of a list, by its name, and the list's kids.
#[derive(Clone, Copy, Debug)]
pub struct OwnedList<'a> {
    /// Whether the owner is the document node; its name is the root's then.
    pub of_document: bool,
    pub name: &'a [u8],
    pub kids: &'a [Node],
}

/// The list of a node, where it is an element.
fn element_place(node: &Node) -> Option<OwnedList<'_>>
    ensures { MatchOption result (owner_of (at_node (plain node.now)) ≡ None)
        (IsPlaceOfNode (plain node.now)) }
{
    match node {
        Node::Elem { name, kids, .. } => Some(OwnedList {
            of_document: false,
            name: name.as_slice(),
            kids,
        }),
        Node::Text(_) => None,
        Node::Cdata(_) => None,
        Node::Misc(_) => None,
    }
}

/// The list at a path, where there is one.
pub fn place_at<'a>(root: &'a [u8], doc: &'a Doc, path: &Path) -> Option<OwnedList<'a>>
    ensures { MatchOption result
        ((list : Listed PlainMark) → Contains (lists_of (plain_doc doc.now)) list →
        ¬ (list.path ≡ path.now))
        (λ place. IsPlaceAt root.now (plain_doc doc.now) path.now place) }
{
    list_at_law::<Mark>();
    match doc.node_at(path) {
        None => None,
        Some(Found::Document) => Some(OwnedList {
            of_document: true,
            name: root,
            kids: std::slice::from_ref(&doc.root),
        }),
        Some(Found::Inner(node)) => match element_place(node) {
            None => None,
            Some(place) => Some(place),
        },
    }
}
