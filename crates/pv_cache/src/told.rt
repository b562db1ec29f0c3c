//! What marks tell of subtrees.

ghost use Rattle.std.specs.Prelude.{◌≡◌, ◌<◌, ◌^◌};
ghost use Rattle.pv_tree.specs.PlainForms.{forest, plain};
ghost use Rattle.pv_cache.specs.WellMarked.{own_left, told_left, told_left_in, told_nodes};
ghost use Rattle.pv_cache.specs.WellMarked.{told_nodes_in, told_verdict};

use pv_tree::{Node, Verdict};

/// How many lists of a subtree are Possible, and how many nodes it has.
#[derive(Clone, Copy, Debug)]
pub(crate) struct Told {
    pub left: u64,
    pub nodes: u64,
}

/// What the mark of a node tells of its subtree.
pub(crate) fn told_of(node: &Node) -> Told
    ensures left { result.left ≡ told_left (plain node.now) }
    ensures nodes { result.nodes ≡ told_nodes (plain node.now) }
{
    match node {
        Node::Elem { mark, .. } => Told {
            left: mark.left,
            nodes: mark.nodes,
        },
        Node::Text(_) => Told { left: 0, nodes: 1 },
        Node::Cdata(_) => Told { left: 0, nodes: 1 },
        Node::Misc(_) => Told { left: 0, nodes: 1 },
    }
}

/// What the marks of kids tell in all.
pub(crate) fn told_in(kids: &[Node]) -> Told
    requires left { told_left_in (forest kids.now) < 2 ^ 64 }
    requires nodes { told_nodes_in (forest kids.now) < 2 ^ 64 }
    ensures left { result.left ≡ told_left_in (forest kids.now) }
    ensures nodes { result.nodes ≡ told_nodes_in (forest kids.now) }
{
    let mut left = 0;
    let mut nodes = 0;
    for kid in kids {
        let told = told_of(kid);
        left += told.left;
        nodes += told.nodes;
    }
    Told { left, nodes }
}

/// What a list of this verdict adds to the number of Possible ones.
pub(crate) fn own_left(verdict: Verdict) -> u64
    ensures { result ≡ own_left verdict }
{
    match verdict {
        Verdict::Valid => 0,
        Verdict::Possible => 1,
        Verdict::Impossible => 0,
    }
}

/// The verdict of an element's list, as its mark tells it.
pub(crate) fn told_verdict(node: &Node) -> Option<Verdict>
    ensures { result ≡ told_verdict (plain node.now) }
{
    match node {
        Node::Elem { mark, .. } => Some(mark.verdict),
        Node::Text(_) => None,
        Node::Cdata(_) => None,
        Node::Misc(_) => None,
    }
}
