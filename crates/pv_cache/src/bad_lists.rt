//! How many lists are Impossible, as marks tell.

ghost use Rattle.std.specs.Prelude.{◌≡◌, ◌≤◌, [], IsTrue, None};
ghost use Rattle.std.specs.List.{between};
ghost use Rattle.pv_cache.specs.BadLists.{bad_gone, own_in, own_inner, own_of};
ghost use Rattle.pv_cache.specs.WellMarked.{bad_in, bad_in_all, own_bad, told_bad};
ghost use Rattle.pv_edit.specs.FittingChanges.{CanFill, SuitsChange, plain_change, plain_filling};
ghost use Rattle.pv_edit.specs.Reasons.{is_one_element};
ghost use Rattle.pv_tree.specs.Legal.{MAX_NODES};
ghost use Rattle.pv_tree.specs.Plain.{nodes_in, nodes_in_all};
ghost use Rattle.pv_tree.specs.PlainDocs.{plain_doc};
ghost use Rattle.pv_tree.specs.PlainForms.{forest, plain, plain_all};

use crate::updates::InnerVerdict;
use pv_edit::{Change, Filling};
use pv_missing::Verdicts;
use pv_tree::{Doc, Node, Verdict};

/// What a list of this verdict adds to the number of Impossible ones.
pub(crate) fn own_bad(verdict: Verdict) -> u64
    ensures { result ≡ own_bad verdict }
{
    match verdict {
        Verdict::Valid => 0,
        Verdict::Possible => 0,
        Verdict::Impossible => 1,
    }
}

/// What the own list of a node adds to it.
pub(crate) fn own_of(node: &Node) -> u64
    ensures { result ≡ own_of (plain node.now) }
{
    match node {
        Node::Elem { mark, .. } => own_bad(mark.verdict),
        Node::Text(_) => 0,
        Node::Cdata(_) => 0,
        Node::Misc(_) => 0,
    }
}

/// What the inner list of a change adds to it, if there is one.
pub(crate) fn own_inner(inner: Option<InnerVerdict>) -> u64
    ensures { result ≡ own_inner inner }
{
    match inner {
        None => 0,
        Some(inner) => own_bad(inner.verdict),
    }
}

// How many lists of a subtree are Impossible.
#[cycle(count)]
fn bad_in(node: &Node) -> u64
    requires { nodes_in (plain node.now) ≤ MAX_NODES }
    ensures { result ≡ bad_in (plain node.now) }
{
    match node {
        Node::Elem { kids, mark, .. } => own_bad(mark.verdict) + bad_in_all(kids),
        Node::Text(_) => 0,
        Node::Cdata(_) => 0,
        Node::Misc(_) => 0,
    }
}

// How many lists of nodes side by side are Impossible.
#[cycle(count)]
fn bad_in_all(kids: &[Node]) -> u64
    requires { nodes_in_all (forest kids.now) ≤ MAX_NODES }
    ensures { result ≡ bad_in_all (forest kids.now) }
{
    let mut bad = 0;
    for kid in kids {
        bad += bad_in(kid);
    }
    bad
}

// How many lists of a document are Impossible.
fn told_bad(doc: &Doc) -> u64
    ensures { result ≡ told_bad (plain_doc doc.now) }
{
    own_bad(doc.mark.verdict) + bad_in(&doc.root)
}

/// How many lists of a document are Impossible whose marks tell these verdicts. Where they tell no
/// first Impossible list, as of most documents, nothing is counted.
pub(crate) fn bad_by(doc: &Doc, verdicts: &Verdicts) -> u64
    requires { verdicts.now.first ≡ None → told_bad (plain_doc doc.now) ≡ 0 }
    ensures { result ≡ told_bad (plain_doc doc.now) }
{
    match verdicts.first_impossible() {
        None => 0,
        Some(_) => told_bad(doc),
    }
}

// What the own list of the only one of these nodes, which is an element, adds to the number.
fn own_of_only(nodes: &[Node]) -> u64
    requires { IsTrue (is_one_element (plain_all nodes.now)) }
    ensures { result ≡ own_in (plain_all nodes.now) }
{
    match nodes {
        [node] => own_of(node),
        _ => unreachable!(),
    }
}

// How many lists go that are Impossible, where a filling comes in place of these nodes.
fn bad_gone(filling: &Filling, old: &[Node]) -> u64
    requires fits { CanFill (plain_filling filling.now) (plain_all old.now) }
    requires small { nodes_in_all (forest old.now) ≤ MAX_NODES }
    ensures { result ≡ bad_gone (plain_filling filling.now) (plain_all old.now) }
{
    match filling {
        Filling::Others(_) => bad_in_all(old),
        Filling::Around { .. } => 0,
        Filling::Inner => own_of_only(old),
        Filling::Named(_) => own_of_only(old),
    }
}

/// How many lists go that are Impossible, where a change of these nodes is made.
pub(crate) fn bad_taken(kids: &[Node], change: &Change) -> u64
    requires suits { SuitsChange (plain_change [] change.now) (plain_all kids.now) }
    requires small { nodes_in_all (forest kids.now) ≤ MAX_NODES }
    ensures { result ≡ bad_gone (plain_filling change.now.filling)
        (between change.now.from change.now.to (plain_all kids.now)) }
{
    bad_gone(&change.filling, &kids[change.from..change.to])
}
