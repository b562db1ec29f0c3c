//! Marks updated where a list has changed, and above it.

ghost use Rattle.std.specs.Prelude.{◌≡◌, ◌∷◌, [], ◌<◌, ◌^◌, IfSome, IsTrue, length};
ghost use Rattle.pv_tree.specs.Lists.{an_element};
ghost use Rattle.pv_tree.specs.Plain.{is_element};
ghost use Rattle.pv_tree.specs.Places.{kids_of};
ghost use Rattle.pv_tree.specs.PlainDocs.{plain_doc};
ghost use Rattle.pv_tree.specs.PlainForms.{forest, plain, plain_all};
ghost use Rattle.pv_cache.specs.Updates.{CanUpdate, CanUpdateDoc, CanUpdateOwner, HasElement, IsCounted};
ghost use Rattle.pv_cache.specs.Updates.{IsDocCounted, IsMarkCounted, KidIsCounted};
ghost use Rattle.pv_cache.specs.Updates.{OwnerTellsBefore, TellsAtLeast, TellsBefore, fresh_mark};
ghost use Rattle.pv_cache.specs.Updates.{update_below, update_doc, update_element, update_inner};
ghost use Rattle.pv_cache.specs.Updates.{update_kid, update_owner, update_root, with_told};

use crate::told::{Told, own_left, told_in, told_of};
use pv_edit::{put_kids, take_kids};
use pv_tree::{Doc, Mark, Node, Verdict};
use std::alloc::Global;

/// The verdict of an element's list, among the kids of a changed list.
#[derive(Clone, Copy, Debug)]
pub(crate) struct InnerVerdict {
    pub place: usize,
    pub verdict: Verdict,
}

/// The verdicts of the lists that a change changes.
#[derive(Clone, Copy, Debug)]
pub(crate) struct ChangedVerdicts {
    pub outer: Verdict,
    pub inner: Option<InnerVerdict>,
}

/// The verdicts of the lists that a move changes, and its number.
#[derive(Clone, Copy, Debug)]
pub(crate) struct Update {
    pub verdict: Verdict,
    pub inner: Option<InnerVerdict>,
    pub stamp: u64,
}

/// Where a change puts other kids into a list: after the first `from` and before the last `behind`
/// of its kids, which stay. Of those that give way `gone` was told.
#[derive(Clone, Copy, Debug)]
pub(crate) struct Exchange {
    pub from: usize,
    pub behind: usize,
    pub gone: Told,
}

/// Marks an element whose list has changed, by all its kids.
pub(crate) fn update_element(node: &mut Node, verdict: Verdict, stamp: u64)
    requires elem { IsTrue (is_element (plain node.old)) }
    requires counted { IsCounted (update_element verdict stamp (plain node.old)) }
    ensures { plain node.new ≡ update_element verdict stamp (plain node.old) }
{
    let Node::Elem { kids, mark, .. } = node else {
        unreachable!()
    };
    let told = told_in(kids);
    *mark = Mark {
        verdict,
        stamp,
        left: own_left(verdict) + told.left,
        nodes: 1 + told.nodes,
    };
}

// The mark of an element among whose kids others came, by the mark that it had before.
fn mark_after(kids: &[Node], mark: Mark, update: &Update, exchange: &Exchange) -> Mark
    requires tells { TellsBefore exchange.now (plain_all kids.now) mark }
    requires counted { IsMarkCounted (fresh_mark (an_element []) (forest kids.now)
        update.now.verdict update.now.stamp) }
    ensures { result ≡ fresh_mark (an_element []) (forest kids.now) update.now.verdict
        update.now.stamp }
{
    let to = kids.len() - exchange.behind;
    let came = told_in(&kids[exchange.from..to]);
    let left = mark.left - own_left(mark.verdict) - exchange.gone.left + came.left;
    Mark {
        verdict: update.verdict,
        stamp: update.stamp,
        left: left + own_left(update.verdict),
        nodes: mark.nodes - exchange.gone.nodes + came.nodes,
    }
}

// Marks an element among whose kids others came.
fn update_changed(node: &mut Node, update: &Update, exchange: &Exchange)
    requires tells { OwnerTellsBefore exchange.now (plain node.old) }
    requires counted { IsCounted (update_element update.now.verdict update.now.stamp
        (plain node.old)) }
    ensures { plain node.new ≡ update_element update.now.verdict update.now.stamp (plain node.old) }
{
    let Node::Elem { kids, mark, .. } = node else {
        unreachable!()
    };
    *mark = mark_after(kids, *mark, update, exchange);
}

/// Marks the owner of a changed list, wherever it stands, and tells the marks above it again.
pub(crate) fn update_doc(
    alloc: Global,
    doc: &mut Doc,
    list: &[u32],
    update: &Update,
    exchange: &Exchange,
)
    requires can { CanUpdateDoc (CanUpdateOwner update.now.inner update.now.stamp exchange.now) list.now
        (plain_doc doc.old) }
    requires counted { IsDocCounted (update_doc list.now update.now.verdict update.now.inner
        update.now.stamp (plain_doc doc.old)) }
    ensures { plain_doc doc.new
        ≡ update_doc list.now update.now.verdict update.now.inner update.now.stamp (plain_doc doc.old) }
{
    match list {
        [] => update_top(doc, update),
        [_, below @ ..] => update_inside(alloc, doc, below, update, exchange),
    }
}

/// Marks the document node, whose list has changed, and the root, whose list may have changed too.
pub(crate) fn update_top(doc: &mut Doc, update: &Update)
    requires { IsDocCounted (update_doc [] update.now.verdict update.now.inner update.now.stamp
        (plain_doc doc.old)) }
    ensures { plain_doc doc.new ≡ update_doc [] update.now.verdict update.now.inner update.now.stamp
        (plain_doc doc.old) }
{
    update_root(&mut doc.root, update);
    let told = told_of(&doc.root);
    doc.mark = Mark {
        verdict: update.verdict,
        stamp: update.stamp,
        left: own_left(update.verdict) + told.left,
        nodes: told.nodes,
    };
}

// Marks the root, where its list has changed.
fn update_root(root: &mut Node, update: &Update)
    requires elem { IsTrue (is_element (plain root.old)) }
    requires counted { IsCounted (update_root update.now.inner update.now.stamp (plain root.old)) }
    ensures { plain root.new ≡ update_root update.now.inner update.now.stamp (plain root.old) }
{
    if let Some(inner) = update.inner {
        update_element(root, inner.verdict, update.stamp)
    }
}

// Marks the owner of a changed list below the root.
fn update_inside(alloc: Global, doc: &mut Doc, below: &[u32], update: &Update, exchange: &Exchange)
    requires can { CanUpdateDoc (CanUpdateOwner update.now.inner update.now.stamp exchange.now)
        (0 ∷ below.now) (plain_doc doc.old) }
    requires counted { IsDocCounted (update_doc (0 ∷ below.now) update.now.verdict update.now.inner
        update.now.stamp (plain_doc doc.old)) }
    ensures { plain_doc doc.new ≡ update_doc (0 ∷ below.now) update.now.verdict update.now.inner
        update.now.stamp (plain_doc doc.old) }
{
    let before = told_of(&doc.root);
    update_below(alloc, &mut doc.root, below, update, exchange);
    let after = told_of(&doc.root);
    doc.mark.left = doc.mark.left - before.left + after.left;
    doc.mark.nodes = doc.mark.nodes - before.nodes + after.nodes;
}

/// Marks the owner of a changed list, and the element in it whose list has changed too.
pub(crate) fn update_owner(alloc: Global, node: &mut Node, update: &Update, exchange: &Exchange)
    requires elem { IsTrue (is_element (plain node.old)) }
    requires within { IfSome update.now.inner (λ inner.
        HasElement (kids_of (plain node.old)) inner.place) }
    requires tells { OwnerTellsBefore exchange.now
        (update_inner update.now.inner update.now.stamp (plain node.old)) }
    requires counted { IsCounted (update_owner update.now.verdict update.now.inner update.now.stamp
        (plain node.old)) }
    ensures { plain node.new
        ≡ update_owner update.now.verdict update.now.inner update.now.stamp (plain node.old) }
{
    match update.inner {
        None => update_changed(node, update, exchange),
        Some(inner) => {
            update_kid(alloc, node, inner, update.stamp);
            update_changed(node, update, exchange)
        }
    }
}

// Marks an element's kid whose list has changed.
fn update_kid(alloc: Global, node: &mut Node, inner: InnerVerdict, stamp: u64)
    requires elem { IsTrue (is_element (plain node.old)) }
    requires within { HasElement (kids_of (plain node.old)) inner.place }
    requires counted { KidIsCounted inner stamp (plain node.old) }
    ensures { plain node.new ≡ update_kid inner stamp (plain node.old) }
{
    let mut kids = take_kids(alloc, node);
    update_element(&mut kids[inner.place], inner.verdict, stamp);
    put_kids(alloc, node, kids);
}

/// Marks the owner of a changed list below a node, and tells the marks above it again.
pub(crate) fn update_below(
    alloc: Global,
    node: &mut Node,
    path: &[u32],
    update: &Update,
    exchange: &Exchange,
)
    requires can { CanUpdate (CanUpdateOwner update.now.inner update.now.stamp exchange.now) path.now
        (plain node.old) }
    requires counted { IsCounted (update_below path.now
        (update_owner update.now.verdict update.now.inner update.now.stamp) (plain node.old)) }
    ensures { plain node.new ≡ update_below path.now
        (update_owner update.now.verdict update.now.inner update.now.stamp) (plain node.old) }
{
    match path {
        [] => update_owner(alloc, node, update, exchange),
        [first, rest @ ..] => {
            let mut kids = take_kids(alloc, node);
            let kid = &mut kids[*first as usize];
            let before = told_of(kid);
            update_below(alloc, kid, rest, update, exchange);
            let after = told_of(kid);
            put_kids(alloc, node, kids);
            tell_again(node, before, after);
        }
    }
}

// Tells the mark of an element again, a kid of which told `before` and tells `after`.
fn tell_again(node: &mut Node, before: Told, after: Told)
    requires at_least { TellsAtLeast before (plain node.old) }
    requires counted { IsCounted (with_told before after (plain node.old)) }
    ensures { plain node.new ≡ with_told before after (plain node.old) }
{
    if let Node::Elem { mark, .. } = node {
        mark.left = mark.left - before.left + after.left;
        mark.nodes = mark.nodes - before.nodes + after.nodes;
    }
}
