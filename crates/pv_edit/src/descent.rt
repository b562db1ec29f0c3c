//! A change of one list, wherever it stands in a tree.

ghost use Rattle.std.specs.Prelude.{◌≡◌, [], IsSomeAnd, IsTrue, OnErr, OnOk};
ghost use Rattle.pv_tree.specs.Plain.{is_element};
ghost use Rattle.pv_tree.specs.Places.{kids_of, node_below};
ghost use Rattle.pv_tree.specs.PlainForms.{plain, plain_all, plain_end};
ghost use Rattle.pv_edit.specs.Changes.{change_below, ending_after, owner_after, root_after};
ghost use Rattle.pv_edit.specs.Changes.{with_list};
ghost use Rattle.pv_edit.specs.FittingChanges.{CanChange, TakesChange, TakesTop, if_made};
ghost use Rattle.pv_edit.specs.FittingChanges.{plain_change};
ghost use Rattle.pv_edit.specs.FittingChanges.{with_kids};

use crate::filling::fill;
use crate::tasks::Change;
use pv_chars::{List, NoMemory};
use pv_tree::{End, Node};
use std::alloc::Global;
use std::mem;

/// Changes the list at a path. All memory is taken before; without it the tree stays.
pub(crate) fn change_root(
    alloc: Global,
    root: &mut Node,
    list: &[u32],
    change: Change,
) -> Result<(), NoMemory>
    requires { CanChange list.now (plain_change list.now change) (plain root.old) }
    ensures changed { OnOk result
        (plain root.new ≡ root_after list.now (plain_change list.now change) (plain root.old)) }
    ensures unchanged { OnErr result (plain root.new ≡ plain root.old) }
{
    match list {
        [] => change_top(alloc, root, change),
        [_, below @ ..] => change_below(alloc, root, below, change),
    }
}

// Changes the list of the document node, which holds the root alone.
fn change_top(alloc: Global, root: &mut Node, change: Change) -> Result<(), NoMemory>
    requires { TakesTop (plain_change [] change) (plain root.old) }
    ensures changed { OnOk result
        (plain root.new ≡ root_after [] (plain_change [] change) (plain root.old)) }
    ensures unchanged { OnErr result (plain root.new ≡ plain root.old) }
{
    let mut kids = Vec::with_capacity(alloc, 1)?;
    kids.push_reserved(mem::replace(root, placeholder(alloc)));
    let filled = fill(alloc, &mut kids, change.from, change.to, change.filling);
    let Some(first) = kids.pop() else {
        unreachable!()
    };
    drop(mem::replace(root, first));
    filled
}

// Changes the list of the element at a path below a node.
fn change_below(
    alloc: Global,
    node: &mut Node,
    path: &[u32],
    change: Change,
) -> Result<(), NoMemory>
    requires { IsSomeAnd (node_below path.now (plain node.old))
        (TakesChange (plain_change [] change)) }
    ensures { plain node.new ≡ change_below path.now
        (if_made result (owner_after (plain_change [] change))) (plain node.old) }
{
    match path {
        [] => change_owner(alloc, node, change),
        [first, rest @ ..] => {
            let mut kids = take_kids(alloc, node);
            let made = change_below(alloc, &mut kids[*first as usize], rest, change);
            put_kids(alloc, node, kids);
            made
        }
    }
}

// Changes the list of an element.
fn change_owner(alloc: Global, node: &mut Node, change: Change) -> Result<(), NoMemory>
    requires { TakesChange (plain_change [] change) (plain node.old) }
    ensures { plain node.new
        ≡ if_made result (owner_after (plain_change [] change)) (plain node.old) }
{
    let Change {
        from,
        to,
        filling,
        shorten,
    } = change;
    let mut kids = take_kids(alloc, node);
    match fill(alloc, &mut kids, from, to, filling) {
        Ok(()) => {
            put_list(alloc, node, kids, shorten);
            Ok(())
        }
        Err(NoMemory) => {
            put_kids(alloc, node, kids);
            Err(NoMemory)
        }
    }
}

// A node that stands nowhere.
fn placeholder(alloc: Global) -> Node {
    Node::Misc(List::of(Vec::new(alloc)))
}

/// Takes the kids out of an element, which has none then.
///
/// ```rust
/// let mut doc = read_doc(alloc, b"<a> <b/>x</a>", b"a")?;
/// let kids = take_kids(alloc, &mut doc.root); // three nodes, and the root has none
/// assert!(rt; kids.len() == 3);
/// put_kids(alloc, &mut doc.root, kids);
/// assert!(rt; doc.nodes() == 4);
/// ```
pub fn take_kids(alloc: Global, node: &mut Node) -> Vec<Node>
    requires { IsTrue (is_element (plain node.old)) }
    ensures taken { plain_all result.items ≡ kids_of (plain node.old) }
    ensures rest { plain node.new ≡ with_kids [] (plain node.old) }
{
    let Node::Elem {
        name,
        attrs,
        end,
        kids,
        mark,
    } = mem::replace(node, placeholder(alloc))
    else {
        unreachable!()
    };
    let bare = Node::Elem {
        name,
        attrs,
        end,
        kids: Vec::new(alloc),
        mark,
    };
    drop(mem::replace(node, bare));
    kids
}

/// Gives an element kids, in place of those it has.
///
/// See `take_kids`, whose example puts them back.
pub fn put_kids(alloc: Global, node: &mut Node, kids: Vec<Node>)
    requires { IsTrue (is_element (plain node.old)) }
    ensures { plain node.new ≡ with_kids (plain_all kids.items) (plain node.old) }
{
    let Node::Elem {
        name,
        attrs,
        end,
        kids: old,
        mark,
    } = mem::replace(node, placeholder(alloc))
    else {
        unreachable!()
    };
    drop(old);
    let full = Node::Elem {
        name,
        attrs,
        end,
        kids,
        mark,
    };
    drop(mem::replace(node, full));
}

// Gives an element a changed list, and the end that goes with it.
fn put_list(alloc: Global, node: &mut Node, kids: Vec<Node>, shorten: bool)
    requires { IsTrue (is_element (plain node.old)) }
    ensures { plain node.new ≡ with_list shorten (plain_all kids.items) (plain node.old) }
{
    let Node::Elem {
        name,
        attrs,
        end,
        kids: old,
        mark,
    } = mem::replace(node, placeholder(alloc))
    else {
        unreachable!()
    };
    drop(old);
    let end = end_after(alloc, shorten, end, &kids);
    let full = Node::Elem {
        name,
        attrs,
        end,
        kids,
        mark,
    };
    drop(mem::replace(node, full));
}

// How the owner of a changed list ends.
fn end_after(alloc: Global, shorten: bool, end: End, kids: &[Node]) -> End
    ensures { plain_end result ≡ ending_after shorten (plain_end end) (plain_all kids.now) }
{
    if shorten {
        return End::Short;
    }
    match end {
        End::Short if kids.is_empty() => End::Short,
        End::Short => End::Tagged(List::of(Vec::new(alloc))),
        End::Tagged(gap) => End::Tagged(gap),
    }
}
