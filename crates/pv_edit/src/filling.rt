//! Kids that give way to others, in one list.

ghost use Rattle.std.specs.Prelude.{◌≡◌, ◌+◌, ◌-◌, ◌++◌, ◌≤◌, [], ◌∷◌, IfOk, IsTrue, OnErr, OnOk};
ghost use Rattle.std.specs.Prelude.{drop, length, take, vec_len, vec_capacity};
ghost use Rattle.std.specs.List.{between, splice};
ghost use Rattle.pv_tree.specs.Plain.{is_element};
ghost use Rattle.pv_tree.specs.Places.{kids_of};
ghost use Rattle.pv_tree.specs.PlainForms.{plain, plain_all};
ghost use Rattle.pv_edit.specs.Changes.{all_kids, with_name};
ghost use Rattle.pv_edit.specs.Reasons.{is_one_element};
ghost use Rattle.pv_edit.specs.FittingChanges.{CanFill, plain_filling, with_filling, with_kids};

use crate::descent::{put_kids, take_kids};
use pv_chars::{Bytes, NoMemory};
use pv_tree::{End, Mark, Node};
use std::alloc::Global;

/// What comes in place of some kids.
///
/// An insertion has `Others`, a wrap `Around`, an unwrap `Inner` and a renaming `Named`.
///
/// ```rust
/// let doc = read_doc(alloc, b"<a> <b/>x</a>", b"a")?;
/// let edit = Edit::Unwrap { path: Path::new(alloc, &[0, 1])? };
/// let ready = prepare(alloc, &doc, &edit)?;
/// assert!(rt; matches!(&ready.task.change.filling, Filling::Inner));
/// ```
#[derive(Debug, Drop)]
pub enum Filling {
    /// These nodes.
    Others(Vec<Node>),
    /// An element around them.
    Around { name: Bytes, attrs: Bytes, end: End },
    /// Their own kids.
    Inner,
    /// The kid itself, under another name.
    Named(Bytes),
}

/// Puts others in place of the kids from one place up to another. All memory is taken before;
/// without it the kids stay.
pub(crate) fn fill(
    alloc: Global,
    kids: &mut Vec<Node>,
    from: usize,
    to: usize,
    filling: Filling,
) -> Result<(), NoMemory>
    requires order { from ≤ to }
    requires within { to ≤ vec_len kids.old }
    requires fits { CanFill (plain_filling filling) (between from to (plain_all kids.old.items)) }
    ensures filled { OnOk result (plain_all kids.new.items
        ≡ with_filling from to (plain_filling filling) (plain_all kids.old.items)) }
    ensures unchanged { OnErr result (plain_all kids.new.items ≡ plain_all kids.old.items) }
{
    match filling {
        Filling::Others(nodes) => put_others(alloc, kids, from, to, nodes),
        Filling::Around { name, attrs, end } => {
            let bare = Node::Elem {
                name,
                attrs,
                end,
                kids: Vec::new(alloc),
                mark: Mark::BLANK,
            };
            put_around(alloc, kids, from, to, bare)
        }
        Filling::Inner => put_inner(alloc, kids, from, to),
        Filling::Named(name) => {
            put_name(&mut kids[from], name);
            Ok(())
        }
    }
}

// Puts nodes in place of kids.
fn put_others(
    alloc: Global,
    kids: &mut Vec<Node>,
    from: usize,
    to: usize,
    nodes: Vec<Node>,
) -> Result<(), NoMemory>
    requires order { from ≤ to }
    requires within { to ≤ vec_len kids.old }
    ensures put { OnOk result (kids.new.items ≡ splice kids.old.items from to nodes.items) }
    ensures unchanged { OnErr result (kids.new.items ≡ kids.old.items) }
{
    let taken = make_room(alloc, kids, to - from, nodes.len())?;
    drop(exchange(kids, from, to, nodes, taken));
    Ok(())
}

// Puts an element in place of kids, and them into it.
fn put_around(
    alloc: Global,
    kids: &mut Vec<Node>,
    from: usize,
    to: usize,
    bare: Node,
) -> Result<(), NoMemory>
    requires order { from ≤ to }
    requires within { to ≤ vec_len kids.old }
    requires elem { IsTrue (is_element (plain bare)) }
    ensures put { OnOk result (plain_all kids.new.items ≡ splice (plain_all kids.old.items) from to
        (with_kids (between from to (plain_all kids.old.items)) (plain bare) ∷ [])) }
    ensures unchanged { OnErr result (kids.new.items ≡ kids.old.items) }
{
    let mut nodes = Vec::with_capacity(alloc, 1)?;
    nodes.push_reserved(bare);
    let taken = make_room(alloc, kids, to - from, 1)?;
    let inner = exchange(kids, from, to, nodes, taken);
    put_kids(alloc, &mut kids[from], inner);
    Ok(())
}

// Puts the kids of an element, the only kid from one place up to another, in place of it.
fn put_inner(alloc: Global, kids: &mut Vec<Node>, from: usize, to: usize) -> Result<(), NoMemory>
    requires order { from ≤ to }
    requires within { to ≤ vec_len kids.old }
    requires one { IsTrue (is_one_element (between from to (plain_all kids.old.items))) }
    ensures put { OnOk result (plain_all kids.new.items ≡ splice (plain_all kids.old.items) from to
        (all_kids (between from to (plain_all kids.old.items)))) }
    ensures unchanged { OnErr result (kids.new.items ≡ kids.old.items) }
{
    let taken = make_room(alloc, kids, to - from, kid_count(&kids[from]))?;
    let inner = take_kids(alloc, &mut kids[from]);
    drop(exchange(kids, from, to, inner, taken));
    Ok(())
}

// Gives an element another name.
fn put_name(node: &mut Node, new: Bytes)
    requires { IsTrue (is_element (plain node.old)) }
    ensures { plain node.new ≡ with_name new (plain node.old) }
{
    let Node::Elem { name, .. } = node else {
        unreachable!()
    };
    *name = new;
}

// Takes the memory to put so many nodes in place of so many kids: room in the list, and a vector
// for the kids that give way.
fn make_room(
    alloc: Global,
    kids: &mut Vec<Node>,
    gone: usize,
    came: usize,
) -> Result<Vec<Node>, NoMemory>
    ensures items { kids.new.items ≡ kids.old.items }
    ensures len { vec_len kids.new ≡ vec_len kids.old }
    ensures room { OnOk result (vec_len kids.new + (came - gone) ≤ vec_capacity kids.new) }
    ensures empty { IfOk result (λ taken. taken.items ≡ []) }
    ensures taken { IfOk result (λ taken. gone ≤ vec_capacity taken) }
{
    kids.reserve(came.saturating_sub(gone))?;
    Ok(Vec::with_capacity(alloc, gone)?)
}

/// The number of an element's kids, and 0 for any other node.
pub(crate) fn kid_count(node: &Node) -> usize
    ensures { result ≡ length (kids_of (plain node.now)) }
{
    match node {
        Node::Elem { kids, .. } => kids.len(),
        Node::Text(_) => 0,
        Node::Cdata(_) => 0,
        Node::Misc(_) => 0,
    }
}

// Puts nodes in place of the kids from one place up to another, in a list that has room for them,
// and gives these kids, in a vector that has room for them. As many as can be change places, so
// that the kids after them are moved once at most.
fn exchange(
    kids: &mut Vec<Node>,
    from: usize,
    to: usize,
    mut nodes: Vec<Node>,
    taken: Vec<Node>,
) -> Vec<Node>
    requires order { from ≤ to }
    requires within { to ≤ vec_len kids.old }
    requires room { vec_len kids.old + (vec_len nodes - (to - from)) ≤ vec_capacity kids.old }
    requires empty { taken.items ≡ [] }
    requires taken { to - from ≤ vec_capacity taken }
    ensures items { kids.new.items ≡ splice kids.old.items from to nodes.items }
    ensures taken { result.items ≡ between from to kids.old.items }
{
    let both = nodes.len().min(to - from);
    let more = nodes.len() - both;
    let kept = to - both;
    trade(kids, kept, to, &mut nodes, more);
    let gone = take_range(kids, from, kept, taken);
    let gone = take_range(&mut nodes, more, more + both, gone);
    move_behind(kids, &mut nodes);
    move_last(kids, from, more);
    gone
}

// The kids from one place up to another and the last nodes change places.
fn trade(kids: &mut Vec<Node>, from: usize, to: usize, nodes: &mut Vec<Node>, more: usize)
    requires order { from ≤ to }
    requires within { to ≤ vec_len kids.old }
    requires count { more + (to - from) ≡ vec_len nodes.old }
    ensures kids { kids.new.items ≡ splice kids.old.items from to (drop more nodes.old.items) }
    ensures nodes { nodes.new.items
        ≡ take more nodes.old.items ++ between from to kids.old.items }
    ensures len { vec_len kids.new ≡ vec_len kids.old }
    ensures nodes_len { vec_len nodes.new ≡ vec_len nodes.old }
    ensures capacity { vec_capacity kids.new ≡ vec_capacity kids.old }
{
    kids[from..to].swap_with_slice(&mut nodes[more..]);
}

// Takes the kids from one place up to another out, to the end of a vector that has room for them.
fn take_range(kids: &mut Vec<Node>, from: usize, to: usize, mut taken: Vec<Node>) -> Vec<Node>
    requires order { from ≤ to }
    requires within { to ≤ vec_len kids.old }
    requires taken { vec_len taken + (to - from) ≤ vec_capacity taken }
    ensures taken { result.items ≡ taken.items ++ between from to kids.old.items }
    ensures taken_len { vec_len result ≡ vec_len taken + (to - from) }
    ensures taken_capacity { vec_capacity result ≡ vec_capacity taken }
    ensures items { kids.new.items ≡ take from kids.old.items ++ drop to kids.old.items }
    ensures len { vec_len kids.new + (to - from) ≡ vec_len kids.old }
    ensures capacity { vec_capacity kids.new ≡ vec_capacity kids.old }
{
    for kid in kids.drain(from..to) {
        taken.push_reserved(kid);
    }
    taken
}

// Moves the last so many kids before those from a place on.
fn move_last(kids: &mut Vec<Node>, from: usize, count: usize)
    requires { from + count ≤ vec_len kids.old }
    ensures { kids.new.items ≡ take from kids.old.items ++
        (drop (vec_len kids.old - from - count) (drop from kids.old.items) ++
        take (vec_len kids.old - from - count) (drop from kids.old.items)) }
{
    kids[from..].rotate_right(count);
}

// Moves the nodes of another vector after those of one that has room for them.
fn move_behind(kids: &mut Vec<Node>, more: &mut Vec<Node>)
    requires { vec_len kids.old + vec_len more.old ≤ vec_capacity kids.old }
    ensures items { kids.new.items ≡ kids.old.items ++ more.old.items }
    ensures len { vec_len kids.new ≡ vec_len kids.old + vec_len more.old }
    ensures capacity { vec_capacity kids.old ≤ vec_capacity kids.new }
{
    match kids.append(more) {
        Ok(()) => {}
        Err(_) => unreachable!(),
    }
}
