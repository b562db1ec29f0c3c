//! What an edit is going to do: its change and its inverse, made before the tree is touched.

ghost use Rattle.std.specs.Prelude.{◌≡◌, ◌<◌, ◌+◌, ◌∷◌, [], false, IfOk, IsTrue, length};
ghost use Rattle.pv_tree.specs.Plain.{element, is_element, no_trees, short, tagged};
ghost use Rattle.pv_tree.specs.Places.{at_node, kids_of, spot_at};
ghost use Rattle.pv_tree.specs.PlainDocs.{plain_doc};
ghost use Rattle.pv_tree.specs.PlainForms.{plain};
ghost use Rattle.pv_tree.specs.Marks.{blank_mark};
ghost use Rattle.pv_edit.specs.Changes.{around, named, others};
ghost use Rattle.pv_edit.specs.Effects.{fill, fill_node, parent_of, kid_place};
ghost use Rattle.pv_edit.specs.FittingChanges.{plain_task};
ghost use Rattle.pv_edit.specs.Inverses.{put_back};
ghost use Rattle.pv_edit.specs.Reasons.{lacks_element, reason_of};
ghost use Rattle.pv_edit.specs.Preparations.{IsPreparation};
ghost use Rattle.pv_edit.specs.declared.edits.Edit.TheVariants as edit;

use crate::edits::{Edit, path_of};
use crate::filling::{Filling, kid_count};
use crate::inverses::Inverse;
use crate::places::parent_of;
use crate::tasks::{
    Preparation, Task, ends_short, equal_end, kid_path, last_place, list_task, node_task, one_node,
};
use crate::text_preparations::{
    prepare_add_text, prepare_del_text, prepare_join, prepare_set_text, prepare_split,
};
use pv_chars::{List, NoMemory, bytes_of};
use pv_tree::{Doc, End, Found, Mark, Node, Path};
use std::alloc::Global;

/// The preparation of an edit that can be made.
pub(crate) fn preparation_of(alloc: Global, doc: &Doc, edit: &Edit) -> Result<Preparation, NoMemory>
    requires { reason_of blank_mark (plain_doc doc.now).root edit.now ≡ None }
    ensures { IfOk result (IsPreparation (plain_doc doc.now).root edit.now) }
{
    match edit {
        Edit::Wrap {
            path,
            from,
            to,
            name,
        } => prepare_wrap(alloc, doc, path, *from, *to, name.as_slice()),
        Edit::Insert { path, at, name } => prepare_insert(alloc, doc, path, *at, name.as_slice()),
        Edit::Unwrap { path } => prepare_unwrap(alloc, doc, path),
        Edit::Rename { path, name } => prepare_rename(alloc, doc, path, name.as_slice()),
        Edit::Split { path, at } => prepare_split(alloc, doc, path, *at),
        Edit::Join { path } => prepare_join(alloc, doc, path),
        Edit::SetText { path, text } => prepare_set_text(alloc, doc, path, text.as_slice()),
        Edit::AddText { path, at, text } => prepare_add_text(
            alloc,
            doc,
            path,
            *at,
            text.as_slice(),
        ),
        Edit::DelText { path } => prepare_del_text(alloc, doc, path),
    }
}

fn prepare_wrap(
    alloc: Global,
    doc: &Doc,
    path: &Path,
    from: u32,
    to: u32,
    name: &[u8],
) -> Result<Preparation, NoMemory>
    ensures { IfOk result (IsPreparation (plain_doc doc.now).root
        (edit.Wrap path.now from to name.now)) }
{
    let kid = kid_path(alloc, path, from)?;
    let task = wrap_task(alloc, path, from, to, name)?;
    let inverse = Inverse::TakeOut {
        path: kid,
        short: ends_short(doc, path),
    };
    Ok(Preparation { task, inverse })
}

// What puts an element of this name around kids of the list at a path.
fn wrap_task(alloc: Global, path: &Path, from: u32, to: u32, name: &[u8]) -> Result<Task, NoMemory>
    ensures { IfOk result (λ task. plain_task task
        ≡ fill path.now from to (around name.now [] (tagged []) blank_mark)) }
{
    let list = path_of(alloc, path)?;
    let filling = Filling::Around {
        name: bytes_of(alloc, name)?,
        attrs: List::of(Vec::new(alloc)),
        end: End::Tagged(List::of(Vec::new(alloc))),
    };
    Ok(list_task(list, from, to, filling))
}

fn prepare_insert(
    alloc: Global,
    doc: &Doc,
    path: &Path,
    at: u32,
    name: &[u8],
) -> Result<Preparation, NoMemory>
    ensures { IfOk result (IsPreparation (plain_doc doc.now).root
        (edit.Insert path.now at name.now)) }
{
    let kid = kid_path(alloc, path, at)?;
    let task = insert_task(alloc, path, at, name)?;
    let inverse = Inverse::TakeOut {
        path: kid,
        short: ends_short(doc, path),
    };
    Ok(Preparation { task, inverse })
}

// What puts an element of this name into the list at a path.
fn insert_task(alloc: Global, path: &Path, at: u32, name: &[u8]) -> Result<Task, NoMemory>
    ensures { IfOk result (λ task. plain_task task
        ≡ fill path.now at at (others (element name.now [] short no_trees blank_mark ∷ []))) }
{
    let list = path_of(alloc, path)?;
    let filling = one_node(alloc, new_element(alloc, name)?)?;
    Ok(list_task(list, at, at, filling))
}

// An element without attributes and kids.
fn new_element(alloc: Global, name: &[u8]) -> Result<Node, NoMemory>
    ensures { IfOk result (λ node. plain node ≡ element name.now [] short no_trees blank_mark) }
{
    Ok(Node::Elem {
        name: bytes_of(alloc, name)?,
        attrs: List::of(Vec::new(alloc)),
        end: End::Short,
        kids: Vec::new(alloc),
        mark: Mark::BLANK,
    })
}

fn prepare_unwrap(alloc: Global, doc: &Doc, path: &Path) -> Result<Preparation, NoMemory>
    requires { lacks_element path.now (plain_doc doc.now).root ≡ false }
    ensures { IfOk result (IsPreparation (plain_doc doc.now).root (edit.Unwrap path.now)) }
{
    let task = node_task(alloc, path, 1, Filling::Inner)?;
    let inverse = put_back(alloc, doc, path)?;
    Ok(Preparation { task, inverse })
}

// What puts the kids of the element at a path back into it.
fn put_back(alloc: Global, doc: &Doc, path: &Path) -> Result<Inverse, NoMemory>
    requires { lacks_element path.now (plain_doc doc.now).root ≡ false }
    ensures { IfOk result (λ i. i ≡ put_back (parent_of path.now) (kid_place path.now)
        (spot_at path.now (plain_doc doc.now).root)) }
{
    match doc.node_at(path) {
        Some(Found::Inner(node)) => put_into(alloc, path, node),
        _ => unreachable!(),
    }
}

// What puts an element's kids back into it, where it stood at this path.
fn put_into(alloc: Global, path: &Path, node: &Node) -> Result<Inverse, NoMemory>
    requires elem { IsTrue (is_element (plain node.now)) }
    requires fits { kid_place path.now + length (kids_of (plain node.now)) < 4294967296 }
    ensures { IfOk result (λ i. i ≡ put_back (parent_of path.now) (kid_place path.now)
        (Some (at_node (plain node.now)))) }
{
    let from = last_place(path.places());
    let to = from + kid_count(node) as u32;
    match node {
        Node::Elem {
            name,
            attrs,
            end,
            ..
        } => Ok(Inverse::PutBack {
            path: parent_of(alloc, path)?,
            from,
            to,
            name: bytes_of(alloc, name.as_slice())?,
            attrs: bytes_of(alloc, attrs.as_slice())?,
            end: equal_end(alloc, end)?,
        }),
        _ => unreachable!(),
    }
}

fn prepare_rename(
    alloc: Global,
    doc: &Doc,
    path: &Path,
    name: &[u8],
) -> Result<Preparation, NoMemory>
    requires { lacks_element path.now (plain_doc doc.now).root ≡ false }
    ensures { IfOk result (IsPreparation (plain_doc doc.now).root (edit.Rename path.now name.now)) }
{
    let Some(Found::Inner(Node::Elem { name: old, .. })) = doc.node_at(path) else {
        unreachable!()
    };
    let path_back = path_of(alloc, path)?;
    let name_back = bytes_of(alloc, old.as_slice())?;
    let task = rename_task(alloc, path, name)?;
    let inverse = Inverse::Name {
        path: path_back,
        name: name_back,
    };
    Ok(Preparation { task, inverse })
}

// What gives the element at a path this name.
fn rename_task(alloc: Global, path: &Path, name: &[u8]) -> Result<Task, NoMemory>
    ensures { IfOk result (λ task. plain_task task ≡ fill_node path.now (named name.now)) }
{
    let filling = Filling::Named(bytes_of(alloc, name)?);
    node_task(alloc, path, 1, filling)
}
