//! What an inverse is going to do: its change, made before the tree is touched.

ghost use Rattle.std.specs.Prelude.{◌≡◌, IfOk};
ghost use Rattle.pv_tree.specs.PlainDocs.{plain_doc};
ghost use Rattle.pv_tree.specs.PlainForms.{plain_end};
ghost use Rattle.pv_tree.specs.Marks.{blank_mark};
ghost use Rattle.pv_edit.specs.Changes.{around, others};
ghost use Rattle.pv_edit.specs.Effects.{fill, fill_node, one_text, parent_of, kid_place};
ghost use Rattle.pv_edit.specs.FittingChanges.{plain_task, plain_filling};
ghost use Rattle.pv_edit.specs.Preparations.{HasTexts, IsTask};

use crate::edits::path_of;
use crate::filling::Filling;
use crate::inverses::Inverse;
use crate::places::parent_of;
use crate::tasks::{Change, Task, equal_end, last_place, list_task, node_task, one_node};
use crate::text_preparations::{cut_task, join_task};
use pv_chars::{Bytes, NoMemory, Units, bytes_of};
use pv_tree::{Doc, End, Node, Path};
use std::alloc::Global;

/// The change of an inverse.
pub(crate) fn task_back(alloc: Global, doc: &Doc, inverse: &Inverse) -> Result<Task, NoMemory>
    requires { HasTexts (plain_doc doc.now).root inverse.now }
    ensures { IfOk result (IsTask (plain_doc doc.now).root inverse.now) }
{
    match inverse {
        Inverse::TakeOut { path, short } => removal_task(alloc, path, Filling::Inner, *short),
        Inverse::PutBack {
            path,
            from,
            to,
            name,
            attrs,
            end,
        } => {
            let filling = element(alloc, name, attrs, end)?;
            Ok(list_task(path_of(alloc, path)?, *from, *to, filling))
        }
        Inverse::Name { path, name } => {
            let filling = Filling::Named(bytes_of(alloc, name.as_slice())?);
            node_task(alloc, path, 1, filling)
        }
        Inverse::Merge { path } => join_task(alloc, doc, path),
        Inverse::Divide { path, at } => cut_task(alloc, doc, path, *at as usize),
        Inverse::Text { path, text } => node_task(alloc, path, 1, text_again(alloc, text)?),
        Inverse::Discard { path, short } => {
            removal_task(alloc, path, Filling::Others(Vec::new(alloc)), *short)
        }
        Inverse::Restore { path, text } => restore_task(alloc, path, text),
    }
}

// Something in place of a node, above which an element may end by `/>` again.
fn removal_task(alloc: Global, path: &Path, filling: Filling, short: bool) -> Result<Task, NoMemory>
    ensures { IfOk result (λ task. plain_task task ≡
        record (fill_node path.now (plain_filling filling)) { shorten = short }) }
{
    let Task { list, change } = node_task(alloc, path, 1, filling)?;
    let change = Change {
        shorten: short,
        ..change
    };
    Ok(Task { list, change })
}

// An element that comes back around kids.
fn element(alloc: Global, name: &Bytes, attrs: &Bytes, end: &End) -> Result<Filling, NoMemory>
    ensures { IfOk result (λ filling. plain_filling filling
        ≡ around name.now attrs.now (plain_end end.now) blank_mark) }
{
    Ok(Filling::Around {
        name: bytes_of(alloc, name.as_slice())?,
        attrs: bytes_of(alloc, attrs.as_slice())?,
        end: equal_end(alloc, end)?,
    })
}

// A text that comes back.
fn text_again(alloc: Global, text: &Units) -> Result<Filling, NoMemory>
    ensures { IfOk result (λ filling. plain_filling filling ≡ others (one_text text.now)) }
{
    one_node(alloc, Node::Text(text.copy(alloc)?))
}

// A text that comes back before the kid at its place.
fn restore_task(alloc: Global, path: &Path, text: &Units) -> Result<Task, NoMemory>
    ensures { IfOk result (λ task. plain_task task ≡
        fill (parent_of path.now) (kid_place path.now) (kid_place path.now)
        (others (one_text text.now))) }
{
    let place = last_place(path.places());
    let filling = text_again(alloc, text)?;
    Ok(list_task(parent_of(alloc, path)?, place, place, filling))
}
