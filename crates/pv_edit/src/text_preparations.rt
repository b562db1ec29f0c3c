//! What an edit of texts is going to do.

ghost use Rattle.std.specs.Prelude.{◌≡◌, ◌∷◌, ◌++◌, ◌<◌, ◌≤◌, [], false, true, IfOk, length};
ghost use Rattle.std.specs.Prelude.{vec_capacity};
ghost use Rattle.pv_tree.specs.PlainDocs.{plain_doc};
ghost use Rattle.pv_tree.specs.PlainForms.{plain};
ghost use Rattle.pv_edit.specs.Changes.{others};
ghost use Rattle.pv_edit.specs.Effects.{fill_node, fill_two, next_of, one_text, two_texts};
ghost use Rattle.pv_edit.specs.Effects.{units_at};
ghost use Rattle.pv_edit.specs.FittingChanges.{plain_task, plain_filling};
ghost use Rattle.pv_edit.specs.GivenNames.{is_new_text, new_units};
ghost use Rattle.pv_edit.specs.Reasons.{lacks_text};
ghost use Rattle.pv_edit.specs.Preparations.{IsPreparation};
ghost use Rattle.pv_edit.specs.declared.edits.Edit.TheVariants as edit;

use crate::edits::path_of;
use crate::filling::Filling;
use crate::given::new_units;
use crate::inverses::Inverse;
use crate::places::{next_text, parent_of, text_at};
use crate::tasks::{Preparation, Task, ends_short, kid_path, list_task, node_task, one_node};
use pv_chars::{NoMemory, Units};
use pv_tree::{Doc, Node, Path};
use std::alloc::Global;

/// The preparation of a cut.
pub(crate) fn prepare_split(
    alloc: Global,
    doc: &Doc,
    path: &Path,
    at: u32,
) -> Result<Preparation, NoMemory>
    requires text { lacks_text path.now (plain_doc doc.now).root ≡ false }
    requires some { 0 < at }
    requires within { at < length (units_at path.now (plain_doc doc.now).root) }
    ensures { IfOk result (IsPreparation (plain_doc doc.now).root (edit.Split path.now at)) }
{
    let task = cut_task(alloc, doc, path, at as usize)?;
    let inverse = Inverse::Merge {
        path: path_of(alloc, path)?,
    };
    Ok(Preparation { task, inverse })
}

/// A text cut before one of its units.
pub(crate) fn cut_task(alloc: Global, doc: &Doc, path: &Path, at: usize) -> Result<Task, NoMemory>
    requires text { lacks_text path.now (plain_doc doc.now).root ≡ false }
    requires some { 0 < at }
    requires within { at < length (units_at path.now (plain_doc doc.now).root) }
    ensures { IfOk result (λ task. plain_task task
        ≡ fill_node path.now (others (two_texts at (units_at path.now (plain_doc doc.now).root)))) }
{
    let Some(units) = text_at(doc, path) else {
        unreachable!()
    };
    let nodes = Vec::with_capacity(alloc, 2)?;
    let (first, second) = units.cut(alloc, at)?;
    let filling = two_nodes(nodes, Node::Text(first), Node::Text(second));
    node_task(alloc, path, 1, filling)
}

// Two nodes in a vector with room for them, to come in place of others.
fn two_nodes(mut nodes: Vec<Node>, first: Node, second: Node) -> Filling
    requires empty { nodes.items ≡ [] }
    requires room { 2 ≤ vec_capacity nodes }
    ensures { plain_filling result ≡ others (plain first ∷ plain second ∷ []) }
{
    nodes.push_reserved(first);
    nodes.push_reserved(second);
    Filling::Others(nodes)
}

/// The preparation of a join.
pub(crate) fn prepare_join(alloc: Global, doc: &Doc, path: &Path) -> Result<Preparation, NoMemory>
    requires text { lacks_text path.now (plain_doc doc.now).root ≡ false }
    requires next { lacks_text (next_of path.now) (plain_doc doc.now).root ≡ false }
    ensures { IfOk result (IsPreparation (plain_doc doc.now).root (edit.Join path.now)) }
{
    let Some(units) = text_at(doc, path) else {
        unreachable!()
    };
    let path_back = path_of(alloc, path)?;
    let task = join_task(alloc, doc, path)?;
    let inverse = Inverse::Divide {
        path: path_back,
        at: units.len() as u64,
    };
    Ok(Preparation { task, inverse })
}

/// A text joined with the text after it.
pub(crate) fn join_task(alloc: Global, doc: &Doc, path: &Path) -> Result<Task, NoMemory>
    requires text { lacks_text path.now (plain_doc doc.now).root ≡ false }
    requires next { lacks_text (next_of path.now) (plain_doc doc.now).root ≡ false }
    ensures { IfOk result (λ task. plain_task task ≡
        fill_two path.now (others (one_text (units_at path.now (plain_doc doc.now).root
        ++ units_at (next_of path.now) (plain_doc doc.now).root)))) }
{
    let parent = parent_of(alloc, path)?;
    let Some(units) = text_at(doc, path) else {
        unreachable!()
    };
    let Some(next) = next_text(doc, &parent, path) else {
        unreachable!()
    };
    let filling = one_node(alloc, Node::Text(units.joined(alloc, next)?))?;
    node_task(alloc, path, 2, filling)
}

/// The preparation of other bytes for a text.
pub(crate) fn prepare_set_text(
    alloc: Global,
    doc: &Doc,
    path: &Path,
    text: &[u8],
) -> Result<Preparation, NoMemory>
    requires text { lacks_text path.now (plain_doc doc.now).root ≡ false }
    requires given { is_new_text text.now ≡ true }
    ensures { IfOk result (IsPreparation (plain_doc doc.now).root
        (edit.SetText path.now text.now)) }
{
    let path_back = path_of(alloc, path)?;
    let text_back = old_text(alloc, doc, path)?;
    let filling = new_text(alloc, text)?;
    let task = node_task(alloc, path, 1, filling)?;
    let inverse = Inverse::Text {
        path: path_back,
        text: text_back,
    };
    Ok(Preparation { task, inverse })
}

// The text at a path.
fn old_text(alloc: Global, doc: &Doc, path: &Path) -> Result<Units, NoMemory>
    requires { lacks_text path.now (plain_doc doc.now).root ≡ false }
    ensures { IfOk result (λ units. units ≡ units_at path.now (plain_doc doc.now).root) }
{
    let Some(units) = text_at(doc, path) else {
        unreachable!()
    };
    units.copy(alloc)
}

// A new text, to come in place of others.
fn new_text(alloc: Global, text: &[u8]) -> Result<Filling, NoMemory>
    requires { is_new_text text.now ≡ true }
    ensures { IfOk result (λ filling. plain_filling filling
        ≡ others (one_text (new_units text.now))) }
{
    let Some(units) = new_units(alloc, text)? else {
        unreachable!()
    };
    one_node(alloc, Node::Text(units))
}

/// The preparation of a new text.
pub(crate) fn prepare_add_text(
    alloc: Global,
    doc: &Doc,
    path: &Path,
    at: u32,
    text: &[u8],
) -> Result<Preparation, NoMemory>
    requires { is_new_text text.now ≡ true }
    ensures { IfOk result (IsPreparation (plain_doc doc.now).root
        (edit.AddText path.now at text.now)) }
{
    let kid = kid_path(alloc, path, at)?;
    let list = path_of(alloc, path)?;
    let filling = new_text(alloc, text)?;
    let task = list_task(list, at, at, filling);
    let inverse = Inverse::Discard {
        path: kid,
        short: ends_short(doc, path),
    };
    Ok(Preparation { task, inverse })
}

/// The preparation of a text removed.
pub(crate) fn prepare_del_text(
    alloc: Global,
    doc: &Doc,
    path: &Path,
) -> Result<Preparation, NoMemory>
    requires { lacks_text path.now (plain_doc doc.now).root ≡ false }
    ensures { IfOk result (IsPreparation (plain_doc doc.now).root (edit.DelText path.now)) }
{
    let path_back = path_of(alloc, path)?;
    let text_back = old_text(alloc, doc, path)?;
    let filling = Filling::Others(Vec::new(alloc));
    let task = node_task(alloc, path, 1, filling)?;
    let inverse = Inverse::Restore {
        path: path_back,
        text: text_back,
    };
    Ok(Preparation { task, inverse })
}
