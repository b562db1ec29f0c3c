//! Whether an edit can be made.

ghost use Rattle.std.specs.Prelude.{◌≡◌, ◌≤◌, ◌==◌, ◌&&◌, not, true, false, MatchResult, length};
ghost use Rattle.pv_tree.specs.Plain.{depth_of, depth_of_all};
ghost use Rattle.pv_tree.specs.Legal.{MAX_DEPTH};
ghost use Rattle.pv_tree.specs.PlainDocs.{plain_doc};
ghost use Rattle.pv_tree.specs.PlainForms.{plain, plain_all, forest};
ghost use Rattle.pv_tree.specs.Marks.{blank_mark};
ghost use Rattle.pv_edit.specs.Effects.{change_of};
ghost use Rattle.pv_edit.specs.Reasons.{goes_too_deep, is_one_element, is_root};
ghost use Rattle.pv_edit.specs.Reasons.{is_top};
ghost use Rattle.pv_edit.specs.Reasons.{kids_at, lacks_list, reason_of};
ghost use Rattle.pv_edit.specs.Refusals.{IsRefusal};
ghost use Rattle.pv_edit.specs.declared.edits.Edit.TheVariants as edit;
ghost use Rattle.pv_edit.specs.declared.reasons.EditError.TheVariants.{Shape};

use crate::edits::Edit;
use crate::given::{is_new_name, new_units};
use crate::places::{
    kids_at, lacks_element, lacks_list, lacks_node, next_text, parent_of, text_at,
};
use crate::reasons::{EditError, Reason};
use crate::runs::{
    add_text_makes_close_mark, del_text_makes_close_mark, set_text_makes_close_mark,
    unwrap_makes_close_mark,
};
use pv_tree::{Doc, Node, Path};
use std::alloc::Global;

/// The first reason to refuse an edit.
pub(crate) fn first_reason(alloc: Global, doc: &Doc, edit: &Edit) -> Result<(), EditError>
    ensures { let reason = reason_of blank_mark (plain_doc doc.now).root edit.now in
        MatchResult result (λ _. reason ≡ None) (IsRefusal reason) }
{
    match edit {
        Edit::Wrap {
            path,
            from,
            to,
            name,
        } => wrap_shape(doc, path, *from, *to, name.as_slice()),
        Edit::Insert { path, at, name } => insert_shape(doc, path, *at, name.as_slice()),
        Edit::Unwrap { path } => unwrap_shape(alloc, doc, path),
        Edit::Rename { path, name } => rename_shape(doc, path, name.as_slice()),
        Edit::Split { path, at } => split_shape(doc, path, *at),
        Edit::Join { path } => join_shape(alloc, doc, path),
        Edit::SetText { path, text } => set_text_shape(alloc, doc, path, text.as_slice()),
        Edit::AddText { path, at, text } => {
            add_text_shape(alloc, doc, path, *at, text.as_slice())
        }
        Edit::DelText { path } => del_text_shape(alloc, doc, path),
    }
}

// Refuses an edit where a test holds.
fn unless(test: bool, reason: Reason) -> Result<(), EditError>
    ensures { MatchResult result (λ _. test ≡ false) (λ e. (test ≡ true) × (e ≡ Shape reason)) }
{
    if test {
        return Err(EditError::Shape(reason));
    }
    Ok(())
}

/// Whether kids can be put into a new element.
pub(crate) fn wrap_shape(
    doc: &Doc,
    path: &Path,
    from: u32,
    to: u32,
    name: &[u8],
) -> Result<(), EditError>
    ensures { let reason = reason_of blank_mark (plain_doc doc.now).root
        (edit.Wrap path.now from to name.now) in
        MatchResult result (λ _. reason ≡ None) (IsRefusal reason) }
{
    unless(lacks_node(doc, path), Reason::NoNode)?;
    unless(lacks_list(doc, path), Reason::NotElement)?;
    unless(
        to < from || kids_at(doc, path).len() < to as usize,
        Reason::Range,
    )?;
    unless(!is_new_name(name), Reason::BadName)?;
    unless(
        is_top(path.places()) && !(from == 0 && to == 1),
        Reason::RootShape,
    )?;
    unless(wraps_too_deep(doc, path, from, to, name), Reason::Deep)
}

/// Whether a new element can be put into a list.
pub(crate) fn insert_shape(doc: &Doc, path: &Path, at: u32, name: &[u8]) -> Result<(), EditError>
    ensures { let reason = reason_of blank_mark (plain_doc doc.now).root
        (edit.Insert path.now at name.now) in
        MatchResult result (λ _. reason ≡ None) (IsRefusal reason) }
{
    unless(lacks_node(doc, path), Reason::NoNode)?;
    unless(lacks_list(doc, path), Reason::NotElement)?;
    unless(kids_at(doc, path).len() < at as usize, Reason::Range)?;
    unless(!is_new_name(name), Reason::BadName)?;
    unless(is_top(path.places()), Reason::RootShape)?;
    unless(inserts_too_deep(doc, path, at, name), Reason::Deep)
}

/// Whether an element can have another name.
pub(crate) fn rename_shape(doc: &Doc, path: &Path, name: &[u8]) -> Result<(), EditError>
    ensures { let reason = reason_of blank_mark (plain_doc doc.now).root
        (edit.Rename path.now name.now) in
        MatchResult result (λ _. reason ≡ None) (IsRefusal reason) }
{
    unless(lacks_node(doc, path), Reason::NoNode)?;
    unless(lacks_element(doc, path), Reason::NotElement)?;
    unless(!is_new_name(name), Reason::BadName)
}

// Whether a path is that of the document node.
fn is_top(path: &[u32]) -> bool
    ensures { result ≡ is_top path.now }
{
    path.is_empty()
}

// Whether a path is that of the root.
fn is_root(path: &[u32]) -> bool
    ensures { result ≡ is_root path.now }
{
    path.len() == 1
}

// Whether the nodes are one element alone.
fn is_one_element(nodes: &[Node]) -> bool
    ensures { result ≡ is_one_element (plain_all nodes.now) }
{
    matches!(nodes, [Node::Elem { .. }])
}

// Whether a new element around kids would stand too deep, or they in it. Only a look at all that
// they hold tells how deep they are.
fn wraps_too_deep(doc: &Doc, path: &Path, from: u32, to: u32, name: &[u8]) -> bool
    requires list { lacks_list path.now (plain_doc doc.now).root ≡ false }
    requires order { from ≤ to }
    requires within { to ≤ length (kids_at path.now (plain_doc doc.now).root) }
    requires top { (is_top path.now && not ((from == 0) && (to == 1))) ≡ false }
    ensures { result ≡
        goes_too_deep (change_of blank_mark (plain_doc doc.now).root
        (edit.Wrap path.now from to name.now)) (plain_doc doc.now).root }
{
    let inside = depth_of_all(&kids_at(doc, path)[from as usize..to as usize]);
    path.places().len() + 1 + inside as usize > 512
}

// Whether a new element in a list would stand too deep.
fn inserts_too_deep(doc: &Doc, path: &Path, at: u32, name: &[u8]) -> bool
    requires list { lacks_list path.now (plain_doc doc.now).root ≡ false }
    requires within { at ≤ length (kids_at path.now (plain_doc doc.now).root) }
    requires top { is_top path.now ≡ false }
    ensures { result ≡
        goes_too_deep (change_of blank_mark (plain_doc doc.now).root
        (edit.Insert path.now at name.now)) (plain_doc doc.now).root }
{
    path.places().len() + 1 > 512
}

// How many elements stand one inside another among some nodes.
#[cycle(depth)]
fn depth_of_all(nodes: &[Node]) -> u32
    requires { depth_of_all (forest nodes.now) ≤ MAX_DEPTH }
    ensures { result ≡ depth_of_all (forest nodes.now) }
{
    let mut deepest = 0;
    for node in nodes {
        deepest = deepest.max(depth_of(node));
    }
    deepest
}

#[cycle(depth)]
fn depth_of(node: &Node) -> u32
    requires { depth_of (plain node.now) ≤ MAX_DEPTH }
    ensures { result ≡ depth_of (plain node.now) }
{
    match node {
        Node::Elem { kids, .. } => depth_of_all(kids) + 1,
        Node::Text(_) => 0,
        Node::Cdata(_) => 0,
        Node::Misc(_) => 0,
    }
}

/// Whether an element can give way to its kids.
pub(crate) fn unwrap_shape(alloc: Global, doc: &Doc, path: &Path) -> Result<(), EditError>
    ensures { let reason = reason_of blank_mark (plain_doc doc.now).root (edit.Unwrap path.now) in
        MatchResult result (λ _. reason ≡ None) (IsRefusal reason) }
{
    unless(lacks_node(doc, path), Reason::NoNode)?;
    unless(lacks_element(doc, path), Reason::NotElement)?;
    unless(
        is_root(path.places()) && !is_one_element(kids_at(doc, path)),
        Reason::RootShape,
    )?;
    let parent = parent_of(alloc, path)?;
    unless(
        unwrap_makes_close_mark(doc, &parent, path),
        Reason::CloseMark,
    )
}

/// Whether a text can be cut.
pub(crate) fn split_shape(doc: &Doc, path: &Path, at: u32) -> Result<(), EditError>
    ensures { let reason = reason_of blank_mark (plain_doc doc.now).root (edit.Split path.now at) in
        MatchResult result (λ _. reason ≡ None) (IsRefusal reason) }
{
    unless(lacks_node(doc, path), Reason::NoNode)?;
    let Some(units) = text_at(doc, path) else {
        return Err(EditError::Shape(Reason::NotText));
    };
    unless(at == 0 || units.len() <= at as usize, Reason::Range)
}

/// Whether a text can be joined with what stands after it.
pub(crate) fn join_shape(alloc: Global, doc: &Doc, path: &Path) -> Result<(), EditError>
    ensures { let reason = reason_of blank_mark (plain_doc doc.now).root (edit.Join path.now) in
        MatchResult result (λ _. reason ≡ None) (IsRefusal reason) }
{
    unless(lacks_node(doc, path), Reason::NoNode)?;
    unless(text_at(doc, path).is_none(), Reason::NotText)?;
    let parent = parent_of(alloc, path)?;
    unless(next_text(doc, &parent, path).is_none(), Reason::NotText)
}

/// Whether a text can have other bytes.
pub(crate) fn set_text_shape(
    alloc: Global,
    doc: &Doc,
    path: &Path,
    text: &[u8],
) -> Result<(), EditError>
    ensures { let reason = reason_of blank_mark (plain_doc doc.now).root
        (edit.SetText path.now text.now) in
        MatchResult result (λ _. reason ≡ None) (IsRefusal reason) }
{
    unless(lacks_node(doc, path), Reason::NoNode)?;
    unless(text_at(doc, path).is_none(), Reason::NotText)?;
    let Some(units) = new_units(alloc, text)? else {
        return Err(EditError::Shape(Reason::BadText));
    };
    let parent = parent_of(alloc, path)?;
    unless(
        set_text_makes_close_mark(doc, &parent, path, &units),
        Reason::CloseMark,
    )
}

/// Whether a new text can be put into a list.
pub(crate) fn add_text_shape(
    alloc: Global,
    doc: &Doc,
    path: &Path,
    at: u32,
    text: &[u8],
) -> Result<(), EditError>
    ensures { let reason = reason_of blank_mark (plain_doc doc.now).root
        (edit.AddText path.now at text.now) in
        MatchResult result (λ _. reason ≡ None) (IsRefusal reason) }
{
    unless(lacks_node(doc, path), Reason::NoNode)?;
    unless(lacks_list(doc, path), Reason::NotElement)?;
    unless(kids_at(doc, path).len() < at as usize, Reason::Range)?;
    let Some(units) = new_units(alloc, text)? else {
        return Err(EditError::Shape(Reason::BadText));
    };
    unless(is_top(path.places()), Reason::RootShape)?;
    unless(
        add_text_makes_close_mark(doc, path, at, &units),
        Reason::CloseMark,
    )
}

/// Whether a text can be removed.
pub(crate) fn del_text_shape(alloc: Global, doc: &Doc, path: &Path) -> Result<(), EditError>
    ensures { let reason = reason_of blank_mark (plain_doc doc.now).root (edit.DelText path.now) in
        MatchResult result (λ _. reason ≡ None) (IsRefusal reason) }
{
    unless(lacks_node(doc, path), Reason::NoNode)?;
    unless(text_at(doc, path).is_none(), Reason::NotText)?;
    let parent = parent_of(alloc, path)?;
    unless(
        del_text_makes_close_mark(doc, &parent, path),
        Reason::CloseMark,
    )
}
