//! What is going to be done to a document: a change of the list at a path, and what undoes it.

ghost use Rattle.std.specs.Prelude.{◌≡◌, ◌≤◌, ◌+◌, ◌∷◌, ◌++◌, [], IfOk};
ghost use Rattle.pv_tree.specs.Places.{spot_at};
ghost use Rattle.pv_tree.specs.PlainDocs.{plain_doc};
ghost use Rattle.pv_tree.specs.PlainForms.{plain, plain_end};
ghost use Rattle.pv_edit.specs.Changes.{others};
ghost use Rattle.pv_edit.specs.Effects.{fill, parent_of, kid_place};
ghost use Rattle.pv_edit.specs.FittingChanges.{plain_task, plain_filling};
ghost use Rattle.pv_edit.specs.Inverses.{ends_short, is_short};

use crate::filling::Filling;
use crate::inverses::Inverse;
use crate::places::parent_of;
use pv_chars::{NoMemory, bytes_of};
use pv_tree::{Doc, End, Found, Node, Path};
use std::alloc::Global;

/// A change of one list: others come in place of the kids from one place up to another.
///
/// By `insert 0 0 head` no kid gives way: `from` and `to` are 0, and the filling is a new `head`.
///
/// ```rust
/// let doc = read_doc(alloc, b"<doc>Hello</doc>", b"doc")?;
/// let path = Path::new(alloc, &[0])?;
/// let edit = Edit::Insert { path, at: 0, name: bytes_of(alloc, b"head")? };
/// let ready = prepare(alloc, &doc, &edit)?;
/// assert!(rt; ready.task.change.from == 0 && ready.task.change.to == 0);
/// ```
#[derive(Debug, Drop)]
pub struct Change {
    pub from: usize,
    pub to: usize,
    pub filling: Filling,
    /// Whether the owner of the list ends by `/>` afterwards.
    pub shorten: bool,
}

/// A change of the list at a path.
///
/// By `rename 0.2 p` the list is that of the root, at `[0]`, and the change is of its third kid.
///
/// ```rust
/// let doc = read_doc(alloc, b"<doc><a/><b/><c/></doc>", b"doc")?;
/// let path = Path::new(alloc, &[0, 2])?;
/// let edit = Edit::Rename { path, name: bytes_of(alloc, b"p")? };
/// let ready = prepare(alloc, &doc, &edit)?;
/// assert!(rt; ready.task.list.places() == [0].as_slice() && ready.task.change.from == 2);
/// ```
#[derive(Debug, Drop)]
pub struct Task {
    pub list: Path,
    pub change: Change,
}

/// What an edit does, and what undoes it.
///
/// That of `wrap 0 0 1 p` puts a `p` around the first kid, and its inverse takes out the node at
/// `[0, 0]`.
///
/// ```rust
/// let doc = read_doc(alloc, b"<doc>Hello</doc>", b"doc")?;
/// let path = Path::new(alloc, &[0])?;
/// let edit = Edit::Wrap { path, from: 0, to: 1, name: bytes_of(alloc, b"p")? };
/// let ready = prepare(alloc, &doc, &edit)?;
/// assert!(rt; matches!(&ready.inverse, Inverse::TakeOut { path, .. }
///     if path.places() == [0, 0].as_slice()));
/// ```
#[derive(Debug, Drop)]
pub struct Preparation {
    pub task: Task,
    pub inverse: Inverse,
}

/// The change of the kids from one place up to another in the list at a path.
pub(crate) fn list_task(list: Path, from: u32, to: u32, filling: Filling) -> Task
    ensures { plain_task result ≡ fill list from to (plain_filling filling) }
{
    let change = Change {
        from: from as usize,
        to: to as usize,
        filling,
        shorten: false,
    };
    Task { list, change }
}

/// The change of so many kids from the node at a path on.
pub(crate) fn node_task(
    alloc: Global,
    path: &Path,
    count: usize,
    filling: Filling,
) -> Result<Task, NoMemory>
    requires { count ≤ 2 }
    ensures { IfOk result (λ task. plain_task task ≡
        fill (parent_of path.now) (kid_place path.now) (kid_place path.now + count)
        (plain_filling filling)) }
{
    let from = last_place(path.places()) as usize;
    let change = Change {
        from,
        to: from + count,
        filling,
        shorten: false,
    };
    Ok(Task {
        list: parent_of(alloc, path)?,
        change,
    })
}

/// Which kid of its list the node at a path is.
pub(crate) fn last_place(path: &[u32]) -> u32
    ensures { result ≡ kid_place path.now }
{
    match path {
        [.., place] => *place,
        [] => 0,
    }
}

/// The path of the kid of this number, counted from 0, in the list at a path.
///
/// ```rust
/// let path = kid_path(alloc, &Path::new(alloc, &[0])?, 2)?;
/// assert!(rt; path.places() == [0, 2].as_slice());
/// ```
pub fn kid_path(alloc: Global, path: &Path, place: u32) -> Result<Path, NoMemory>
    ensures { IfOk result (λ p. p ≡ path.now ++ place ∷ []) }
{
    let mut places = path.places().to_vec(alloc)?;
    places.push(place)?;
    Path::new(alloc, &places)
}

/// Whether an element that ends by `/>` stands at a path.
pub(crate) fn ends_short(doc: &Doc, path: &Path) -> bool
    ensures { result ≡ ends_short (spot_at path.now (plain_doc doc.now).root) }
{
    match doc.node_at(path) {
        Some(Found::Inner(Node::Elem { end, .. })) => is_short(end),
        _ => false,
    }
}

fn is_short(end: &End) -> bool
    ensures { result ≡ is_short (plain_end end.now) }
{
    matches!(end, End::Short)
}

/// One node, to come in place of others.
pub(crate) fn one_node(alloc: Global, node: Node) -> Result<Filling, NoMemory>
    ensures { IfOk result (λ filling. plain_filling filling ≡ others (plain node ∷ [])) }
{
    let mut nodes = Vec::with_capacity(alloc, 1)?;
    nodes.push_reserved(node);
    Ok(Filling::Others(nodes))
}

/// An equal end.
pub(crate) fn equal_end(alloc: Global, end: &End) -> Result<End, NoMemory>
    ensures { IfOk result (λ e. e ≡ end.now) }
{
    match end {
        End::Short => Ok(End::Short),
        End::Tagged(gap) => Ok(End::Tagged(bytes_of(alloc, gap.as_slice())?)),
    }
}
