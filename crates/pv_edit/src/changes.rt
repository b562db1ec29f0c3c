//! Documents changed: edits made and taken back.

ghost use Rattle.std.specs.Prelude.{◌≡◌, ◌<◌, true, false, IfOk, IfErr, OnOk, OnErr};
ghost use Rattle.pv_tree.specs.Plain.{PlainDoc, nodes_in};
ghost use Rattle.pv_tree.specs.Legal.{MAX_NODES};
ghost use Rattle.pv_tree.specs.PlainDocs.{plain_doc};
ghost use Rattle.pv_tree.specs.Marks.{blank_mark, unmarked_doc};
ghost use Rattle.pv_tree.specs.declared.nodes.Mark.{Mark};
ghost use Rattle.pv_edit.specs.BroughtElements.{BringsBare};
ghost use Rattle.pv_edit.specs.Changes.{doc_after, root_after};
ghost use Rattle.pv_edit.specs.FittingChanges.{CanChange, plain_task, plain_filling};
ghost use Rattle.pv_edit.specs.Inverses.{IsKept, LeadsBack, doc_back};
ghost use Rattle.pv_edit.specs.Reasons.{edit_outcome, is_top, reason_of};
ghost use Rattle.pv_edit.specs.Preparations.{IsPreparation, IsTask};
ghost use Rattle.pv_edit.specs.Refusals.{IsRefused};

use crate::descent::change_root;
use crate::edits::Edit;
use crate::inverses::Inverse;
use crate::preparations::preparation_of;
use crate::reasons::EditError;
use crate::shapes::first_reason;
use crate::tasks::{Preparation, Task};
use crate::ways_back::task_back;
use pv_chars::NoMemory;
use pv_tree::Doc;
use std::alloc::Global;

/// What an edit is going to do, and what undoes it: all that can be made ready before the document
/// is touched.
///
/// The inverse leads back from each document that the change makes, whatever its marks are.
///
/// ```rust
/// // test_layers: steps_of_an_edit
/// let mut doc = read_doc(alloc, b"<doc>Hello</doc>", b"doc")?;
/// let path = Path::new(alloc, &[0])?;
/// let edit = Edit::Insert { path, at: 0, name: bytes_of(alloc, b"head")? };
/// let Preparation { task, inverse } = prepare(alloc, &doc, &edit)?;
/// make(alloc, &mut doc, task)?;
/// let back = prepare_back(alloc, &doc, &inverse)?;
/// make(alloc, &mut doc, back)?;
/// assert!(rt; doc.nodes() == 2);
/// ```
pub fn prepare(alloc: Global, doc: &Doc, edit: &Edit) -> Result<Preparation, EditError>
    ensures prepared { IfOk result (IsPreparation (plain_doc doc.now).root edit.now) }
    ensures given { IfOk result (λ _. reason_of blank_mark (plain_doc doc.now).root edit.now
        ≡ None) }
    ensures can { IfOk result (λ ready. CanChange ready.task.list (plain_task ready.task)
        (plain_doc doc.now).root) }
    ensures kept { nodes_in (plain_doc doc.now).root < MAX_NODES → IfOk result (λ ready.
        IsKept (root_after ready.task.list (plain_task ready.task) (plain_doc doc.now).root)) }
    ensures unshort { IfOk result (λ ready. is_top ready.task.list ≡ true →
        ready.task.change.shorten ≡ false) }
    ensures bare { IfOk result (λ ready. BringsBare (plain_filling ready.task.change.filling)) }
    ensures leads_back { IfOk result (λ ready. (made : PlainDoc Mark) →
        unmarked_doc made ≡ unmarked_doc (doc_after (plain_task ready.task) (plain_doc doc.now)) →
        LeadsBack ready.inverse made (unmarked_doc (plain_doc doc.now))) }
    ensures refused { IfErr result (IsRefused
        (edit_outcome blank_mark (plain_doc doc.now) edit.now)) }
{
    first_reason(alloc, doc, edit)?;
    Ok(preparation_of(alloc, doc, edit)?)
}

/// What an inverse is going to do: it makes the document that the inverse leads to, whatever the
/// marks are.
///
/// See `prepare`, whose example takes an edit back.
pub fn prepare_back(alloc: Global, doc: &Doc, inverse: &Inverse) -> Result<Task, NoMemory>
    requires { (before : PlainDoc Unit) × LeadsBack inverse.now (plain_doc doc.now) before }
    ensures task { IfOk result (IsTask (plain_doc doc.now).root inverse.now) }
    ensures can { IfOk result (λ task. CanChange task.list (plain_task task)
        (plain_doc doc.now).root) }
    ensures kept { IfOk result (λ task. IsKept
        (root_after task.list (plain_task task) (plain_doc doc.now).root)) }
    ensures unshort { IfOk result (λ task. is_top task.list ≡ true →
        task.change.shorten ≡ false) }
    ensures bare { IfOk result (λ task. BringsBare (plain_filling task.change.filling)) }
    ensures led { IfOk result (λ task. (before : PlainDoc Unit) (made : PlainDoc Mark) →
        LeadsBack inverse.now (plain_doc doc.now) before →
        unmarked_doc made ≡ unmarked_doc (doc_after (plain_task task) (plain_doc doc.now)) →
        unmarked_doc made ≡ before) }
{
    task_back(alloc, doc, inverse)
}

/// Takes an edit back: makes the document that an inverse leads to. After an error the document is
/// as it was.
///
/// A restored element has a blank mark, and all other marks stay.
///
/// See `apply`, whose example takes its edit back.
pub fn revert(alloc: Global, doc: &mut Doc, inverse: &Inverse) -> Result<(), NoMemory>
    requires { (before : PlainDoc Unit) × LeadsBack inverse.now (plain_doc doc.old) before }
    ensures made { OnOk result (plain_doc doc.new
        ≡ doc_back blank_mark (plain_doc doc.old) inverse.now) }
    ensures led { (before : PlainDoc Unit) → LeadsBack inverse.now (plain_doc doc.old) before →
        OnOk result (unmarked_doc (plain_doc doc.new) ≡ before) }
    ensures unchanged { OnErr result (plain_doc doc.new ≡ plain_doc doc.old) }
{
    let task = prepare_back(alloc, doc, inverse)?;
    make(alloc, doc, task)
}

/// Makes a change that has been made ready, or leaves the document as it is.
///
/// See `prepare`, whose example makes a change.
pub fn make(alloc: Global, doc: &mut Doc, task: Task) -> Result<(), NoMemory>
    requires can { CanChange task.list (plain_task task) (plain_doc doc.old).root }
    requires kept { IsKept (root_after task.list (plain_task task) (plain_doc doc.old).root) }
    ensures ok { OnOk result (plain_doc doc.new ≡ doc_after (plain_task task) (plain_doc doc.old)) }
    ensures err { OnErr result (plain_doc doc.new ≡ plain_doc doc.old) }
{
    let Task { list, change } = task;
    change_root(alloc, &mut doc.root, list.places(), change)
}
