//! Calls of this library that the program doesn't make. They stand for other callers.

ghost use Rattle.std.specs.Prelude.{◌≡◌, ◌<◌, IfErr, IfOk, MatchResult, OnErr, OnOk};
ghost use Rattle.pv_tree.specs.Plain.{nodes_in};
ghost use Rattle.pv_tree.specs.Legal.{MAX_NODES};
ghost use Rattle.pv_tree.specs.PlainDocs.{plain_doc};
ghost use Rattle.pv_tree.specs.Marks.{blank_mark, unmarked_doc};
ghost use Rattle.pv_edit.specs.Inverses.{LeadsBack, inverse_of};
ghost use Rattle.pv_edit.specs.Reasons.{edit_outcome, gives};
ghost use Rattle.pv_edit.specs.Refusals.{IsGiven, IsRefused};

use crate::changes::{make, prepare};
use crate::edits::Edit;
use crate::inverses::Inverse;
use crate::reasons::EditError;
use crate::shapes::first_reason;
use crate::tasks::Preparation;
use pv_tree::Doc;
use std::alloc::Global;

/// Whether an edit can be made on a document: `Ok` exactly where it gives one, and else its first
/// reason.
///
/// ```rust
/// let doc = read_doc(alloc, b"<doc>Hello</doc>", b"doc")?;
/// let edit = Edit::Join { path: Path::new(alloc, &[0, 0])? };
/// let reason = shape(alloc, &doc, &edit);
/// assert!(rt; matches!(reason, Err(EditError::Shape(Reason::NotText))));
/// ```
pub fn shape(alloc: Global, doc: &Doc, edit: &Edit) -> Result<(), EditError>
    ensures { MatchResult result (λ _. IsGiven
        (edit_outcome blank_mark (plain_doc doc.now) edit.now))
        (IsRefused (edit_outcome blank_mark (plain_doc doc.now) edit.now)) }
{
    first_reason(alloc, doc, edit)
}

/// Makes an edit on a document, and gives what undoes it. After an error the document is as it was.
///
/// New elements have blank marks, and all other marks stay.
///
/// ```rust
/// // test_layers: edits_alone
/// let mut doc = read_doc(alloc, b"<doc>Hello</doc>", b"doc")?;
/// let path = Path::new(alloc, &[0])?;
/// let edit = Edit::Insert { path, at: 0, name: bytes_of(alloc, b"head")? };
/// let inverse = apply(alloc, &mut doc, &edit)?; // `<doc><head/>Hello</doc>`
/// assert!(rt; doc.nodes() == 3);
/// revert(alloc, &mut doc, &inverse)?;
/// assert!(rt; doc.nodes() == 2);
/// ```
pub fn apply(alloc: Global, doc: &mut Doc, edit: &Edit) -> Result<Inverse, EditError>
    requires { nodes_in (plain_doc doc.old).root < MAX_NODES }
    ensures made { OnOk result (edit_outcome blank_mark (plain_doc doc.old) edit.now
        ≡ gives (plain_doc doc.new)) }
    ensures inverse { IfOk result (λ inverse. inverse
        ≡ inverse_of (plain_doc doc.old).root edit.now) }
    ensures leads_back { IfOk result (λ inverse. LeadsBack inverse (plain_doc doc.new)
        (unmarked_doc (plain_doc doc.old))) }
    ensures refused { IfErr result (IsRefused
        (edit_outcome blank_mark (plain_doc doc.old) edit.now)) }
    ensures unchanged { OnErr result (plain_doc doc.new ≡ plain_doc doc.old) }
{
    let Preparation { task, inverse } = prepare(alloc, doc, edit)?;
    make(alloc, doc, task)?;
    Ok(inverse)
}
