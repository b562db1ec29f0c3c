//! Edits made one after the other and all taken back, and the steps of an edit one by one.

ghost use Rattle.std.specs.Prelude.{◌≡◌, OnOk};
ghost use Rattle.pv_tree.specs.Marks.{unmarked_doc};
ghost use Rattle.pv_tree.specs.PlainDocs.{plain_doc};

use crate::edit::edits::{HELLO, IN_ORDER, MAX_NODES, edit_of, expect};
use pv_edit::{Edit, Preparation, apply, make, prepare, prepare_back, revert};
use pv_tree::Doc;
use std::alloc::Global;
use std::test::Fail;
use test_fixture::documents::document_of;

// Makes the edits of these lines, each of which gives the text beside it, and takes them back from
// the last to the first.
fn there_and_all_back(
    alloc: Global,
    doc: &mut Doc,
    rows: &[(&'static str, &'static str)],
) -> Result<(), Fail>
    ensures { OnOk result (unmarked_doc (plain_doc doc.new) ≡ unmarked_doc (plain_doc doc.old)) }
{
    let [(line, after), rest @ ..] = rows else {
        return Ok(());
    };
    if doc.nodes() > MAX_NODES {
        return Err(Fail::new("too many nodes"));
    }
    let edit = edit_of(alloc, line)?;
    let Ok(inverse) = apply(alloc, doc, &edit) else {
        return Err(Fail::new("an edit isn't made"));
    };
    there_and_all_back(alloc, doc, rest)?;
    expect(alloc, doc, after)?;
    match revert(alloc, doc, &inverse) {
        Ok(()) => Ok(()),
        Err(_) => Err(Fail::new("an edit isn't taken back")),
    }
}

#[test]
fn back_to_the_first_document(rt: HostRuntime) -> Result<(), Fail> {
    let alloc = rt.alloc();
    let mut doc = document_of(alloc, HELLO, "doc")?;
    there_and_all_back(alloc, &mut doc, &IN_ORDER)?;
    expect(alloc, &doc, HELLO)
}

// Prepares an edit and makes its change; then the same of what undoes it.
fn step_by_step(alloc: Global, doc: &mut Doc, edit: &Edit, after: &str) -> Result<(), Fail> {
    if doc.nodes() > MAX_NODES {
        return Err(Fail::new("too many nodes"));
    }
    let Ok(Preparation { task, inverse }) = prepare(alloc, doc, edit) else {
        return Err(Fail::new("not prepared"));
    };
    make(alloc, doc, task)?;
    expect(alloc, doc, after)?;
    let back = prepare_back(alloc, doc, &inverse)?;
    make(alloc, doc, back)?;
    Ok(())
}

#[test]
fn steps_of_an_edit(rt: HostRuntime) -> Result<(), Fail> {
    let alloc = rt.alloc();
    let mut doc = document_of(alloc, HELLO, "doc")?;
    let edit = edit_of(alloc, "wrap 0 0 1 p")?;
    step_by_step(alloc, &mut doc, &edit, "<doc><p>Hello</p></doc>")?;
    expect(alloc, &doc, HELLO)
}
