//! The first reason to refuse an edit, and none where it can be made.

use crate::edit::edits::{edit_of, make};
use pv_edit::{EditError, Reason, shape};
use pv_tree::Doc;
use std::alloc::Global;
use std::test::Fail;
use test_fixture::documents::document_of;

// An edit as a line, and the first reason to refuse it.
type Row = (&'static str, Option<Reason>);

/// The first reason to refuse the edit.
pub fn refusal(alloc: Global, doc: &Doc, line: &str) -> Result<Option<Reason>, Fail> {
    let edit = edit_of(alloc, line)?;
    let copy = edit.copy(alloc)?;
    match shape(alloc, doc, &copy) {
        Ok(()) => Ok(None),
        Err(EditError::Shape(reason)) => Ok(Some(reason)),
        Err(EditError::NoMemory) => Err(Fail::new("no memory")),
    }
}

fn check(alloc: Global, doc: &Doc, rows: &[Row]) -> Result<(), Fail> {
    for (line, reason) in rows {
        if refusal(alloc, doc, *line)? != *reason {
            return Err(Fail::new(format_args!("{line}: another reason")));
        }
    }
    Ok(())
}

static ELEMENTS: [Row; 34] = [
    ("wrap 0 1 2 p", None),
    ("wrap 0 2 2 p", None),
    ("wrap 0.9 0 0 p", Some(Reason::NoNode)),
    ("wrap 0.9 2 1 ", Some(Reason::NoNode)),
    ("wrap 0.1.0.1 2 1 ", Some(Reason::NotElement)),
    ("wrap 0 2 5 ", Some(Reason::Range)),
    ("wrap 0 2 1 p", Some(Reason::Range)),
    ("wrap . 0 0 1x", Some(Reason::BadName)),
    ("wrap . 0 0 p", Some(Reason::RootShape)),
    ("insert 0 0 名", None),
    ("insert 9 3 ", Some(Reason::NoNode)),
    ("insert 0.1.0.1 3 ", Some(Reason::NotElement)),
    ("insert 0 3 p", Some(Reason::Range)),
    ("insert . 2 ", Some(Reason::Range)),
    ("insert . 0 ", Some(Reason::BadName)),
    ("insert . 0 doc", Some(Reason::RootShape)),
    ("unwrap 0.1.0", None),
    ("unwrap 9", Some(Reason::NoNode)),
    ("unwrap .", Some(Reason::NotElement)),
    ("unwrap 0.1.0.0.0", Some(Reason::NotElement)),
    ("unwrap 0", Some(Reason::RootShape)),
    ("unwrap 0.1.0.0", Some(Reason::CloseMark)),
    ("rename 0.1 λόγος", None),
    ("rename 1 p", Some(Reason::NoNode)),
    ("rename 1 ", Some(Reason::NoNode)),
    ("rename . ", Some(Reason::NotElement)),
    ("rename 0.1.0.0.0 ", Some(Reason::NotElement)),
    ("rename 0.1 1x", Some(Reason::BadName)),
    ("split 0.1.0.0.0 1", None),
    ("split 0.2 0", Some(Reason::NoNode)),
    ("split 0.1 0", Some(Reason::NotText)),
    ("split . 0", Some(Reason::NotText)),
    ("split 0.1.0.0.0 0", Some(Reason::Range)),
    ("split 0.1.0.0.0 2", Some(Reason::Range)),
];

#[test]
fn reasons_at_elements(rt: HostRuntime) -> Result<(), Fail> {
    let alloc = rt.alloc();
    let text = "<doc><head/><sec><p><em>]]</em>></p></sec></doc>";
    check(alloc, &document_of(alloc, text, "doc")?, &ELEMENTS)
}

static TEXTS: [Row; 35] = [
    ("join 0.0", None),
    ("join 0.4", Some(Reason::NoNode)),
    ("join 0.3", Some(Reason::NotText)),
    ("join 0.2", Some(Reason::NotText)),
    ("join .", Some(Reason::NotText)),
    ("text 0.1 &#10;", None),
    ("text 0.1 &gt;", None),
    ("text 0.4 a", Some(Reason::NoNode)),
    ("text 0.4 ", Some(Reason::NoNode)),
    ("text . a", Some(Reason::NotText)),
    ("text 0.3 ", Some(Reason::NotText)),
    ("text 0.1 ", Some(Reason::BadText)),
    ("text 0.1 a\nb", Some(Reason::BadText)),
    ("text 0.1 a\rb", Some(Reason::BadText)),
    ("text 0.1 a&nbsp;", Some(Reason::BadText)),
    ("text 0.1 a<b", Some(Reason::BadText)),
    ("text 0.1 ]]>", Some(Reason::BadText)),
    ("text 0.1 >\n", Some(Reason::BadText)),
    ("text 0.1 ]", Some(Reason::CloseMark)),
    ("addtext 0 4 é", None),
    ("addtext 1 0 a", Some(Reason::NoNode)),
    ("addtext 1 9 ", Some(Reason::NoNode)),
    ("addtext 0.0 9 ", Some(Reason::NotElement)),
    ("addtext 0 5 a", Some(Reason::Range)),
    ("addtext 0 5 ", Some(Reason::Range)),
    ("addtext . 2 a", Some(Reason::Range)),
    ("addtext . 0 ", Some(Reason::BadText)),
    ("addtext 0 1 >\n", Some(Reason::BadText)),
    ("addtext . 0 a", Some(Reason::RootShape)),
    ("addtext 0 1 >", Some(Reason::CloseMark)),
    ("deltext 0.0", None),
    ("deltext 0.4", Some(Reason::NoNode)),
    ("deltext 0.3", Some(Reason::NotText)),
    ("deltext .", Some(Reason::NotText)),
    ("deltext 0.1", Some(Reason::CloseMark)),
];

fn make_line(alloc: Global, doc: &mut Doc, line: &str) -> Result<bool, Fail> {
    let edit = edit_of(alloc, line)?;
    Ok(make(alloc, doc, &edit))
}

#[test]
fn reasons_at_texts(rt: HostRuntime) -> Result<(), Fail> {
    let mut doc = document_of(rt.alloc(), "<doc>]]x><em/></doc>", "doc")?;
    for line in ["split 0.0 2", "split 0.1 1"] {
        assert!(rt; make_line(rt.alloc(), &mut doc, line)?, "{line}");
    }
    check(rt.alloc(), &doc, &TEXTS)
}

// A CDATA section, a comment and a processing instruction are no elements and no texts.
static OTHERS: [Row; 12] = [
    ("wrap 0.0 0 0 p", Some(Reason::NotElement)),
    ("insert 0.1 0 p", Some(Reason::NotElement)),
    ("unwrap 0.0", Some(Reason::NotElement)),
    ("unwrap 0.1", Some(Reason::NotElement)),
    ("rename 0.2 p", Some(Reason::NotElement)),
    ("split 0.0 1", Some(Reason::NotText)),
    ("join 0.0", Some(Reason::NotText)),
    ("join 0.3", Some(Reason::NotText)),
    ("text 0.1 a", Some(Reason::NotText)),
    ("addtext 0.2 0 a", Some(Reason::NotElement)),
    ("deltext 0.0", Some(Reason::NotText)),
    ("deltext 0.2", Some(Reason::NotText)),
];

#[test]
fn reasons_at_other_nodes(rt: HostRuntime) -> Result<(), Fail> {
    let text = "<doc><![CDATA[ab]]><!--c--><?d?>e<!--f--></doc>";
    let doc = document_of(rt.alloc(), text, "doc")?;
    check(rt.alloc(), &doc, &OTHERS)
}
