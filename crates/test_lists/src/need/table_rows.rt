//! Tables of weights of documents.

use crate::calls::grammar_of;
use pv_complete::{NeedError, tables};
use pv_model::NameId;
use pv_rules::Site;
use pv_span::{Entry, Table, Tables};
use std::alloc::Global;
use std::test::Fail;
use test_fixture::documents::document_of;

// An element that needs another one.
const PAIR: &str = "<!ELEMENT a (b)><!ELEMENT b EMPTY>";

// The sites of the entries of an empty element `a`, and their values.
static ENTRIES: [(Site, u32); 7] = [
    (Site::Content(NameId(0)), 1),
    (Site::Content(NameId(1)), 0),
    (Site::Name(NameId(0)), 2),
    (Site::Name(NameId(1)), 1),
    (Site::Part(0), 1),
    (Site::Part(1), 1),
    (Site::Rest(1), 1),
];

fn are_entries(entries: &[Entry]) -> bool {
    if entries.len() != ENTRIES.len() {
        return false;
    }
    for (entry, (site, value)) in entries.iter().zip(&ENTRIES) {
        let (site, value) = (*site, *value);
        if *entry
            != (Entry {
                site,
                from: 0,
                to: 0,
                value,
            })
        {
            return false;
        }
    }
    true
}

// Whether this is the table of an empty element `a`, the root.
fn is_of_root(table: &Table) -> bool {
    table.path.places() == [0].as_slice() && are_entries(table.entries.as_slice())
}

fn tables_of(alloc: Global, text: &str) -> Result<Tables, Fail> {
    let grammar = grammar_of(alloc, PAIR)?;
    let doc = document_of(alloc, text, "a")?;
    Ok(tables(alloc, &grammar, b"a", &doc)?)
}

fn has_table_of_root(alloc: Global, text: &str) -> Result<bool, Fail> {
    match tables_of(alloc, text)?.as_slice() {
        [table] => Ok(is_of_root(table)),
        _ => Ok(false),
    }
}

fn has_no_table(alloc: Global, text: &str) -> Result<bool, Fail> {
    Ok(tables_of(alloc, text)?.as_slice().is_empty())
}

// Whether there are no tables, since the root's list is impossible.
fn is_refused(alloc: Global, text: &str) -> Result<bool, Fail> {
    let grammar = grammar_of(alloc, PAIR)?;
    let doc = document_of(alloc, text, "a")?;
    match tables(alloc, &grammar, b"a", &doc) {
        Err(NeedError::Impossible(path)) => Ok(path.places() == [0].as_slice()),
        Err(_) => Ok(false),
        Ok(_) => Ok(false),
    }
}

#[test]
fn tables_of_pairs(rt: HostRuntime) -> Result<(), Fail> {
    let alloc = rt.alloc();
    assert!(rt; has_table_of_root(alloc, "<a/>")?, "possible");
    assert!(rt; has_no_table(alloc, "<a><b/></a>")?, "valid");
    assert!(rt; is_refused(alloc, "<a><b/><b/></a>")?, "impossible");
    Ok(())
}
