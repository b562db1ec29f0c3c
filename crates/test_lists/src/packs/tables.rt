//! Tables of packs, tested against documents.

use pv_cert::read_pack;
use pv_dtd::{Dtd, read_dtd};
use pv_read::read_doc;
use pv_table_check::{first_wide_table, tables_add_up, tables_closed};
use pv_tables::Tables;
use pv_tree::Doc;
use std::alloc::{AllocError, Global};
use std::test::Fail;

const PAIR: &[u8] = b"<!ELEMENT a (b)> <!ELEMENT b EMPTY>";

// The table of the root of `<a/>`.
const TABLE: &str = "list 0
c 0 0 0 1
c 1 0 0 0
n 0 0 0 2
n 1 0 0 1
p 0 0 0 1
p 1 0 0 1
s 1 0 0 1
";

// The DTD, `<a/>`, and tables.
#[derive(Drop)]
struct Case {
    dtd: Dtd,
    doc: Doc,
    tables: Tables,
}

// The tables that these lines are in a pack.
fn tables_of(alloc: Global, lines: &str) -> Result<Tables, Fail> {
    let pack = format!(in alloc; "pvpack 1\ntotal 0\nbody 0\n\n{lines}end\n")?;
    Ok(read_pack(alloc, pack.as_bytes())?.tables)
}

fn case_of(alloc: Global, tables: &str) -> Result<Box<Case>, Fail> {
    let tables = tables_of(alloc, tables)?;
    let dtd = read_dtd(alloc, PAIR)?;
    let doc = read_doc(alloc, b"<a/>", b"a")?;
    Ok(Box::new(alloc, Case { dtd, doc, tables })?)
}

fn are_closed(alloc: Global, tables: &str) -> Result<bool, Fail> {
    let case = case_of(alloc, tables)?;
    Ok(tables_closed(alloc, &case.dtd, b"a", &case.doc, case.tables.as_slice())?)
}

// What is changed in the table of the root and what stands after it, and whether these are closed
// tables of lists of `<a/>`.
static CLOSED: [(&str, &str, &str, bool); 12] = [
    ("list 0", "list 0", "", true),
    // No table.
    (TABLE, "", "", true),
    // Without the entry of a site to which a rule leads, of the one that stands for nothing, and of
    // the one whose value is asked for.
    ("n 1 0 0 1\n", "", "", false),
    ("c 1 0 0 0\n", "", "", false),
    ("c 0 0 0 1\n", "", "", false),
    // A value that is too great, a site that isn't there, and a span past the word.
    ("n 1 0 0 1", "n 1 0 0 2", "", false),
    ("s 1 0 0 1", "s 0 0 0 1", "", false),
    ("s 1 0 0 1", "s 1 0 0 1\ns 1 0 1 1", "", false),
    // No list, one list twice, and the document node's after the root's.
    ("list 0", "list 7", "", false),
    ("list 0", "list 0.0", "", false),
    ("list 0", "list 0", TABLE, false),
    ("list 0", "list 0", "list .\n", false),
];

fn changed(alloc: Global, old: &str, new: &str, behind: &str) -> Result<String, AllocError> {
    let mut tables = TABLE.replace(alloc, old, new)?;
    tables.push_str(behind)?;
    Ok(tables)
}

fn is_closed(alloc: Global, old: &str, new: &str, behind: &str) -> Result<bool, Fail> {
    let tables = changed(alloc, old, new, behind)?;
    are_closed(alloc, tables.as_str())
}

#[test]
fn closed(rt: HostRuntime) -> Result<(), Fail> {
    for (old, new, behind, wanted) in &CLOSED {
        let found = is_closed(rt.alloc(), *old, *new, *behind)?;
        assert_eq!(rt;
            found,
            *wanted,
            "{new} in place of {old}, behind it {behind}"
        );
    }
    Ok(())
}

fn adds_up(alloc: Global, total: u64) -> Result<bool, Fail> {
    let case = case_of(alloc, TABLE)?;
    Ok(tables_add_up(
        alloc,
        &case.dtd,
        b"a",
        &case.doc,
        case.tables.as_slice(),
        total,
    )?)
}

// The value of the table for the whole list is what it adds.
#[test]
fn added_up(rt: HostRuntime) -> Result<(), Fail> {
    assert!(rt; !adds_up(rt.alloc(), 0)?, "0");
    assert!(rt; adds_up(rt.alloc(), 1)?, "1");
    assert!(rt; !adds_up(rt.alloc(), 2)?, "2");
    Ok(())
}

fn are_narrow(alloc: Global) -> Result<bool, Fail> {
    let case = case_of(alloc, TABLE)?;
    Ok(first_wide_table(alloc, &case.dtd, &case.doc, case.tables.as_slice())?.is_none())
}

// No table of a small list is of one that is too wide.
#[test]
fn narrow(rt: HostRuntime) -> Result<(), Fail> {
    assert!(rt; are_narrow(rt.alloc())?);
    Ok(())
}
