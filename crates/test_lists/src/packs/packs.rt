//! Packs written and read.

use pv_cert::{Pack, PackError, read_pack, take_pack, write_pack};
use pv_model::NameId;
use pv_rules::Site;
use pv_tables::Table;
use std::alloc::Global;
use std::test::Fail;

// The pack of an element that needs another one.
const PAIR: &str = "pvpack 1
total 1
mark 1
body 14
<a><b></b></a>
list 0
c 0 0 0 1
c 1 0 0 0
n 0 0 0 2
n 1 0 0 1
p 0 0 0 1
p 1 0 0 1
s 1 0 0 1
end
";

// A pack of a valid document.
const VALID: &str = "pvpack 1
total 0
body 11
<a><b/></a>
end
";

// Whether what is read of a text is written as that text.
fn is_written_again(alloc: Global, text: &str) -> Result<bool, Fail> {
    let pack = read_pack(alloc, text.as_bytes())?;
    Ok(write_pack(alloc, &pack)?.as_slice() == text.as_bytes())
}

#[test]
fn read_and_written(rt: HostRuntime) -> Result<(), Fail> {
    assert!(rt; is_written_again(rt.alloc(), PAIR)?, "{PAIR}");
    assert!(rt; is_written_again(rt.alloc(), VALID)?, "{VALID}");
    Ok(())
}

// Whether the third entry of the root's table is the one of the pair.
fn is_table_of_pair(table: &Table) -> bool {
    let [_, _, third, ..] = table.entries.as_slice() else {
        return false;
    };
    table.path.places() == [0].as_slice() && third.site == Site::Name(NameId(0)) && third.value == 2
}

fn is_pair(pack: &Pack) -> bool {
    let [table] = pack.tables.as_slice() else {
        return false;
    };
    pack.total == 1
        && pack.marks.as_slice() == [1].as_slice()
        && pack.body.as_slice() == b"<a><b></b></a>".as_slice()
        && is_table_of_pair(table)
}

fn is_pair_read(alloc: Global) -> Result<bool, PackError> {
    Ok(is_pair(&read_pack(alloc, PAIR.as_bytes())?))
}

fn is_pair_taken(alloc: Global) -> Result<bool, Fail> {
    let text = PAIR.as_bytes().to_vec(alloc)?;
    Ok(is_pair(&take_pack(alloc, text)?))
}

#[test]
fn parts(rt: HostRuntime) -> Result<(), Fail> {
    assert!(rt; is_pair_read(rt.alloc())?);
    assert!(rt; is_pair_taken(rt.alloc())?);
    Ok(())
}

// How many whole lines stand before a text's first fault.
fn lines_before_fault(alloc: Global, text: &str) -> Option<u64> {
    match read_pack(alloc, text.as_bytes()) {
        Err(PackError::Syntax(lines)) => Some(lines),
        Err(_) => None,
        Ok(_pack) => None,
    }
}

// Texts that are no packs, each with the number of whole lines before its fault.
static FAULTS: [(&str, u64); 11] = [
    ("", 0),
    ("pvpack 2\n", 0),
    ("pvpack 1\ntotal 1000001\n", 1),
    ("pvpack 1\ntotal 01\n", 1),
    ("pvpack 1\ntotal 1\nmark 4294967296\n", 2),
    ("pvpack 1\ntotal 0\nmark 1\nbody 99\n<a/>\nend\n", 3),
    (
        "pvpack 1\ntotal 0\nbody 4\n<a/>\nlist .\nn 0 0 0 1\nc 0 0 0 1\nend\n",
        5,
    ),
    (
        "pvpack 1\ntotal 0\nbody 4\n<a/>\nlist 0.1\nc 0 0 0 1\nc 0 0 0 2\nend\n",
        5,
    ),
    ("pvpack 1\ntotal 0\nbody 4\n<a/>\nc 0 0 0 1\nend\n", 3),
    ("pvpack 1\ntotal 0\nbody 4\n<a/>\nlist 0\nc 0 0 0 1\n", 5),
    ("pvpack 1\ntotal 0\nbody 4\n<a/>\nend\n\n", 4),
];

#[test]
fn faults(rt: HostRuntime) {
    for (text, lines) in &FAULTS {
        assert_eq!(rt;
            lines_before_fault(rt.alloc(), *text),
            Some(*lines),
            "{text}"
        );
    }
}
