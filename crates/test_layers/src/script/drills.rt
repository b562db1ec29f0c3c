//! The document and the lines of a drill.

use pv_drill::{drill_doc, drill_line};
use std::alloc::Global;
use std::test::Fail;
use test_fixture::rows::expect;

#[test]
fn two_sections(rt: HostRuntime) -> Result<(), Fail> {
    let doc = drill_doc(rt.alloc(), 2)?;
    let text = b"<doc><head>drill</head><sec>t1</sec><sec>t2</sec></doc>";
    assert!(rt; doc.as_slice() == text.as_slice());
    Ok(())
}

/// The lines at a section, one after the other.
static LINES: [(u32, &[u8]); 3] = [
    (0, b"wrap 0.12 0 1 br"),
    (1, b"wrap 0.12 0 1 p"),
    (2, b"undo"),
];

fn is_line(alloc: Global, number: u32, line: &[u8]) -> bool {
    if number > 2 {
        return false;
    }
    match drill_line(alloc, 12, number) {
        Ok(found) => found.as_slice() == line,
        Err(_) => false,
    }
}

#[test]
fn lines(rt: HostRuntime) -> Result<(), Fail> {
    for (number, line) in &LINES {
        expect(is_line(rt.alloc(), *number, *line), number)?;
    }
    Ok(())
}
