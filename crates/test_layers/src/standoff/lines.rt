//! Lines of ranges.

use pv_standoff::{Range, RangesError, read_ranges};
use std::alloc::{AllocError, Global};
use std::test::Fail;

// Lines, and the number of the first that is no range.
static FAULTS: [(&str, u64); 21] = [
    ("0 8 p", 0),
    ("\n", 0),
    ("0 8 0 p\n\n", 1),
    ("0 8 0 p\n\n0 9 0 p", 1),
    ("0 8 0 p\r\n\r\n", 1),
    ("0 8 0 p \n", 0),
    (" 0 8 0 p", 0),
    ("0  8 0 p", 0),
    ("0\t8 0 p", 0),
    ("00 8 0 p", 0),
    ("+0 8 0 p", 0),
    ("-1 8 0 p", 0),
    ("0 8 4294967296 p", 0),
    ("99999999999999999999999 8 0 p", 0),
    ("0 8 0 ", 0),
    ("0 8 0", 0),
    ("0 8 0 1p", 0),
    ("0 8 0 p q", 0),
    ("0 8 0 p\u{B1}", 0),
    ("0 8 0 p\r0 8 0 q", 0),
    ("0 1 0 a\n1 2 0 b\nx", 2),
];

// The number of the first line that is no range.
fn first_fault(alloc: Global, lines: &[u8]) -> Option<u64> {
    match read_ranges(alloc, lines) {
        Err(RangesError::Syntax(number)) => Some(number),
        Err(_) => None,
        Ok(_ranges) => None,
    }
}

#[test]
fn faults(rt: HostRuntime) {
    for (lines, number) in &FAULTS {
        assert!(rt;
            first_fault(rt.alloc(), lines.as_bytes()) == Some(*number),
            "{lines}"
        );
    }
}

#[test]
fn bytes_that_are_no_text(rt: HostRuntime) {
    assert!(rt; first_fault(rt.alloc(), b"0 1 0 a\n0 1 0 \xC3\n") == Some(1));
}

fn is_range(range: &Range, from: u32, to: u32, level: u32, name: &[u8]) -> bool {
    range.from == from && range.to == to && range.level == level && range.name.as_slice() == name
}

fn are_two(ranges: &[Range]) -> bool {
    let [first, second] = ranges else {
        return false;
    };
    is_range(first, 0, 4_294_967_295, 7, b"a") && is_range(second, 3, 2, 0, b"b.c")
}

fn reads_values(alloc: Global) -> Result<bool, RangesError> {
    let ranges = read_ranges(alloc, b"0 4294967295 7 a\r\r\n3 2 0 b.c")?;
    Ok(are_two(ranges.as_slice()))
}

#[test]
fn values(rt: HostRuntime) -> Result<(), Fail> {
    assert!(rt; reads_values(rt.alloc())?);
    Ok(())
}

// How many ranges the lines are.
fn count(alloc: Global, lines: &[u8]) -> Result<usize, RangesError> {
    Ok(read_ranges(alloc, lines)?.as_slice().len())
}

fn are_too_many(alloc: Global, lines: &[u8]) -> bool {
    matches!(read_ranges(alloc, lines), Err(RangesError::Limit))
}

// As many lines as there may be.
fn many(alloc: Global) -> Result<Vec<u8>, AllocError> {
    let mut lines = Vec::new(alloc);
    for _ in 0..1_048_576 {
        lines.extend_from_slice(b"0 1 0 a\n")?;
    }
    Ok(lines)
}

#[test]
fn as_many_as_may_be(rt: HostRuntime) -> Result<(), Fail> {
    let mut lines = many(rt.alloc())?;
    assert!(rt; count(rt.alloc(), &lines)? == 1_048_576);
    lines.push(b'x')?;
    assert!(rt; are_too_many(rt.alloc(), &lines));
    Ok(())
}
