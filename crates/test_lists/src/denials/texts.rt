//! The text of denials.

use crate::denials::calls::{TURNED, judged};
use pv_denial::{Flaw, Judged};
use pv_denial_text::{TableError, read_denial, write_denial};
use std::alloc::{AllocError, Global};
use std::test::Fail;

/// The rows that deny the pair the wrong way round, but that of the content of the first name.
const ROWS: &str = "c 1 0 1 2\nc 2 0 1 2\nn 0 1 2 2\nn 1 0 2 2\nn 2 1 1 2\np 0 1 2 2\n\
    p 1 0 2 2\np 2 1 1 2\ns 1 1 2 2\ns 2 1 1 2\n";

/// Rows that lead from each place to the end.
const FAR_ROWS: &str = "c 0 2 2 2\nc 1 2 2 2\nc 2 2 2 2\nn 0 2 2 2\nn 1 2 2 2\nn 2 2 2 2\n\
    p 0 2 2 2\np 1 2 2 2\np 2 2 2 2\ns 1 2 2 2\ns 2 2 2 2\n";

/// The lines of a denial up to its rows, the rest of these, and what it is judged to be against the
/// pair the wrong way round.
static JUDGED: [(&str, &str, Judged); 5] = [
    (
        "pvdeny 1\nlist 0\ncause word\nc 0 1 2 2\n",
        ROWS,
        Judged::Denied,
    ),
    (
        "pvdeny 1\nlist 0\ncause word\n",
        FAR_ROWS,
        Judged::Rejected(Flaw::Reached),
    ),
    (
        "pvdeny 1\nlist 0\ncause word\n",
        ROWS,
        Judged::Rejected(Flaw::Table),
    ),
    (
        "pvdeny 1\nlist 0\ncause empty\nc 0 1 2 2\n",
        ROWS,
        Judged::Rejected(Flaw::Cause),
    ),
    (
        "pvdeny 1\nlist 5\ncause word\nc 0 1 2 2\n",
        ROWS,
        Judged::Rejected(Flaw::List),
    ),
];

fn text_of(alloc: Global, head: &str, rows: &str) -> Result<String, AllocError> {
    format!(in alloc; "{head}{rows}end\n")
}

/// What the judge says of a text, if it is written as it was read.
fn said_of(alloc: Global, text: &str) -> Result<Option<Judged>, Fail> {
    let denial = read_denial(alloc, text.as_bytes())?;
    if write_denial(alloc, &denial)?.as_slice() != text.as_bytes() {
        return Ok(None);
    }
    Ok(Some(judged(alloc, TURNED, &denial)?))
}

fn said_of_lines(alloc: Global, head: &str, rows: &str) -> Result<Option<Judged>, Fail> {
    let text = text_of(alloc, head, rows)?;
    said_of(alloc, text.as_str())
}

#[test]
fn texts_that_are_judged(rt: HostRuntime) -> Result<(), Fail> {
    for (head, rows, judged) in &JUDGED {
        let said = said_of_lines(rt.alloc(), *head, *rows)?;
        assert_eq!(rt; said, Some(*judged), "{head}{rows}");
    }
    Ok(())
}

/// How many whole lines stand before a text's first fault.
fn lines_before_fault(alloc: Global, text: &str) -> Option<u64> {
    match read_denial(alloc, text.as_bytes()) {
        Err(TableError::Syntax(lines)) => Some(lines),
        Err(_) => None,
        Ok(_denial) => None,
    }
}

/// Texts, each with how many whole lines stand before its first fault.
static FAULTS: [(&str, u64); 19] = [
    ("", 0),
    ("pvdeny 2\nlist 0\ncause word\nend\n", 0),
    ("pvdeny 1\r\nlist 0\ncause word\nend\n", 0),
    ("pvdeny 1\n", 1),
    ("pvdeny 1\nlist 00\ncause word\nend\n", 1),
    ("pvdeny 1\nlist 0\ncause words\nend\n", 2),
    ("pvdeny 1\nlist 0\ncause word\n", 3),
    ("pvdeny 1\nlist 0\ncause word\nend", 3),
    ("pvdeny 1\nlist 0\ncause word\nc 0\nend\n", 3),
    ("pvdeny 1\nlist 0\ncause word\nc 0 \nend\n", 3),
    ("pvdeny 1\nlist 0\ncause word\nc 0 01\nend\n", 3),
    ("pvdeny 1\nlist 0\ncause word\nc 0 1  2\nend\n", 3),
    ("pvdeny 1\nlist 0\ncause word\nc 0 1 \nend\n", 3),
    ("pvdeny 1\nlist 0\ncause word\nx 0 1\nend\n", 3),
    ("pvdeny 1\nlist 0\ncause word\nc 0 4294967296\nend\n", 3),
    ("pvdeny 1\nlist 0\ncause word\nc 1 1\nc 1 2\nend\n", 4),
    ("pvdeny 1\nlist 0\ncause word\np 0 1\nn 5 2\nend\n", 4),
    ("pvdeny 1\nlist 0\ncause word\nend\n\n", 4),
    // The whole denial of the turned pair, but for its end.
    (
        "pvdeny 1\nlist 0\ncause word\nc 0 1 2 2\nc 1 0 1 2\nc 2 0 1 2\nn 0 1 2 2\nn 1 0 2 2\n\
         n 2 1 1 2\np 0 1 2 2\np 1 0 2 2\np 2 1 1 2\ns 1 1 2 2\ns 2 1 1 2\n",
        14,
    ),
];

#[test]
fn first_faults(rt: HostRuntime) -> Result<(), Fail> {
    for (text, lines) in &FAULTS {
        assert_eq!(rt;
            lines_before_fault(rt.alloc(), *text),
            Some(*lines),
            "{text}"
        );
    }
    Ok(())
}
