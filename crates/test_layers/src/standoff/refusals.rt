//! Ranges that no document is given for.

use crate::standoff::documents::{Ending, ending_of, levels};
use pv_chars::TextError;
use pv_standoff::NestError;
use std::alloc::{AllocError, Global};
use std::test::Fail;

// Lines of ranges over `Tea time`, and why there is no document.
static ROWS: [(&str, NestError); 12] = [
    (
        "3 8 0 em\n0 5 0 em\n",
        NestError::Crossing {
            from: 0,
            to: 5,
            next_from: 3,
            next_to: 8,
        },
    ),
    // the last before it that it crosses
    (
        "2 8 0 c\n0 4 0 a\n1 3 0 b",
        NestError::Crossing {
            from: 1,
            to: 3,
            next_from: 2,
            next_to: 8,
        },
    ),
    // the first in sorted order, not in the file
    (
        "5 8 0 d\n4 6 0 c\n1 3 0 b\n0 2 0 a",
        NestError::Crossing {
            from: 0,
            to: 2,
            next_from: 1,
            next_to: 3,
        },
    ),
    ("0 9 0 p", NestError::Outside(0)),
    ("0 0 0 br", NestError::Outside(0)),
    ("0 1 0 a\n5 4 0 b\n0 9 0 c", NestError::Outside(1)),
    ("4294967294 4294967295 0 a", NestError::Outside(0)),
    // outside before twice, twice before crossing
    ("0 1 0 a\n0 1 0 b\n9 10 0 c", NestError::Outside(2)),
    (
        "0 8 0 p\n0 8 0 em\n",
        NestError::Twice {
            from: 0,
            to: 8,
            level: 0,
        },
    ),
    (
        "0 2 0 a\n1 3 0 b\n6 7 4 c\n6 7 4 d",
        NestError::Twice {
            from: 6,
            to: 7,
            level: 4,
        },
    ),
    // the first place in sorted order
    (
        "6 7 4 c\n6 7 4 d\n1 3 1 b\n1 3 0 b\n1 3 1 e",
        NestError::Twice {
            from: 1,
            to: 3,
            level: 1,
        },
    ),
    (
        "1 3 2 b\n1 3 0 c\n1 3 2 d",
        NestError::Twice {
            from: 1,
            to: 3,
            level: 2,
        },
    ),
];

fn is_refused(alloc: Global, text: &str, lines: &str, why: NestError) -> bool {
    match ending_of(alloc, "doc", text, lines) {
        Ending::Refused(error) => error == why,
        _ => false,
    }
}

#[test]
fn rows(rt: HostRuntime) {
    for (lines, why) in &ROWS {
        assert!(rt; is_refused(rt.alloc(), "Tea time", *lines, *why), "{lines}");
    }
}

fn is_too_deep(alloc: Global) -> Result<bool, AllocError> {
    let lines = levels(alloc, 512)?;
    Ok(is_refused(alloc, "x", lines.as_str(), NestError::Deep))
}

#[test]
fn too_deep(rt: HostRuntime) -> Result<(), Fail> {
    assert!(rt; is_too_deep(rt.alloc())?);
    Ok(())
}

// What is no text, and why.
static NO_TEXTS: [(&str, TextError); 4] = [
    ("a<b", TextError::BadChar(1)),
    ("a&nbsp;", TextError::Entity(1)),
    ("a]]>b", TextError::CloseMark(1)),
    ("", TextError::Empty),
];

fn is_no_text(alloc: Global, text: &str, why: TextError) -> bool {
    match ending_of(alloc, "doc", text, "") {
        Ending::Text(error) => error == why,
        _ => false,
    }
}

#[test]
fn no_texts(rt: HostRuntime) {
    for (text, why) in &NO_TEXTS {
        assert!(rt; is_no_text(rt.alloc(), *text, *why), "{text}");
    }
}
