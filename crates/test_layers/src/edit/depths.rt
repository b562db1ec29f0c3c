//! The first reason to refuse an edit of a document of the greatest depth.

use crate::edit::reasons::refusal;
use pv_edit::Reason;
use std::alloc::Global;
use std::test::Fail;
use test_fixture::documents::{document_of, nested};

// How many elements stand one inside another, what stands before and after the innermost one's
// path in the line of an edit, and the first reason to refuse it.
static DEEP: [(usize, &str, &str, Option<Reason>); 7] = [
    (511, "insert ", " 0 em", None),
    (512, "insert ", " 0 em", Some(Reason::Deep)),
    (512, "wrap ", " 0 0 em", Some(Reason::Deep)),
    (512, "insert ", " 1 em", Some(Reason::Range)),
    (512, "insert ", " 0 1x", Some(Reason::BadName)),
    (512, "wrap ", " 0 1 em", Some(Reason::Range)),
    (512, "wrap ", " 0 0 1x", Some(Reason::BadName)),
];

// The line of an edit with the path of the innermost element of so many.
fn deep_line(alloc: Global, depth: usize, before: &str, behind: &str) -> Result<String, Fail> {
    let path = nested(alloc, depth.saturating_sub(1), "0.", "0", "")?;
    Ok(format!(in alloc; "{before}{path}{behind}")?)
}

// The first reason to refuse the edit of a document of so many elements one inside another.
fn deep_refusal(alloc: Global, depth: usize, line: &str) -> Result<Option<Reason>, Fail> {
    let text = nested(alloc, depth, "<doc>", "", "</doc>")?;
    let doc = document_of(alloc, text.as_str(), "doc")?;
    refusal(alloc, &doc, line)
}

#[test]
fn the_greatest_depth(rt: HostRuntime) -> Result<(), Fail> {
    for (depth, before, behind, reason) in &DEEP {
        let line = deep_line(rt.alloc(), *depth, *before, *behind)?;
        let found = deep_refusal(rt.alloc(), *depth, line.as_str())?;
        assert!(rt; found == *reason, "{depth}: {before}{behind}");
    }
    Ok(())
}

// How many elements stand one inside another, the line of a wrap of the root, and the first reason
// to refuse it.
static DEEP_ROOTS: [(usize, &str, Option<Reason>); 4] = [
    (511, "wrap . 0 1 doc", None),
    (512, "wrap . 0 1 doc", Some(Reason::Deep)),
    (512, "wrap . 0 2 doc", Some(Reason::Range)),
    (512, "wrap . 0 1 1x", Some(Reason::BadName)),
];

#[test]
fn the_greatest_depth_around(rt: HostRuntime) -> Result<(), Fail> {
    for (depth, line, reason) in &DEEP_ROOTS {
        let found = deep_refusal(rt.alloc(), *depth, *line)?;
        assert!(rt; found == *reason, "{depth}: {line}");
    }
    Ok(())
}
