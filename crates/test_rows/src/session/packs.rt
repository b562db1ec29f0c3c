//! Rows of `complete`: packs of least completions, or why none is printed.

use crate::runs::rows::{Row, check_rows};
use pv_cli::Status;
use std::test::Fail;
use test_fixture::documents::nested;
use test_fixture::dtds::{ARTICLE, DOUBLING, ONE_MISSING};

const PAIR: &str = "<!ELEMENT a (b)> <!ELEMENT b EMPTY>";

static PACKS: [Row<'static>; 8] = [
    (PAIR, "a", "<a/>", Status::Done, ONE_MISSING),
    (
        PAIR,
        "a",
        "<a><b/></a>",
        Status::Done,
        "pvpack 1\ntotal 0\nbody 11\n<a><b/></a>\nend\n",
    ),
    (
        ARTICLE,
        "doc",
        "<doc><sec/><head/></doc>",
        Status::Negative,
        "impossible 0\n",
    ),
    (DOUBLING, "t0", "<t0/>", Status::Limit, "limit weight\n"),
    (
        "<!ELEMENT a (b|c,d)>",
        "a",
        "<a/>",
        Status::BadDtd,
        "dtd syntax 0\n",
    ),
    (
        PAIR,
        "a",
        "<!DOCTYPE b><a/>",
        Status::BadDocument,
        "document doctype\n",
    ),
    (
        PAIR,
        "a",
        "<a></b>",
        Status::BadDocument,
        "document mismatch 1\n",
    ),
    (PAIR, "1x", "<a/>", Status::Usage, "usage\n"),
];

#[test]
fn packs(rt: HostRuntime) -> Result<(), Fail> {
    check_rows(&rt, "complete", &PACKS)
}

// The first list that isn't valid and is too wide for weights is told.
#[test]
fn wide_lists(rt: HostRuntime) -> Result<(), Fail> {
    let alloc = rt.alloc();
    let sections = nested(alloc, 1057, "<sec/>", "</doc>", "")?;
    let wide = format!(in alloc; "<doc>{sections}")?;
    let row = (
        ARTICLE,
        "doc",
        wide.as_str(),
        Status::Limit,
        "limit width 0\n",
    );
    check_rows(&rt, "complete", &[row])
}
