//! Rows of `verify`.

use crate::certificates::certificates::{Row, check_row};
use pv_cli::Status;
use std::alloc::{AllocError, Global};
use std::test::Fail;
use std::thread::Threads;
use test_fixture::documents::nested;
use test_fixture::dtds::ARTICLE;

const PAIR: &str = "<!ELEMENT a (b)> <!ELEMENT b EMPTY>";

// The parts of a pack, each with the LF of its lines.
#[derive(Clone, Copy)]
struct Parts<'a> {
    total: &'a str,
    marks: &'a str,
    body: &'a str,
    list: &'a str,
    entries: &'a str,
    end: &'a str,
}

const ENTRIES: &str =
    "c 0 0 0 1\nc 1 0 0 0\nn 0 0 0 2\nn 1 0 0 1\np 0 0 0 1\np 1 0 0 1\ns 1 0 0 1\n";

// The parts of the pack of `<a/>`, which needs one more element.
const WHOLE: Parts<'static> = Parts {
    total: "total 1\n",
    marks: "mark 1\n",
    body: "body 14\n<a><b></b></a>\n",
    list: "list 0\n",
    entries: ENTRIES,
    end: "end\n",
};

fn pack_of(alloc: Global, parts: &Parts<'_>) -> Result<String, AllocError> {
    let mut text = String::from_str(alloc, "pvpack 1\n")?;
    text.push_str(parts.total)?;
    text.push_str(parts.marks)?;
    text.push_str(parts.body)?;
    text.push_str(parts.list)?;
    text.push_str(parts.entries)?;
    text.push_str(parts.end)?;
    Ok(text)
}

// Runs `verify` on `<a/>` and a pack of these parts.
fn check_parts<R: AllocGlobal + Threads + Sync>(
    rt: &R,
    parts: &Parts<'_>,
    status: Status,
    output: &str,
) -> Result<(), Fail> {
    let pack = pack_of(rt.alloc(), parts)?;
    let row = Row {
        dtd: PAIR,
        root: "a",
        doc: "<a/>",
        certificate: pack.as_str(),
        status,
        output,
    };
    check_row(rt, "verify", &row, &[])
}

#[test]
fn accepted_packs(rt: HostRuntime) -> Result<(), Fail> {
    check_parts(&rt, &WHOLE, Status::Done, "accepted 1\n")?;
    let row = Row {
        dtd: PAIR,
        root: "a",
        doc: "<a><b/></a>",
        certificate: "pvpack 1\ntotal 0\nbody 11\n<a><b/></a>\nend\n",
        status: Status::Done,
        output: "accepted 0\n",
    };
    check_row(&rt, "verify", &row, &[])
}

// What is changed in the pack, and the first test that fails.
static REJECTED: [(Parts<'static>, &str); 10] = [
    (Parts { marks: "", ..WHOLE }, "rejected kept\n"),
    (
        Parts {
            marks: "mark 5\n",
            ..WHOLE
        },
        "rejected marks\n",
    ),
    (
        Parts {
            entries: "c 0 0 0 1\nc 1 0 0 0\nn 0 0 0 2\nn 1 0 0 2\np 0 0 0 1\np 1 0 0 1\n\
                s 1 0 0 1\n",
            ..WHOLE
        },
        "rejected closure\n",
    ),
    (
        Parts {
            entries: "c 0 0 0 1\nc 1 0 0 0\nn 0 0 0 2\np 0 0 0 1\np 1 0 0 1\ns 1 0 0 1\n",
            ..WHOLE
        },
        "rejected closure\n",
    ),
    (
        Parts {
            entries: "c 0 0 0 0\nc 1 0 0 0\nn 0 0 0 0\nn 1 0 0 0\np 0 0 0 0\np 1 0 0 0\n\
                s 1 0 0 0\n",
            ..WHOLE
        },
        "rejected totals\n",
    ),
    (
        Parts {
            total: "total 2\n",
            ..WHOLE
        },
        "rejected totals\n",
    ),
    (
        Parts {
            body: "body 14\n<a><a></a></a>\n",
            ..WHOLE
        },
        "rejected validity\n",
    ),
    (
        Parts {
            body: "body 14\n<a><b></a></b>\n",
            ..WHOLE
        },
        "rejected body\n",
    ),
    (
        Parts {
            list: "list 7\n",
            ..WHOLE
        },
        "rejected closure\n",
    ),
    (
        Parts {
            entries: "c 0 0 0 1\nc 1 0 0 0\nn 0 0 0 2\nn 1 0 0 1\np 0 0 0 1\np 1 0 0 1\n\
                p 99 0 0 0\ns 1 0 0 1\n",
            ..WHOLE
        },
        "rejected closure\n",
    ),
];

#[test]
fn rejected_packs(rt: HostRuntime) -> Result<(), Fail> {
    for (parts, output) in &REJECTED {
        check_parts(&rt, parts, Status::Negative, *output)?;
    }
    Ok(())
}

// A pack's first line at fault, and a file that can't be read.
#[test]
fn bad_packs(rt: HostRuntime) -> Result<(), Fail> {
    let cut = Parts { end: "", ..WHOLE };
    check_parts(&rt, &cut, Status::BadPack, "pack line 12\n")?;
    let heavy = Parts {
        total: "total 1000001\n",
        ..WHOLE
    };
    check_parts(&rt, &heavy, Status::BadPack, "pack line 1\n")?;
    let short = Parts {
        body: "body 9999999\n<a><b></b></a>\n",
        ..WHOLE
    };
    check_parts(&rt, &short, Status::BadPack, "pack line 3\n")?;
    let mut row = Row {
        dtd: PAIR,
        root: "a",
        doc: "<a/>",
        certificate: "pvpack 2\n",
        status: Status::BadPack,
        output: "pack line 0\n",
    };
    check_row(&rt, "verify", &row, &[])?;
    row.status = Status::ReadFault;
    row.output = "";
    check_row(&rt, "verify", &row, &[2])?;
    row.root = "1x";
    row.status = Status::Usage;
    row.output = "usage\n";
    check_row(&rt, "verify", &row, &[])
}

// The document is read before the pack is fetched.
#[test]
fn document_before_pack(rt: HostRuntime) -> Result<(), Fail> {
    let row = Row {
        dtd: PAIR,
        root: "a",
        doc: "<a></b>",
        certificate: "",
        status: Status::BadDocument,
        output: "document mismatch 1\n",
    };
    check_row(&rt, "verify", &row, &[2])
}

// The widths of the lists that a pack names are tested after the pack.
#[test]
fn width_behind_pack(rt: HostRuntime) -> Result<(), Fail> {
    let alloc = rt.alloc();
    let sections = nested(alloc, 1057, "<sec/>", "</doc>", "")?;
    let doc = format!(in alloc; "<doc>{sections}")?;
    let wide = Row {
        dtd: ARTICLE,
        root: "doc",
        doc: doc.as_str(),
        certificate: "pvpack 1\ntotal 0\nbody 0\n\nlist 0\nend\n",
        status: Status::Limit,
        output: "limit width 0\n",
    };
    check_row(&rt, "verify", &wide, &[])?;
    let narrow = Row {
        dtd: ARTICLE,
        root: "doc",
        doc: doc.as_str(),
        certificate: "pvpack 1\ntotal 0\nbody 0\n\nlist 0.0\nend\n",
        status: Status::Negative,
        output: "rejected body\n",
    };
    check_row(&rt, "verify", &narrow, &[])
}

// A body of any depth is read.
#[test]
fn deep_body(rt: HostRuntime) -> Result<(), Fail> {
    let alloc = rt.alloc();
    let body = nested(alloc, 100_000, "<em>", "", "</em>")?;
    let pack = format!(in alloc; "pvpack 1\ntotal 0\nbody 900000\n{body}\nend\n")?;
    let row = Row {
        dtd: ARTICLE,
        root: "em",
        doc: "<em/>",
        certificate: pack.as_str(),
        status: Status::Negative,
        output: "rejected kept\n",
    };
    check_row(&rt, "verify", &row, &[])
}
