//! Rows of `standoff`.

use crate::certificates::certificates::{Row, check_row};
use pv_cli::Status;
use std::alloc::{AllocError, Global};
use std::test::Fail;
use test_fixture::dtds::ARTICLE;

// A text, ranges, and the status and the output of `standoff` on them, under the DTD of articles.
type Annotated = (&'static str, &'static str, Status, &'static str);

static ROWS: [Annotated; 14] = [
    (
        "Tea time",
        "0 8 0 p\n0 3 0 em\n",
        Status::Done,
        "possible 1\nshow 35\n<doc><p><em>Tea</em> time</p></doc>\n",
    ),
    (
        "Tea time",
        "0 3 0 em\n0 8 0 p",
        Status::Done,
        "possible 1\nshow 35\n<doc><p><em>Tea</em> time</p></doc>\n",
    ),
    (
        "Tea time",
        "0 8 1 em\r\n0 8 0 p\r\n",
        Status::Done,
        "possible 1\nshow 35\n<doc><p><em>Tea time</em></p></doc>\n",
    ),
    (
        "Tea time",
        "",
        Status::Done,
        "possible 1\nshow 19\n<doc>Tea time</doc>\n",
    ),
    (
        "Tea time",
        "3 8 0 em\n0 5 0 em\n",
        Status::BadPack,
        "ranges cross 0 5 3 8\n",
    ),
    (
        "Tea time",
        "0 9 0 p\n",
        Status::BadPack,
        "ranges outside 0\n",
    ),
    (
        "Tea time",
        "0 0 0 br\n",
        Status::BadPack,
        "ranges outside 0\n",
    ),
    (
        "Tea time",
        "0 8 0 p\n0 8 0 em\n",
        Status::BadPack,
        "ranges twice 0 8 0\n",
    ),
    ("Tea time", "0 8 p\n", Status::BadPack, "ranges line 0\n"),
    (
        "Tea time",
        "0 8 0 br\n",
        Status::Negative,
        "impossible 0.0\nshow 28\n<doc><br>Tea time</br></doc>\n",
    ),
    ("a<b", "", Status::BadDocument, "text bad-char 1\n"),
    ("a&nbsp;", "", Status::BadDocument, "text entity 1\n"),
    ("a]]>", "", Status::BadDocument, "text close-mark 1\n"),
    ("", "", Status::BadDocument, "text empty 0\n"),
];

#[test]
fn annotated_texts(rt: HostRuntime) -> Result<(), Fail> {
    for (text, ranges, status, output) in &ROWS {
        let row = Row {
            dtd: ARTICLE,
            root: "doc",
            doc: *text,
            certificate: *ranges,
            status: *status,
            output: *output,
        };
        check_row(&rt, "standoff", &row, &[])?;
    }
    Ok(())
}

// So many ranges over one unit, each of another level.
fn deep(alloc: Global, count: u32) -> Result<String, AllocError> {
    let mut lines = String::new(alloc);
    for level in 0..count {
        lines.push_str(format!(in alloc; "0 1 {level} em\n")?.as_str())?;
    }
    Ok(lines)
}

// The root stands at depth 1; and no file is fetched after a refusal.
#[test]
fn depth_and_order(rt: HostRuntime) -> Result<(), Fail> {
    let lines = deep(rt.alloc(), 512)?;
    let mut row = Row {
        dtd: ARTICLE,
        root: "doc",
        doc: "x",
        certificate: lines.as_str(),
        status: Status::Limit,
        output: "limit depth\n",
    };
    check_row(&rt, "standoff", &row, &[])?;
    row.doc = "a<b";
    row.status = Status::BadDocument;
    row.output = "text bad-char 1\n";
    check_row(&rt, "standoff", &row, &[2])?;
    row.doc = "x";
    row.status = Status::ReadFault;
    row.output = "";
    check_row(&rt, "standoff", &row, &[2])?;
    row.root = "1x";
    row.status = Status::Usage;
    row.output = "usage\n";
    check_row(&rt, "standoff", &row, &[])
}
