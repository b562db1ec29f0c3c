//! Rows on words, on faults of the outside, and on exit statuses.

use crate::runs::rows::check_run;
use crate::runs::runs::Given;
use pv_cli::Status;
use std::test::Fail;
use std::thread::Threads;
use test_fixture::dtds::TEXT;

const HELLO: &str = "<doc>Hello</doc>";

// The words are no command, whatever the files are.
fn check_usage<'a, R: AllocGlobal + Threads + Sync>(
    rt: &R,
    words: &[&'a str],
    files: &[(&'a str, &'a str)],
    failing_fetches: &[u64],
) -> Result<(), Fail> {
    let given = Given {
        failing_fetches,
        ..Given::plain(words, files)
    };
    check_run(rt, "the words", &given, Status::Usage, b"usage\n")
}

#[test]
fn words(rt: HostRuntime) -> Result<(), Fail> {
    let lines: [&[&str]; 5] = [
        &[],
        &["valid"],
        &["valid", "a.dtd", "1x", "d.xml"],
        &["valid", "a.dtd", "doc", "d.xml", "more"],
        &["vali", "a.dtd", "doc", "d.xml"],
    ];
    for words in lines {
        check_usage(&rt, words, &[("a.dtd", TEXT), ("d.xml", HELLO)], &[])?;
        check_usage(&rt, words, &[], &[0])?;
    }
    Ok(())
}

const VALID: &[&str] = &["valid", "a.dtd", "doc", "d.xml"];

const SESSION: &[&str] = &["session", "a.dtd", "doc", "d.xml"];

const LISTING: &[&str] = &["dtd", "a.dtd"];

struct Row {
    words: &'static [&'static str],
    dtd: &'static str,
    /// Its name and its bytes. The words of most rows name `d.xml`.
    doc: (&'static str, &'static str),
    /// The numbers of the calls that fail: of the shelf, the input and the output.
    failing: (&'static [u64], &'static [u64], &'static [u64]),
    ends: (Status, &'static str),
}

static FAULTS: [Row; 12] = [
    Row {
        words: VALID,
        dtd: TEXT,
        doc: ("d.xml", HELLO),
        failing: (&[1], &[], &[]),
        ends: (Status::ReadFault, ""),
    },
    Row {
        words: VALID,
        dtd: TEXT,
        doc: ("other.xml", HELLO),
        failing: (&[], &[], &[]),
        ends: (Status::ReadFault, ""),
    },
    Row {
        words: VALID,
        dtd: TEXT,
        doc: ("d.xml", HELLO),
        failing: (&[], &[], &[2]),
        ends: (Status::WriteFault, "va"),
    },
    Row {
        words: VALID,
        dtd: TEXT,
        doc: ("d.xml", HELLO),
        failing: (&[2], &[0], &[6]),
        ends: (Status::Done, "valid\n"),
    },
    // The DTD is read before the document is fetched.
    Row {
        words: VALID,
        dtd: "<!ELEMENT doc>",
        doc: ("other.xml", HELLO),
        failing: (&[], &[], &[]),
        ends: (Status::BadDtd, "dtd syntax 0\n"),
    },
    Row {
        words: VALID,
        dtd: "<!ELEMENT doc>",
        doc: ("d.xml", HELLO),
        failing: (&[1], &[], &[]),
        ends: (Status::BadDtd, "dtd syntax 0\n"),
    },
    // The DTD is fetched once, and nothing else.
    Row {
        words: LISTING,
        dtd: TEXT,
        doc: ("d.xml", HELLO),
        failing: (&[1], &[0], &[]),
        ends: (Status::Done, "doc mixed 1\ntypes 1 parts 0 undeclared 0\n"),
    },
    Row {
        words: LISTING,
        dtd: "<!ELEMENT doc>",
        doc: ("other.xml", HELLO),
        failing: (&[1], &[0], &[]),
        ends: (Status::BadDtd, "dtd syntax 0\n"),
    },
    Row {
        words: LISTING,
        dtd: TEXT,
        doc: ("d.xml", HELLO),
        failing: (&[0], &[], &[]),
        ends: (Status::ReadFault, ""),
    },
    // Both are read before the input is asked.
    Row {
        words: SESSION,
        dtd: "<!ELEMENT doc>",
        doc: ("d.xml", HELLO),
        failing: (&[], &[0], &[]),
        ends: (Status::BadDtd, "dtd syntax 0\n"),
    },
    Row {
        words: SESSION,
        dtd: TEXT,
        doc: ("d.xml", "<doc>"),
        failing: (&[], &[0], &[]),
        ends: (Status::BadDocument, "document syntax 1\n"),
    },
    Row {
        words: SESSION,
        dtd: TEXT,
        doc: ("d.xml", HELLO),
        failing: (&[], &[0], &[]),
        ends: (Status::ReadFault, ""),
    },
];

fn check_row<R: AllocGlobal + Threads + Sync>(rt: &R, row: &Row) -> Result<(), Fail> {
    let files: [(&'static str, &'static str); 2] = [("a.dtd", row.dtd), row.doc];
    let given = Given {
        failing_fetches: row.failing.0,
        failing_fills: row.failing.1,
        failing_puts: row.failing.2,
        ..Given::plain(row.words, &files)
    };
    check_run(rt, row.dtd, &given, row.ends.0, row.ends.1.as_bytes())
}

#[test]
fn faults(rt: HostRuntime) -> Result<(), Fail> {
    for row in &FAULTS {
        check_row(&rt, row)?;
    }
    Ok(())
}

static STATUSES: [(Status, u8); 9] = [
    (Status::Done, 0),
    (Status::Negative, 1),
    (Status::Usage, 2),
    (Status::ReadFault, 3),
    (Status::WriteFault, 4),
    (Status::NoMemory, 5),
    (Status::BadDtd, 6),
    (Status::BadDocument, 7),
    (Status::Limit, 8),
];

#[test]
fn exit_statuses(rt: HostRuntime) {
    for (status, code) in &STATUSES {
        assert_eq!(rt; status.code(), *code);
    }
}
