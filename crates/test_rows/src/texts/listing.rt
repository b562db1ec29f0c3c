//! Rows of `dtd`: what a DTD declares, and how a text that is no DTD is refused.

use crate::runs::rows::check_run;
use crate::runs::runs::Given;
use pv_cli::Status;
use std::test::Fail;
use std::thread::Threads;
use test_fixture::dtds::{ARTICLE, DOUBLING};

/// A text, and the output that `dtd` gives.
pub type Row = (&'static str, &'static str);

/// Runs `dtd` on each row, with this status.
pub fn check<R: AllocGlobal + Threads + Sync>(
    rt: &R,
    status: Status,
    rows: &[Row],
) -> Result<(), Fail> {
    for (dtd, output) in rows {
        let words: [&'static str; 2] = ["dtd", "a.dtd"];
        let files: [(&'static str, &'static str); 1] = [("a.dtd", *dtd)];
        let given = Given::plain(&words, &files);
        check_run(rt, *dtd, &given, status, output.as_bytes())?;
    }
    Ok(())
}

static LISTED: [Row; 12] = [
    (
        ARTICLE,
        "doc children 3\nhead mixed 1\nsec children 1\ntitle mixed 1\np mixed 1\nem mixed 1\n\
         br empty 1\nlist children 5\nitem children 2\ntypes 9 parts 21 undeclared 0\n",
    ),
    (
        DOUBLING,
        "t0 children over\nt1 children over\nt2 children 524287\nt3 children 262143\n\
         t4 children 131071\nt5 children 65535\nt6 children 32767\nt7 children 16383\n\
         t8 children 8191\nt9 children 4095\nt10 children 2047\nt11 children 1023\n\
         t12 children 511\nt13 children 255\nt14 children 127\nt15 children 63\nt16 children 31\n\
         t17 children 15\nt18 children 7\nt19 children 3\nt20 empty 1\n\
         types 21 parts 60 undeclared 0\n",
    ),
    ("", "types 0 parts 0 undeclared 0\n"),
    (
        "<!ELEMENT a (a)>",
        "a children unproductive\ntypes 1 parts 2 undeclared 0\n",
    ),
    (
        "<!ELEMENT a (b)><!ELEMENT b (a)>",
        "a children unproductive\nb children unproductive\ntypes 2 parts 4 undeclared 0\n",
    ),
    (
        "<!ELEMENT a (a?)>",
        "a children 1\ntypes 1 parts 3 undeclared 0\n",
    ),
    (
        "<!ELEMENT a (a+)>",
        "a children unproductive\ntypes 1 parts 3 undeclared 0\n",
    ),
    (
        "<!ELEMENT a ANY>",
        "a any 1\ntypes 1 parts 0 undeclared 0\n",
    ),
    (
        "<!ELEMENT r ANY><!ELEMENT s (u?)>",
        "r any 1\ns children 1\ntypes 2 parts 3 undeclared 1\n",
    ),
    (
        "<!ELEMENT a (b|(c,c))><!ELEMENT b (c,c,c)><!ELEMENT c EMPTY>",
        "a children 3\nb children 4\nc empty 1\ntypes 3 parts 9 undeclared 0\n",
    ),
    (
        "<!ELEMENT λόγος (#PCDATA|名)*><!ELEMENT 名 EMPTY>",
        "λόγος mixed 1\n名 empty 1\ntypes 2 parts 1 undeclared 0\n",
    ),
    (
        "\u{feff}<?xml encoding='utf-8'?><!-- a --><?p q?><!ATTLIST a b CDATA '%'>\
         <!ELEMENT a EMPTY>\n",
        "a empty 1\ntypes 1 parts 0 undeclared 0\n",
    ),
];

static REFUSED: [Row; 28] = [
    ("<!ELEMENT a EMPTY><!ELEMENT a ANY>", "dtd twice 1\n"),
    ("<!ELEMENT a (#PCDATA|b|b)*>", "dtd mixed-twice 0\n"),
    ("<!ELEMENT a (b|c,d)>", "dtd syntax 0\n"),
    ("<!ELEMENT a (b|#PCDATA)><!ELEMENT b ANY>", "dtd syntax 0\n"),
    (
        "<!ELEMENT a ANY><!ELEMENT b (#PCDATA|c|c)*>",
        "dtd mixed-twice 1\n",
    ),
    ("\u{feff}<!ELEMENT a", "dtd syntax 0\n"),
    (
        "<?xml version='1.0' encoding='UTF-8'?><!ELEMENT a>",
        "dtd syntax 1\n",
    ),
    ("<!-- -- -->", "dtd syntax 0\n"),
    ("<!--a--->", "dtd syntax 0\n"),
    ("<?xml ?>", "dtd syntax 0\n"),
    ("<!-- --><?xml version='1.0'?>", "dtd syntax 1\n"),
    ("<?xMl a?>", "dtd syntax 0\n"),
    ("<!ELEMENT a ANY><!ELEMENT a (b|c,d)>", "dtd syntax 1\n"),
    (
        "<!ELEMENT a ANY><!ELEMENT a (#PCDATA|b|b)*>",
        "dtd twice 1\n",
    ),
    (
        "<!ELEMENT a ANY><!ELEMENT a ANY><!ELEMENT b",
        "dtd twice 1\n",
    ),
    ("<!ELEMENT a ANY", "dtd syntax 0\n"),
    ("<!ATTLIST a", "dtd syntax 0\n"),
    ("<!--", "dtd syntax 0\n"),
    ("<?p", "dtd syntax 0\n"),
    ("<!ENTITY a '", "dtd syntax 0\n"),
    ("<!NOTATION", "dtd syntax 0\n"),
    ("<!NOTATION n", "dtd syntax 0\n"),
    ("<!--c--><!NOTATION n SYSTEM 'x", "dtd syntax 1\n"),
    ("<?xml", "dtd syntax 0\n"),
    ("<?xml encoding='utf-8", "dtd syntax 0\n"),
    (
        "\u{feff}<?xml version='1.0' encoding='utf-8'",
        "dtd syntax 0\n",
    ),
    ("\0", "dtd syntax 0\n"),
    ("<!--\0-->", "dtd syntax 0\n"),
];

#[test]
fn rows(rt: HostRuntime) -> Result<(), Fail> {
    check(&rt, Status::Done, &LISTED)?;
    check(&rt, Status::BadDtd, &REFUSED)
}
