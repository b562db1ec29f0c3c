//! Rows of `why` and `deny`.

use crate::certificates::certificates::{Row, check_row};
use crate::runs::rows::{Row as Told, check_rows};
use pv_cli::Status;
use std::alloc::{AllocError, Global};
use std::test::Fail;
use std::thread::Threads;
use test_fixture::dtds::{ARTICLE, ENDLESS};

const TWO: &str = "<!ELEMENT r (a, b)><!ELEMENT a EMPTY><!ELEMENT b EMPTY>";

const SWAPPED: &str = "<r><b/><a/></r>";

// The parts of a denial, each with the LF of its lines.
#[derive(Clone, Copy)]
struct Parts<'a> {
    list: &'a str,
    cause: &'a str,
    contents: &'a str,
    rest: &'a str,
    end: &'a str,
}

const REST: &str = "n 0 1 2 2\nn 1 0 2 2\nn 2 1 1 2\np 0 1 2 2\np 1 0 2 2\np 2 1 1 2\n\
    s 1 1 2 2\ns 2 1 1 2\n";

// The parts of what denies the two kids that stand in the other order.
const WHOLE: Parts<'static> = Parts {
    list: "list 0\n",
    cause: "cause word\n",
    contents: "c 0 1 2 2\nc 1 0 1 2\nc 2 0 1 2\n",
    rest: REST,
    end: "end\n",
};

fn denial_of(alloc: Global, parts: &Parts<'_>) -> Result<String, AllocError> {
    let mut text = String::from_str(alloc, "pvdeny 1\n")?;
    text.push_str(parts.list)?;
    text.push_str(parts.cause)?;
    text.push_str(parts.contents)?;
    text.push_str(parts.rest)?;
    text.push_str(parts.end)?;
    Ok(text)
}

// Runs `deny` on the swapped kids and a denial of these parts.
fn check_parts<R: AllocGlobal + Threads + Sync>(
    rt: &R,
    parts: &Parts<'_>,
    status: Status,
    output: &str,
) -> Result<(), Fail> {
    let denial = denial_of(rt.alloc(), parts)?;
    let row = Row {
        dtd: TWO,
        root: "r",
        doc: SWAPPED,
        certificate: denial.as_str(),
        status,
        output,
    };
    check_row(rt, "deny", &row, &[])
}

// Each denial of `why` passes the tests of `deny`.
#[test]
fn denials(rt: HostRuntime) -> Result<(), Fail> {
    let denial = denial_of(rt.alloc(), &WHOLE)?;
    let row = (TWO, "r", SWAPPED, Status::Done, denial.as_str());
    check_rows(&rt, "why", &[row])?;
    check_parts(&rt, &WHOLE, Status::Done, "denied 0\n")
}

static OTHER_CAUSES: [(&str, &str, &str, &str, &str); 4] = [
    (
        ARTICLE,
        "doc",
        "<doc><head/><sec><p><br> </br></p></sec></doc>",
        "pvdeny 1\nlist 0.1.0.0\ncause empty\nend\n",
        "denied 0.1.0.0\n",
    ),
    (
        ENDLESS,
        "a",
        "<a><a/></a>",
        "pvdeny 1\nlist .\ncause unproductive\nend\n",
        "denied .\n",
    ),
    (
        TWO,
        "x",
        "<r/>",
        "pvdeny 1\nlist .\ncause undeclared\nend\n",
        "denied .\n",
    ),
    (
        TWO,
        "r",
        "<r><a><!--c--></a></r>",
        "pvdeny 1\nlist 0.0\ncause empty\nend\n",
        "denied 0.0\n",
    ),
];

#[test]
fn other_causes(rt: HostRuntime) -> Result<(), Fail> {
    for (dtd, root, doc, denial, denied) in &OTHER_CAUSES {
        let rows = [(*dtd, *root, *doc, Status::Done, *denial)];
        check_rows(&rt, "why", &rows)?;
        let row = Row {
            dtd: *dtd,
            root: *root,
            doc: *doc,
            certificate: *denial,
            status: Status::Done,
            output: *denied,
        };
        check_row(&rt, "deny", &row, &[])?;
    }
    Ok(())
}

// What is changed in the denial, and the first test that fails.
static REJECTED: [(Parts<'static>, &str); 6] = [
    (
        Parts {
            contents: "c 0 2 2 2\nc 1 2 2 2\nc 2 2 2 2\n",
            rest: "n 0 2 2 2\nn 1 2 2 2\nn 2 2 2 2\np 0 2 2 2\np 1 2 2 2\np 2 2 2 2\n\
                s 1 2 2 2\ns 2 2 2 2\n",
            ..WHOLE
        },
        "rejected reached\n",
    ),
    (
        Parts {
            contents: "c 1 0 1 2\nc 2 0 1 2\n",
            ..WHOLE
        },
        "rejected table\n",
    ),
    (
        Parts {
            contents: "c 0 1 2 2 2\nc 1 0 1 2\nc 2 0 1 2\n",
            ..WHOLE
        },
        "rejected table\n",
    ),
    (
        Parts {
            cause: "cause empty\n",
            ..WHOLE
        },
        "rejected cause\n",
    ),
    (
        Parts {
            cause: "cause unproductive\n",
            contents: "",
            rest: "",
            ..WHOLE
        },
        "rejected cause\n",
    ),
    (
        Parts {
            list: "list 5\n",
            ..WHOLE
        },
        "rejected list\n",
    ),
];

#[test]
fn rejected_denials(rt: HostRuntime) -> Result<(), Fail> {
    for (parts, output) in &REJECTED {
        check_parts(&rt, parts, Status::Negative, *output)?;
    }
    Ok(())
}

// A denial's first line at fault, and a file that can't be read.
#[test]
fn bad_denials(rt: HostRuntime) -> Result<(), Fail> {
    let cut = Parts { end: "", ..WHOLE };
    check_parts(&rt, &cut, Status::BadPack, "table line 14\n")?;
    let more = Parts {
        end: "end\nend\n",
        ..WHOLE
    };
    check_parts(&rt, &more, Status::BadPack, "table line 15\n")?;
    let descending = Parts {
        contents: "c 1 0 1 2\nc 0 1 2 2\nc 2 0 1 2\n",
        ..WHOLE
    };
    check_parts(&rt, &descending, Status::BadPack, "table line 4\n")?;
    let mut row = Row {
        dtd: TWO,
        root: "r",
        doc: SWAPPED,
        certificate: "pvdeny 2\n",
        status: Status::BadPack,
        output: "table line 0\n",
    };
    check_row(&rt, "deny", &row, &[])?;
    row.status = Status::ReadFault;
    row.output = "";
    check_row(&rt, "deny", &row, &[2])?;
    row.root = "1x";
    row.status = Status::Usage;
    row.output = "usage\n";
    check_row(&rt, "deny", &row, &[])
}

// The document is read before the denial is fetched.
#[test]
fn document_before_denial(rt: HostRuntime) -> Result<(), Fail> {
    let row = Row {
        dtd: TWO,
        root: "r",
        doc: "<r></b>",
        certificate: "",
        status: Status::BadDocument,
        output: "document mismatch 1\n",
    };
    check_row(&rt, "deny", &row, &[2])
}

static NO_DENIALS: [Told<'static>; 3] = [
    (
        ARTICLE,
        "doc",
        "<doc>Hello</doc>",
        Status::Negative,
        "possible\n",
    ),
    (TWO, "r", "<r><a/><b/></r>", Status::Negative, "possible\n"),
    (
        TWO,
        "r",
        "<r></b>",
        Status::BadDocument,
        "document mismatch 1\n",
    ),
];

#[test]
fn no_denials(rt: HostRuntime) -> Result<(), Fail> {
    check_rows(&rt, "why", &NO_DENIALS)
}
