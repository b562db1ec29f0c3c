//! Denials that are judged.

use crate::denials::calls::{PAIR, judged};
use pv_chars::{List, NoMemory};
use pv_denial::{Cause, Denial, Flaw, Judged, Row, Rows};
use pv_model::NameId;
use pv_rules::Site;
use pv_tree::Path;
use std::alloc::Global;
use std::test::Fail;

/// A site, and its three values.
type Line = (Site, [u32; 3]);

/// The rows that show that the pair is impossible the wrong way round.
const ROWS: &[Line] = &[
    (Site::Content(NameId(0)), [1, 2, 2]),
    (Site::Content(NameId(1)), [0, 1, 2]),
    (Site::Content(NameId(2)), [0, 1, 2]),
    (Site::Name(NameId(0)), [1, 2, 2]),
    (Site::Name(NameId(1)), [0, 2, 2]),
    (Site::Name(NameId(2)), [1, 1, 2]),
    (Site::Part(0), [1, 2, 2]),
    (Site::Part(1), [0, 2, 2]),
    (Site::Part(2), [1, 1, 2]),
    (Site::Rest(1), [1, 2, 2]),
    (Site::Rest(2), [1, 1, 2]),
];

/// The rows of `ROWS` but the first.
const ONE_LEFT_OUT: &[Line] = &[
    (Site::Content(NameId(1)), [0, 1, 2]),
    (Site::Content(NameId(2)), [0, 1, 2]),
    (Site::Name(NameId(0)), [1, 2, 2]),
    (Site::Name(NameId(1)), [0, 2, 2]),
    (Site::Name(NameId(2)), [1, 1, 2]),
    (Site::Part(0), [1, 2, 2]),
    (Site::Part(1), [0, 2, 2]),
    (Site::Part(2), [1, 1, 2]),
    (Site::Rest(1), [1, 2, 2]),
    (Site::Rest(2), [1, 1, 2]),
];

/// Rows that lead from each place to the end.
const FAR_ROWS: &[Line] = &[
    (Site::Content(NameId(0)), [2, 2, 2]),
    (Site::Content(NameId(1)), [2, 2, 2]),
    (Site::Content(NameId(2)), [2, 2, 2]),
    (Site::Name(NameId(0)), [2, 2, 2]),
    (Site::Name(NameId(1)), [2, 2, 2]),
    (Site::Name(NameId(2)), [2, 2, 2]),
    (Site::Part(0), [2, 2, 2]),
    (Site::Part(1), [2, 2, 2]),
    (Site::Part(2), [2, 2, 2]),
    (Site::Rest(1), [2, 2, 2]),
    (Site::Rest(2), [2, 2, 2]),
];

const TURNED: &str = "<r><b/><a/></r>";

/// A denial of a document of the pair, and what the judge says of it.
struct Case {
    about: &'static str,
    doc: &'static str,
    path: &'static [u32],
    cause: Cause,
    rows: &'static [Line],
    judged: Judged,
}

static CASES: [Case; 10] = [
    Case {
        about: "the rows that show it",
        doc: TURNED,
        path: &[0],
        cause: Cause::Word,
        rows: ROWS,
        judged: Judged::Denied,
    },
    Case {
        about: "a valid pair",
        doc: "<r><a/><b/></r>",
        path: &[0],
        cause: Cause::Word,
        rows: ROWS,
        judged: Judged::Rejected(Flaw::Table),
    },
    Case {
        about: "rows that reach the end",
        doc: TURNED,
        path: &[0],
        cause: Cause::Word,
        rows: FAR_ROWS,
        judged: Judged::Rejected(Flaw::Reached),
    },
    Case {
        about: "a row left out",
        doc: TURNED,
        path: &[0],
        cause: Cause::Word,
        rows: ONE_LEFT_OUT,
        judged: Judged::Rejected(Flaw::Table),
    },
    Case {
        about: "another cause",
        doc: TURNED,
        path: &[0],
        cause: Cause::Empty,
        rows: ROWS,
        judged: Judged::Rejected(Flaw::Cause),
    },
    Case {
        about: "another list",
        doc: TURNED,
        path: &[5],
        cause: Cause::Word,
        rows: ROWS,
        judged: Judged::Rejected(Flaw::List),
    },
    Case {
        about: "kids in an empty element",
        doc: "<r><a>x</a></r>",
        path: &[0, 0],
        cause: Cause::Empty,
        rows: &[],
        judged: Judged::Denied,
    },
    Case {
        about: "an empty element without kids",
        doc: "<r><a/></r>",
        path: &[0, 0],
        cause: Cause::Empty,
        rows: &[],
        judged: Judged::Rejected(Flaw::Cause),
    },
    Case {
        about: "a name that isn't declared",
        doc: "<r><z/></r>",
        path: &[0, 0],
        cause: Cause::Undeclared,
        rows: &[],
        judged: Judged::Denied,
    },
    Case {
        about: "a name that is declared",
        doc: "<r><a/></r>",
        path: &[0, 0],
        cause: Cause::Undeclared,
        rows: &[],
        judged: Judged::Rejected(Flaw::Cause),
    },
];

fn rows_of(alloc: Global, lines: &[Line]) -> Result<Rows, NoMemory> {
    let mut rows = Vec::new(alloc);
    for (site, values) in lines {
        rows.push(Row {
            site: *site,
            values: List::of(values.to_vec(alloc)?),
        })?;
    }
    Ok(List::of(rows))
}

fn denial_of(alloc: Global, case: &Case) -> Result<Denial, NoMemory> {
    Ok(Denial {
        path: Path::new(alloc, case.path)?,
        cause: case.cause,
        rows: rows_of(alloc, case.rows)?,
    })
}

/// What the judge says of a case's denial.
fn said_of(alloc: Global, case: &Case) -> Result<Judged, Fail> {
    let denial = denial_of(alloc, case)?;
    judged(alloc, (PAIR, "r", case.doc), &denial)
}

#[test]
fn denials_that_are_judged(rt: HostRuntime) -> Result<(), Fail> {
    for case in &CASES {
        assert_eq!(rt; said_of(rt.alloc(), case)?, case.judged, "{}", case.about);
    }
    Ok(())
}
