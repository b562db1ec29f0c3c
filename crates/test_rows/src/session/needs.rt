//! Rows of `need` and `complete` in a session: how many elements are missing, or why it isn't told,
//! and documents with them.

use crate::runs::rows::{Lines, check_run};
use crate::runs::runs::{Given, Piece};
use pv_cli::Status;
use std::test::Fail;
use std::thread::Threads;
use test_fixture::documents::nested;
use test_fixture::dtds::{ARTICLE, DOUBLING, NESTED, REALISTIC};

// A DTD, a root, a document and a script, and the output of a session on them.
type Row<'a> = (&'a str, &'a str, &'a str, &'a str, &'a str);

// Documents with the reply to `need`.
static NUMBERS: [Lines<'static>; 2] = [
    (
        ARTICLE,
        "doc",
        &[
            ("<doc>Hello</doc>", "need 2\n"),
            ("<doc><em>x</em></doc>", "need 3\n"),
            ("<doc><p>a</p><title>b</title></doc>", "need 3\n"),
            ("<p>a</p>", "need 3\n"),
            ("<doc><!--c--> </doc>", "need 2\n"),
            ("<doc><head/><sec>&#32;</sec></doc>", "need 1\n"),
            ("<doc><head/><sec> </sec></doc>", "need 0\n"),
        ],
    ),
    (NESTED, "x", &[("<x><y/><y/><y/></x>", "need 3\n")]),
];

static NEEDS: [Row<'static>; 4] = [
    (
        DOUBLING,
        "t0",
        "<t0/>",
        "need\nneed",
        "no heavy\nno heavy\n",
    ),
    (
        DOUBLING,
        "t2",
        "<t2/>",
        "need\nshow",
        "need 524286\nshow 5\n<t2/>\n",
    ),
    (
        ARTICLE,
        "doc",
        "<doc>Hello</doc>",
        "need\nneed 2\nneeds\nwrap 0 0 1 head\nneed\nundo\nneed\nhistory\nverdicts\n",
        "need 2\nno command\nno command\nok 2 1 0\nneed 1\nok 1 1 0\nneed 2\nhistory 0\n\
         verdicts 2\n. valid 0\n0 possible 2\n",
    ),
    (
        ARTICLE,
        "doc",
        "<doc>Hello</doc>",
        "split 0.0 2\nwrap 0 0 1 head\nshow\nneed\nhistory\nverdicts\n",
        "ok 1 1 0\nok 2 1 0\nshow 29\n<doc><head>He</head>llo</doc>\nneed 2\nhistory 2\n\
         split 0.0 2\nwrap 0 0 1 head\nverdicts 3\n. valid 0\n0 possible 2\n0.0 valid 2\n",
    ),
];

const PAIR: &str = "<!ELEMENT a (b)> <!ELEMENT b EMPTY>";

static COMPLETIONS: [Row<'static>; 5] = [
    (
        PAIR,
        "a",
        "<a/>",
        "complete\nshow\n",
        "completed 1 14\n<a><b></b></a>\nshow 4\n<a/>\n",
    ),
    (
        PAIR,
        "a",
        "<a><b/></a>",
        "complete\r\ncomplete 0",
        "completed 0 11\n<a><b/></a>\nno command\n",
    ),
    (
        PAIR,
        "a",
        "<!DOCTYPE a>\n<b/>\n",
        "need\ncomplete\n",
        "need 1\ncompleted 1 25\n<!DOCTYPE a>\n<a><b/></a>\n\n",
    ),
    (
        ARTICLE,
        "doc",
        "<doc>Hello</doc>",
        "complete\nwrap 0 0 1 head\nneed\nundo\nhistory\nverdicts\n",
        "completed 2 40\n<doc><head>Hello</head><sec></sec></doc>\nok 2 1 0\nneed 1\nok 1 1 0\n\
         history 0\nverdicts 2\n. valid 0\n0 possible 2\n",
    ),
    (DOUBLING, "t0", "<t0/>", "complete\n", "no heavy\n"),
];

const MARKING_UP: &str =
    "need\nwrap 0.3 0 3 p\nwrap 0.3 1 4 p\ninsert 0.3 0 title\naddtext 0.3.0 0 Opening\n\
     rename 0.3.2 list\nundo\nwrap 0.3 1 2 head\nunwrap 0.3.1.1\nneed\nshow\n";

const MARKED_UP: &str =
    "need 1\nok 2 1 0\nok 2 0 0\nok 2 0 0\nok 1 0 0\nok 2 1 0\nok 2 0 0\nno impossible 0.3\n\
     no shape not-element\nneed 0\nshow 288
<?xml version=\"1.0\" encoding=\"UTF-8\"?>
<!DOCTYPE doc SYSTEM \"a.dtd\">
<!-- draft -->
<doc id=\"d1\">
<head>On caf&#233;s</head>
<sec class='intro'><title>Opening</title><p>
Cafés opened early. See <![CDATA[<menu>]]> below.
</p><p><em>Tea</em> came later.<br /></p>
</sec>
<?page 2?>
</doc>

";

// The script has these replies, in whatever pieces it comes. The input is asked no more than once
// for each byte and once more: the call after would fail.
fn check<R: AllocGlobal + Threads + Sync>(rt: &R, row: &Row<'_>) -> Result<(), Fail> {
    let words = ["session", "a.dtd", row.1, "d.xml"];
    let files = [("a.dtd", row.0), ("d.xml", row.2)];
    let behind = [(row.3.len() as u64).saturating_add(1)];
    for size in [1usize, 65_536] {
        let given = Given {
            input: row.3.as_bytes(),
            piece: Piece { size },
            failing_fills: &behind,
            ..Given::plain(&words, &files)
        };
        check_run(rt, row.2, &given, Status::Done, row.4.as_bytes())?;
    }
    Ok(())
}

#[test]
fn needs(rt: HostRuntime) -> Result<(), Fail> {
    for (dtd, root, docs) in &NUMBERS {
        for (doc, reply) in *docs {
            check(&rt, &(*dtd, *root, *doc, "need\n", *reply))?;
        }
    }
    for row in &NEEDS {
        check(&rt, row)?;
    }
    check(&rt, &(ARTICLE, "doc", REALISTIC, MARKING_UP, MARKED_UP))
}

#[test]
fn completions(rt: HostRuntime) -> Result<(), Fail> {
    for row in &COMPLETIONS {
        check(&rt, row)?;
    }
    Ok(())
}

// The first list that is too wide for weights is told where it isn't valid, and before that too
// many elements are missing.
#[test]
fn wide_lists(rt: HostRuntime) -> Result<(), Fail> {
    let alloc = rt.alloc();
    let sections = nested(alloc, 1057, "<sec/>", "</doc>", "")?;
    let wide = format!(in alloc; "<doc>{sections}")?;
    check(
        &rt,
        &(
            ARTICLE,
            "doc",
            wide.as_str(),
            "need\ncomplete\n",
            "no wide 0\nno wide 0\n",
        ),
    )?;
    let valid = format!(in alloc; "<doc><head/>{sections}")?;
    check(&rt, &(ARTICLE, "doc", valid.as_str(), "need\n", "need 0\n"))
}
