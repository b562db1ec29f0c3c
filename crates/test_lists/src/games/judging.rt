//! What is judged of an edit, against what is answered where it is made.

ghost use Rattle.std.specs.Prelude.{◌≡◌, ◌<◌, ◌≤◌};
ghost use Rattle.pv_cache.specs.AcceptedEdits.{MAX_EDITED_NODES};
ghost use Rattle.pv_tree.specs.Plain.{nodes_in};
ghost use Rattle.pv_tree.specs.PlainDocs.{plain_doc};

use pv_cache::{Marked, PlannedGrammar};
use pv_chars::bytes_of;
use pv_edit::{Edit, EditAnswer, Reason};
use pv_fresh::check_doc;
use pv_productive::{Grammar, build};
use pv_read::read_doc;
use pv_script::{Command, read_command};
use pv_steps::Steps;
use pv_tree::Doc;
use std::alloc::Global;
use std::marker::Brand;
use std::sync::ledger::{Blank, Ledger};
use std::test::Fail;
use test_fixture::documents::dtd_of;
use test_fixture::dtds::ARTICLE;

/// The greatest number of nodes of a document that is edited.
const MAX_NODES: u64 = 33_554_432;

// A document with its verdicts, by a plan that is laid out before or with them.
fn marked_on<L: Ledger>(
    alloc: Global,
    grammar: Grammar,
    root: &[u8],
    doc: Doc,
    is_planned: bool,
    steps: &mut Steps<L>,
) -> Result<Marked, Fail>
    requires { nodes_in (plain_doc doc).root ≤ MAX_EDITED_NODES }
{
    let verdicts = check_doc(alloc, &grammar, root, &doc, steps)?;
    let root = bytes_of(alloc, root)?;
    if is_planned {
        let grammar = PlannedGrammar::of(alloc, grammar)?;
        return Ok(Marked::build_by(alloc, grammar, root, doc, verdicts));
    }
    Ok(Marked::build(alloc, grammar, root, doc, verdicts)?)
}

// The document of a text with its verdicts, for the root doc, by a plan that is laid out before or
// with them.
fn marked<L: Ledger>(
    alloc: Global,
    text: &str,
    is_planned: bool,
    steps: &mut Steps<L>,
) -> Result<Marked, Fail> {
    let doc = read_doc(alloc, text.as_bytes(), b"doc")?;
    if doc.nodes() > MAX_NODES {
        return Err(Fail::new("too many nodes"));
    }
    let grammar = build(alloc, dtd_of(alloc, ARTICLE)?)?;
    marked_on(alloc, grammar, b"doc", doc, is_planned, steps)
}

// What an answer says: an impossible list's path, or a reason.
fn told(answer: &EditAnswer) -> (&'static str, &[u32]) {
    match answer {
        EditAnswer::Impossible(path) => ("impossible", path.places()),
        EditAnswer::Shape(Reason::Range) => ("range", &[]),
        EditAnswer::Shape(_) => ("shape", &[]),
        EditAnswer::Limit => ("limit", &[]),
        EditAnswer::NoMemory => ("memory", &[]),
    }
}

// The edit is refused in this way, where it is judged and where it is made.
fn expect_refused<L: Ledger>(
    document: &mut Marked,
    edit: &Edit,
    wanted: (&str, &[u32]),
    steps: &mut Steps<L>,
) -> Result<(), Fail> {
    match document.judge(edit, steps) {
        Ok(()) => return Err(Fail::new("an edit that is refused is judged to be accepted")),
        Err(ground) => {
            if told(&ground) != wanted {
                return Err(Fail::new("an edit is judged on another ground"));
            }
        }
    }
    match document.edit(edit, 1, steps) {
        Ok(_) => Err(Fail::new("an edit is made that is refused")),
        Err(answer) => {
            if told(&answer) == wanted {
                Ok(())
            } else {
                Err(Fail::new("an edit is refused on another ground"))
            }
        }
    }
}

// It is accepted, where it is judged and where it is made, which leaves so many Impossible lists.
fn expect_accepted<L: Ledger>(
    document: &mut Marked,
    edit: &Edit,
    bad: u64,
    steps: &mut Steps<L>,
) -> Result<(), Fail> {
    if document.judge(edit, steps).is_err() {
        return Err(Fail::new("an edit that is accepted is judged to be refused"));
    }
    match document.edit(edit, 1, steps) {
        Ok((done, _)) => {
            if done.bad == bad && document.bad_count() == bad {
                Ok(())
            } else {
                Err(Fail::new("another number of lists is impossible"))
            }
        }
        Err(_) => Err(Fail::new("an edit is refused that is accepted")),
    }
}

// What is wanted of an edit: its ground, or how many lists are Impossible after it.
enum Wanted {
    Refused(&'static str, &'static [u32]),
    Accepted(u64),
}

// Documents, each with a line and what is wanted of its edit.
static JUDGED: [(&str, &str, Wanted); 7] = [
    (
        "<doc>Hello</doc>",
        "wrap 0 0 1 br",
        Wanted::Refused("impossible", &[0, 0]),
    ),
    (
        "<doc>Hello</doc>",
        "wrap 0 2 5 p",
        Wanted::Refused("range", &[]),
    ),
    ("<doc>Hello</doc>", "wrap 0 0 1 head", Wanted::Accepted(0)),
    (
        "<doc><sec/><head/></doc>",
        "wrap 0 0 1 br",
        Wanted::Refused("impossible", &[0]),
    ),
    (
        "<doc><sec/><head/></doc>",
        "unwrap 0.1",
        Wanted::Accepted(0),
    ),
    (
        "<doc><sec/><head/></doc>",
        "wrap 0 0 2 sec",
        Wanted::Accepted(1),
    ),
    (
        "<doc><sec/><head/></doc>",
        "insert 0.1 0 br",
        Wanted::Refused("impossible", &[0, 1]),
    ),
];

// Tries the edit of a line on a document, against what is wanted of it.
fn judge_line<L: Ledger>(
    alloc: Global,
    document: &mut Marked,
    line: &str,
    wanted: &Wanted,
    steps: &mut Steps<L>,
) -> Result<(), Fail> {
    let Command::Edit(edit) = read_command(alloc, line.as_bytes())? else {
        return Err(Fail::new("no edit"));
    };
    match wanted {
        Wanted::Refused(kind, places) => { expect_refused(document, &edit, (kind, places), steps) }
        Wanted::Accepted(bad) => expect_accepted(document, &edit, *bad, steps),
    }
}

// Tries the edit of a line on the document of a text, against what is wanted of it.
fn judge_text<L: Ledger>(
    alloc: Global,
    text: &str,
    is_planned: bool,
    line: &str,
    wanted: &Wanted,
    steps: &mut Steps<L>,
) -> Result<(), Fail> {
    let mut document = marked(alloc, text, is_planned, steps)?;
    judge_line(alloc, &mut document, line, wanted, steps)
}

fn judge_all<L: Ledger>(alloc: Global, blank: Blank) -> Result<(), Fail>
    requires name { blank.name ≡ L.name }
    requires parts { blank.parts ≡ L.parts }
    requires some { 0 < L.parts }
{
    let mut steps = Steps::<L>::start(blank);
    for (text, line, wanted) in &JUDGED {
        for is_planned in [false, true] {
            judge_text(alloc, text, is_planned, line, wanted, &mut steps)?;
        }
    }
    Ok(())
}

#[test]
fn judged_and_made(rt: HostRuntime) -> Result<(), Fail> {
    judge_all::<Brand>(rt.alloc(), Blank::new(1))
}
