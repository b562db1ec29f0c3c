//! What is offered, against each declared name tried as an edit and taken back.

ghost use Rattle.std.specs.Prelude.{◌≡◌, ◌≤◌, ◌<◌};
ghost use Rattle.pv_cache.specs.AcceptedEdits.{MAX_EDITED_NODES};
ghost use Rattle.pv_tree.specs.Plain.{nodes_in};
ghost use Rattle.pv_tree.specs.PlainDocs.{plain_doc};

use pv_cache::PlannedGrammar;
use pv_chars::{Bytes, bytes_of};
use pv_edit::{Ask, Edit};
use pv_fresh::check_doc;
use pv_model::NameId;
use pv_offer::offer;
use pv_productive::{Grammar, build};
use pv_read::read_doc;
use pv_script::{Command, read_command};
use pv_session::Session;
use pv_steps::Steps;
use pv_tree::Doc;
use std::alloc::Global;
use std::marker::Brand;
use std::sync::ledger::{Blank, Ledger};
use std::test::Fail;
use std::thread::Threads;
use test_fixture::documents::dtd_of;
use test_fixture::dtds::{ANY_OR_ENDLESS, ARTICLE, MIXED, NESTED, REALISTIC};

/// The greatest number of nodes of a document in a session.
const MAX_NODES: u64 = 33_554_432;

// A DTD, a root and a document.
type Texts = (&'static str, &'static str, &'static str);

// A document, an edit without its name and the place of it, and how many names are offered there.
type Row = (Texts, &'static str, &'static str, usize);

const SWAPPED: Texts = (ARTICLE, "doc", "<doc><sec/><head/></doc>");

const HELLO: Texts = (ARTICLE, "doc", "<doc>Hello</doc>");

const PARAGRAPH: Texts = (ARTICLE, "doc", "<doc><p>a</p></doc>");

const MARKED: Texts = (ARTICLE, "doc", REALISTIC);

static ROWS: [Row; 16] = [
    (HELLO, "wrap", "0 0 1", 7),
    ((ARTICLE, "doc", "<p>a</p>"), "wrap", ". 0 1", 4),
    (PARAGRAPH, "rename", "0.0", 7),
    (PARAGRAPH, "rename", "0", 4),
    // An impossible document.
    (SWAPPED, "wrap", "0 0 1", 1),
    (SWAPPED, "wrap", "0 0 2", 8),
    (SWAPPED, "rename", "0.0", 9),
    (
        (ARTICLE, "doc", "<doc><br>x</br></doc>"),
        "rename",
        "0.0",
        9,
    ),
    ((ARTICLE, "doc", "<u><v/></u>"), "rename", "0.0", 9),
    // Names that are only mentioned aren't offered.
    ((ANY_OR_ENDLESS, "a", "<a><a/>x</a>"), "wrap", "0 0 2", 1),
    ((ANY_OR_ENDLESS, "a", "<a><b/>x</a>"), "rename", "0.0", 2),
    ((MIXED, "a", "<a>x<b/></a>"), "rename", "0.1", 1),
    ((NESTED, "x", "<x><y/><y/><y/></x>"), "wrap", "0 1 2", 0),
    (MARKED, "wrap", "0.3 0 3", 5),
    (MARKED, "rename", "0.3.3", 4),
    (MARKED, "wrap", "0.3 0 0", 6),
];

// A session on a document.
fn begin_on<L: Ledger>(
    alloc: Global,
    grammar: Grammar,
    root: &[u8],
    doc: Doc,
    steps: &mut Steps<L>,
) -> Result<Session, Fail>
    requires { nodes_in (plain_doc doc).root ≤ MAX_EDITED_NODES }
{
    let verdicts = check_doc(alloc, &grammar, root, &doc, steps)?;
    let root = bytes_of(alloc, root)?;
    let grammar = PlannedGrammar::of(alloc, grammar)?;
    Ok(Session::begin_by(alloc, grammar, root, doc, verdicts))
}

// A session on the document of these texts.
fn begin<L: Ledger>(alloc: Global, texts: Texts, steps: &mut Steps<L>) -> Result<Session, Fail> {
    let (dtd, root, text) = texts;
    let doc = read_doc(alloc, text.as_bytes(), root.as_bytes())?;
    if doc.nodes() > MAX_NODES {
        return Err(Fail::new("too many nodes"));
    }
    let grammar = build(alloc, dtd_of(alloc, dtd)?)?;
    begin_on(alloc, grammar, root.as_bytes(), doc, steps)
}

// The question what is offered at a place.
fn ask_of(alloc: Global, place: &str) -> Result<Ask, Fail> {
    let line = format!(in alloc; "offer {place}")?;
    match read_command(alloc, line.as_bytes())? {
        Command::Offer(ask) => Ok(ask),
        _ => Err(Fail::new("no question")),
    }
}

// The edit of this line with a name.
fn edit_of(alloc: Global, line: &str, name: &[u8]) -> Result<Edit, Fail> {
    let mut bytes = Vec::from_slice(alloc, line.as_bytes())?;
    bytes.push(b' ')?;
    bytes.extend_from_slice(name)?;
    match read_command(alloc, &bytes)? {
        Command::Edit(edit) => Ok(edit),
        _ => Err(Fail::new("no edit")),
    }
}

// The declared names of a session's DTD.
fn names_of(alloc: Global, session: &Session) -> Result<Vec<Bytes>, Fail> {
    let dtd = session.grammar().dtd();
    let mut names = Vec::new(alloc);
    for number in 0..dtd.count() {
        names.push(bytes_of(alloc, dtd.name_of(NameId(number)))?)?;
    }
    Ok(names)
}

// Tries the edit with a name, and takes it back: whether it was made.
fn is_made<L: Ledger>(
    alloc: Global,
    session: &mut Session,
    line: &str,
    name: &[u8],
    steps: &mut Steps<L>,
) -> Result<bool, Fail> {
    let edit = edit_of(alloc, line, name)?;
    if session.edit(&edit, steps).is_err() {
        return Ok(false);
    }
    if session.undo(steps).is_err() {
        return Err(Fail::new("the edit isn't taken back"));
    }
    Ok(true)
}

// Of the declared names exactly those that are offered can be made, in their order.
fn try_each<L: Ledger>(
    alloc: Global,
    session: &mut Session,
    line: &str,
    offered: &[Bytes],
    steps: &mut Steps<L>,
) -> Result<(), Fail> {
    let names = names_of(alloc, session)?;
    let mut rest = offered;
    for name in &names {
        if is_made(alloc, session, line, name.as_slice(), steps)? {
            let Some((first, others)) = rest.split_first() else {
                return Err(Fail::new("a name isn't offered"));
            };
            if first.as_slice() != name.as_slice() {
                return Err(Fail::new("another name is offered"));
            }
            rest = others;
        }
    }
    if !rest.is_empty() {
        return Err(Fail::new("a name is offered that is refused"));
    }
    Ok(())
}

// What a session offers on a row, against each name.
fn check_offered<R: AllocGlobal + Threads + Sync, L: Ledger>(
    rt: &R,
    session: &mut Session,
    row: &Row,
    steps: &mut Steps<L>,
) -> Result<(), Fail> {
    let alloc = rt.alloc();
    let (_, verb, place, count) = row;
    let line = format!(in alloc; "{verb} {place}")?;
    let ask = ask_of(alloc, place)?;
    let offered = offer(rt, alloc, session.marked(), &ask)?;
    let names = offered.as_slice();
    if names.len() != *count {
        return Err(Fail::new(format_args!("{line}: another number of names")));
    }
    try_each(alloc, session, &line, names, steps)
}

// What a session on the row's document offers, against each name.
fn check_row<R: AllocGlobal + Threads + Sync, L: Ledger>(
    rt: &R,
    row: &Row,
    blank: Blank,
) -> Result<(), Fail>
    requires name { blank.name ≡ L.name }
    requires parts { blank.parts ≡ L.parts }
    requires some { 0 < L.parts }
{
    let mut steps = Steps::<L>::start(blank);
    let mut session = begin(rt.alloc(), row.0, &mut steps)?;
    check_offered(rt, &mut session, row, &mut steps)
}

#[test]
fn each_name(rt: HostRuntime) -> Result<(), Fail> {
    for row in &ROWS {
        check_row::<HostRuntime, Brand>(&rt, row, Blank::new(1))?;
    }
    Ok(())
}
