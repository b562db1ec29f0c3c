//! Sessions and their moves.

ghost use Rattle.std.specs.Prelude.{◌≤◌};
ghost use Rattle.pv_cache.specs.AcceptedEdits.{MAX_EDITED_NODES};
ghost use Rattle.pv_tree.specs.Plain.{nodes_in};
ghost use Rattle.pv_tree.specs.PlainDocs.{plain_doc};

use crate::calls::Texts;
use pv_chars::bytes_of;
use pv_edit::{Done, EditAnswer};
use pv_fresh::check_doc;
use pv_productive::{Grammar, build};
use pv_read::read_doc;
use pv_script::Command;
use pv_session::{BackAnswer, Session};
use pv_steps::Steps;
use pv_tree::Doc;
use std::alloc::Global;
use std::sync::ledger::Ledger;
use std::test::Fail;
use test_fixture::documents::dtd_of;

/// The greatest number of nodes of a document in a session.
const MAX_NODES: u64 = 33_554_432;

/// A session on the document.
pub fn begin<L: Ledger>(
    alloc: Global,
    texts: Texts,
    steps: &mut Steps<L>,
) -> Result<Session, Fail> {
    let (dtd, root, text) = texts;
    let doc = read_doc(alloc, text.as_bytes(), root.as_bytes())?;
    if doc.nodes() > MAX_NODES {
        return Err(Fail::new("too many nodes"));
    }
    let grammar = build(alloc, dtd_of(alloc, dtd)?)?;
    begin_on(alloc, grammar, root.as_bytes(), doc, steps)
}

// A session on a document.
fn begin_on<L: Ledger>(
    alloc: Global,
    grammar: Grammar,
    root: &[u8],
    doc: Doc,
    steps: &mut Steps<L>,
) -> Result<Session, Fail>
    requires { nodes_in (plain_doc doc).root ≤ MAX_EDITED_NODES }
{
    let verdicts = check_doc(alloc, &grammar, root, &doc, steps)?;
    let root = bytes_of(alloc, root)?;
    Ok(Session::begin(alloc, grammar, root, doc, verdicts)?)
}

// What an undo or a redo did; none where there was nothing to undo or redo.
fn done_back(answer: Result<Done, BackAnswer>) -> Result<Option<Done>, Fail> {
    match answer {
        Ok(done) => Ok(Some(done)),
        Err(BackAnswer::NoHistory) => Ok(None),
        Err(BackAnswer::NoMemory) => Err(Fail::new("no memory")),
    }
}

/// Makes a move: what was done; none where it was refused.
pub fn make<L: Ledger>(
    session: &mut Session,
    command: &Command,
    steps: &mut Steps<L>,
) -> Result<Option<Done>, Fail> {
    match command {
        Command::Edit(edit) => match session.edit(edit, steps) {
            Ok(done) => Ok(Some(done)),
            Err(EditAnswer::NoMemory) => Err(Fail::new("no memory")),
            Err(_) => Ok(None),
        },
        Command::Undo => done_back(session.undo(steps)),
        Command::Redo => done_back(session.redo(steps)),
        _ => Err(Fail::new("no move")),
    }
}
