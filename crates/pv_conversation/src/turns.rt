//! The reply to a line of a session's script.

ghost use Rattle.std.specs.Prelude.{◌≡◌, ◌≤◌, ◌+◌, false, IfOk, MatchOption, OnErr, vec_len};
ghost use Rattle.pv_cache.specs.Moves.{HasBad};
ghost use Rattle.pv_conversation.specs.CountedLines.{CountsOneLine, is_move};
ghost use Rattle.pv_conversation.specs.Session.{TellsMove};
ghost use Rattle.pv_conversation.specs.Turns.{IsAnswerOf, IsFollowed, IsReplyBy, IsTurn};
ghost use Rattle.pv_session.specs.Sessions.{stamped_document};

use crate::answers::{Answer, no_command, okay, other, shown, take_room};
use crate::missing::{complete, need};
use crate::offers::offer;
use crate::opened_session::OpenedSession;
use pv_chars::{Bytes, NoMemory};
use pv_dtd::laws::proper_dtd_law;
use pv_edit::{Done, Edit, EditAnswer, Edits};
use pv_script::{Command, CommandError, Reply, read_command};
use pv_session::laws::session_law;
use pv_session::{BackAnswer, Session};
use pv_steps::Steps;
use pv_write::doc_bytes;
use std::alloc::Global;
use std::sync::ledger::Ledger;
use std::thread::Threads;

// The reply to a move that was made.
fn made(session: &OpenedSession, done: Done, room: Vec<u8>) -> Answer
    requires room { 64 ≤ vec_len room }
    requires few { done.checked ≤ 2 }
    requires bad { HasBad (stamped_document session.now) done.bad }
    ensures tells { TellsMove session.now done }
    ensures answers { IsAnswerOf (Reply.Okay done) result }
{
    let now = session.session();
    session_law(now);
    proper_dtd_law(now.grammar().dtd());
    okay(done, room)
}

// The reply to an edit. Nothing after the edit takes memory where it was made.
fn edit<L: Ledger>(
    alloc: Global,
    session: &mut OpenedSession,
    edit: &Edit,
    steps: &mut Steps<L>,
) -> Result<Answer, NoMemory>
    ensures replied { IfOk result (IsReplyBy session.old (Command.Edit edit.now) session.new) }
    ensures stays { OnErr result (session.new ≡ session.old) }
    ensures steps { steps.new ≤ steps.old + 2 }
    ensures later { steps.old ≤ steps.new }
{
    let room = take_room(alloc)?;
    match session.edit(edit, steps) {
        Ok(done) => Ok(made(session, done, room)),
        Err(EditAnswer::Shape(reason)) => other(alloc, &Reply::Shape(reason)),
        Err(EditAnswer::Impossible(path)) => other(alloc, &Reply::Impossible(path)),
        Err(EditAnswer::Limit) => other(alloc, &Reply::Limit),
        Err(EditAnswer::NoMemory) => Err(NoMemory),
    }
}

// The reply to an undo.
fn undo<L: Ledger>(
    alloc: Global,
    session: &mut OpenedSession,
    steps: &mut Steps<L>,
) -> Result<Answer, NoMemory>
    ensures replied { IfOk result (IsReplyBy session.old Command.Undo session.new) }
    ensures stays { OnErr result (session.new ≡ session.old) }
    ensures steps { steps.new ≤ steps.old + 2 }
    ensures later { steps.old ≤ steps.new }
{
    let room = take_room(alloc)?;
    match session.undo(steps) {
        Ok(done) => Ok(made(session, done, room)),
        Err(BackAnswer::NoHistory) => other(alloc, &Reply::NoHistory),
        Err(BackAnswer::NoMemory) => Err(NoMemory),
    }
}

// The reply to a redo.
fn redo<L: Ledger>(
    alloc: Global,
    session: &mut OpenedSession,
    steps: &mut Steps<L>,
) -> Result<Answer, NoMemory>
    ensures replied { IfOk result (IsReplyBy session.old Command.Redo session.new) }
    ensures stays { OnErr result (session.new ≡ session.old) }
    ensures steps { steps.new ≤ steps.old + 2 }
    ensures later { steps.old ≤ steps.new }
{
    let room = take_room(alloc)?;
    match session.redo(steps) {
        Ok(done) => Ok(made(session, done, room)),
        Err(BackAnswer::NoHistory) => other(alloc, &Reply::NoHistory),
        Err(BackAnswer::NoMemory) => Err(NoMemory),
    }
}

// The reply to `history`.
fn history(alloc: Global, session: &Session) -> Result<Answer, NoMemory>
    ensures { IfOk result (IsReplyBy session.now Command.History session.now) }
{
    let past = session.history();
    let mut edits = Vec::new(alloc);
    for edit in past {
        edits.push(edit.copy(alloc)?)?;
    }
    other(alloc, &Reply::History(Edits::of(edits)))
}

// The reply to `show`.
fn show(alloc: Global, session: &Session) -> Result<Answer, NoMemory>
    ensures { IfOk result (IsReplyBy session.now Command.Show session.now) }
{
    let bytes = doc_bytes(alloc, session.doc())?;
    shown(alloc, Bytes::of(bytes))
}

// The reply to `verdicts`.
fn verdicts(alloc: Global, session: &Session) -> Result<Answer, NoMemory>
    ensures { IfOk result (IsReplyBy session.now Command.Verdicts session.now) }
{
    let rows = session.verdict_rows()?;
    other(alloc, &Reply::Verdicts(rows))
}

// The reply to a command, or none where it ends the session.
fn follow<L: Ledger>(
    rt: &(impl Threads + Sync),
    alloc: Global,
    session: &mut OpenedSession,
    command: &Command,
    steps: &mut Steps<L>,
) -> Result<Option<Answer>, NoMemory>
    ensures followed { IfOk result (IsFollowed session.old command.now session.new) }
    ensures stays { OnErr result (session.new ≡ session.old) }
    ensures counts { is_move command.now ≡ false → steps.new ≡ steps.old }
    ensures uncounted { IfOk result (λ answer. MatchOption answer (steps.new ≡ steps.old)
        (λ _. Unit {0})) }
    ensures steps { steps.new ≤ steps.old + 2 }
    ensures later { steps.old ≤ steps.new }
{
    match command {
        Command::Edit(change) => Ok(Some(edit(alloc, session, change, steps)?)),
        Command::Undo => Ok(Some(undo(alloc, session, steps)?)),
        Command::Redo => Ok(Some(redo(alloc, session, steps)?)),
        Command::History => Ok(Some(history(alloc, session.session())?)),
        Command::Show => Ok(Some(show(alloc, session.session())?)),
        Command::Verdicts => Ok(Some(verdicts(alloc, session.session())?)),
        Command::Need => Ok(Some(need(alloc, session)?)),
        Command::Complete => Ok(Some(complete(alloc, session)?)),
        Command::Offer(ask) => Ok(Some(offer(rt, alloc, session, ask)?)),
        Command::Quit => Ok(None),
    }
}

/// The reply to a line, or none where it ends the session.
pub fn turn<L: Ledger>(
    rt: &(impl Threads + Sync),
    alloc: Global,
    session: &mut OpenedSession,
    line: &[u8],
    steps: &mut Steps<L>,
) -> Result<Option<Answer>, NoMemory>
    ensures turned { IfOk result (IsTurn session.old line.now session.new) }
    ensures stays { OnErr result (session.new ≡ session.old) }
    ensures counts { CountsOneLine line.now steps.old steps.new }
    ensures uncounted { IfOk result (λ answer. MatchOption answer (steps.new ≡ steps.old)
        (λ _. Unit {0})) }
    ensures steps { steps.new ≤ steps.old + 2 }
    ensures later { steps.old ≤ steps.new }
{
    match read_command(alloc, line) {
        Ok(command) => follow(rt, alloc, session, &command, steps),
        Err(CommandError::Unknown) => Ok(Some(no_command())),
        Err(CommandError::NoMemory) => Err(NoMemory),
    }
}
