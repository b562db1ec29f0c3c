//! The replies to `need` and `complete`: how many elements are missing in a session's document, and
//! the document with them.

ghost use Rattle.std.specs.Prelude.{◌≡◌, IfOk, IfSome, IsTrue, MatchOption, None};
ghost use Rattle.pv_cache.specs.Rows.{TellVerdicts};
ghost use Rattle.pv_conversation.specs.MissingReplies.{TellsCompletion, TellsNeed, Withholds};
ghost use Rattle.pv_conversation.specs.Session.{done_of};
ghost use Rattle.pv_conversation.specs.Turns.{IsReplyBy};
ghost use Rattle.pv_complete.specs.NeededElements.{HasCause, Needs};
ghost use Rattle.pv_complete.specs.RememberedGrammar.{Remembers};
ghost use Rattle.pv_session.specs.Sessions.{stamped_document};
ghost use Rattle.pv_tree.specs.Prolog.{IsProlog};

use crate::answers::{Answer, completed, other};
use crate::opened_session::OpenedSession;
use pv_chars::NoMemory;
use pv_complete::{Completion, NeedError, Remembered, complete_remembering, need_remembering};
use pv_dtd::laws::proper_dtd_law;
use pv_missing::Verdicts;
use pv_missing::laws::verdicts::{none_impossible_law, none_possible_law};
use pv_script::{Command, Reply};
use pv_session::Session;
use pv_session::laws::session_law;
use pv_tree::Path;
use std::alloc::Global;

// The reply where a list is impossible, if one is.
fn impossible(
    alloc: Global,
    session: &Session,
    verdicts: &Verdicts,
) -> Result<Option<Reply>, NoMemory>
    requires { TellVerdicts (stamped_document session.now) verdicts.now }
    ensures withholds { IfOk result (λ told. MatchOption told (verdicts.now.first ≡ None)
        (Withholds session.now)) }
    ensures not_done { IfOk result (λ told. IfSome told (λ told. done_of told ≡ None)) }
{
    session_law(session);
    proper_dtd_law(session.grammar().dtd());
    match verdicts.first_impossible() {
        None => Ok(None),
        Some(path) => Ok(Some(Reply::Impossible(Path::new(alloc, path.places())?))),
    }
}

// The reply where the number isn't told, though no list is impossible. In a session none is too
// wide for a verdict.
fn refusal_reply(session: &Session, error: NeedError) -> Result<Reply, NoMemory>
    requires { ∥ HasCause session.now.dtd session.now.root session.now.doc error ∥₁ }
    ensures withholds { IfOk result (Withholds session.now) }
    ensures not_done { IfOk result (λ told. done_of told ≡ None) }
{
    session_law(session);
    proper_dtd_law(session.grammar().dtd());
    match error {
        NeedError::TooWide(path) => Ok(Reply::Wide(path)),
        NeedError::TooHeavy => Ok(Reply::Heavy),
        NeedError::NoMemory => Err(NoMemory),
        NeedError::Impossible(path) => Ok(Reply::Impossible(path)),
        NeedError::TooMany => unreachable!(),
    }
}

// The least number of missing elements, or why it isn't told; no list is impossible.
fn need_reply_by(
    alloc: Global,
    session: &Session,
    verdicts: &Verdicts,
    remembered: &mut Remembered,
) -> Result<Reply, NoMemory>
    requires remembers { Remembers session.now.dtd remembered.old }
    requires verdicts { TellVerdicts (stamped_document session.now) verdicts.now }
    requires possible { verdicts.now.first ≡ None }
    ensures tells { IfOk result (TellsNeed session.now) }
    ensures not_done { IfOk result (λ told. done_of told ≡ None) }
    ensures remembers { Remembers session.now.dtd remembered.new }
{
    session_law(session);
    proper_dtd_law(session.grammar().dtd());
    match need_remembering(
        alloc,
        session.grammar(),
        session.root(),
        session.doc(),
        verdicts,
        remembered,
    ) {
        Ok(number) => Ok(Reply::Need(number)),
        Err(error) => refusal_reply(session, error),
    }
}

// Whether no list is Possible or Impossible, so that nothing is missing. The session knows how many
// are, so no list is looked at.
fn is_whole(session: &Session) -> bool
    ensures { IsTrue result →
        ∥ Needs session.now.dtd session.now.root session.now.doc 0 ∥₁ }
{
    session_law(session);
    proper_dtd_law(session.grammar().dtd());
    none_impossible_law::<u64>();
    none_possible_law::<u64>();
    if session.open_count() == 0 {
        if session.bad_count() == 0 {
            return true;
        }
    }
    false
}

/// The least number of missing elements, or why it isn't told, by what is remembered. Where each
/// list is Valid it is 0 at once.
pub fn need_reply(
    alloc: Global,
    session: &Session,
    remembered: &mut Remembered,
) -> Result<Reply, NoMemory>
    requires { Remembers session.now.dtd remembered.old }
    ensures tells { IfOk result (TellsNeed session.now) }
    ensures not_done { IfOk result (λ told. done_of told ≡ None) }
    ensures remembers { Remembers session.now.dtd remembered.new }
{
    if is_whole(session) {
        return Ok(Reply::Need(0));
    }
    let verdicts = session.verdicts()?;
    match impossible(alloc, session, &verdicts)? {
        Some(reply) => Ok(reply),
        None => need_reply_by(alloc, session, &verdicts, remembered),
    }
}

/// The reply to `need`.
pub fn need(alloc: Global, session: &mut OpenedSession) -> Result<Answer, NoMemory>
    ensures replied { IfOk result (IsReplyBy session.old Command.Need session.new) }
    ensures same { session.new ≡ session.old }
{
    let reply = session.need(alloc)?;
    other(alloc, &reply)
}

// The document with the missing elements, or why it isn't told; no list is impossible.
fn completion_reply_by(
    alloc: Global,
    session: &Session,
    verdicts: &Verdicts,
    remembered: &mut Remembered,
) -> Result<Reply, NoMemory>
    requires remembers { Remembers session.now.dtd remembered.old }
    requires prolog { IsProlog session.now.root session.now.doc.before }
    requires verdicts { TellVerdicts (stamped_document session.now) verdicts.now }
    requires possible { verdicts.now.first ≡ None }
    ensures tells { IfOk result (TellsCompletion session.now) }
    ensures not_done { IfOk result (λ told. done_of told ≡ None) }
    ensures remembers { Remembers session.now.dtd remembered.new }
{
    session_law(session);
    proper_dtd_law(session.grammar().dtd());
    match complete_remembering(
        alloc,
        session.grammar(),
        session.root(),
        session.doc(),
        verdicts,
        remembered,
    ) {
        Ok(Completion { count, body, .. }) => Ok(Reply::Completed(count, body)),
        Err(error) => refusal_reply(session, error),
    }
}

/// The document with the missing elements, or why it isn't told, by what is remembered.
pub fn completion_reply(
    alloc: Global,
    session: &Session,
    remembered: &mut Remembered,
) -> Result<Reply, NoMemory>
    requires remembers { Remembers session.now.dtd remembered.old }
    requires prolog { IsProlog session.now.root session.now.doc.before }
    ensures tells { IfOk result (TellsCompletion session.now) }
    ensures not_done { IfOk result (λ told. done_of told ≡ None) }
    ensures remembers { Remembers session.now.dtd remembered.new }
{
    let verdicts = session.verdicts()?;
    match impossible(alloc, session, &verdicts)? {
        Some(reply) => Ok(reply),
        None => completion_reply_by(alloc, session, &verdicts, remembered),
    }
}

/// The reply to `complete`. The session's document stays as it is.
pub fn complete(alloc: Global, session: &mut OpenedSession) -> Result<Answer, NoMemory>
    ensures replied { IfOk result (IsReplyBy session.old Command.Complete session.new) }
    ensures same { session.new ≡ session.old }
{
    let reply = session.complete(alloc)?;
    match reply {
        Reply::Completed(count, body) => completed(alloc, count, body),
        other_reply => other(alloc, &other_reply),
    }
}
