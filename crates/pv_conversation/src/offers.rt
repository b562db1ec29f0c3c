//! The reply to `offer`: the names that may be put at a place of a session's document.

ghost use Rattle.std.specs.Prelude.{◌≡◌, IfOk};
ghost use Rattle.pv_conversation.specs.Turns.{IsReplyBy};

use crate::answers::{Answer, other};
use crate::opened_session::OpenedSession;
use pv_chars::NoMemory;
use pv_edit::Ask;
use pv_offer::{OfferError, offer as offered};
use pv_script::{Command, Reply};
use pv_session::Session;
use std::alloc::Global;
use std::thread::Threads;

/// The reply to `offer`, found by as many threads as there are processors. The session stays as it
/// is, but for what it looked up, and no list that it judges is counted.
pub fn offer(
    rt: &(impl Threads + Sync),
    alloc: Global,
    session: &mut OpenedSession,
    ask: &Ask,
) -> Result<Answer, NoMemory>
    ensures replied { IfOk result (IsReplyBy session.old (Command.Offer ask.now) session.new) }
    ensures same { session.new ≡ session.old }
{
    session.keep_for(ask);
    offer_by(rt, alloc, session.session(), ask)
}

// The reply to `offer`.
fn offer_by(
    rt: &(impl Threads + Sync),
    alloc: Global,
    session: &Session,
    ask: &Ask,
) -> Result<Answer, NoMemory>
    ensures { IfOk result (IsReplyBy session.now (Command.Offer ask.now) session.now) }
{
    match offered(rt, alloc, session.marked(), ask) {
        Ok(names) => other(alloc, &Reply::Offer(names)),
        Err(OfferError::Shape(reason)) => other(alloc, &Reply::Shape(reason)),
        Err(OfferError::Limit) => other(alloc, &Reply::Limit),
        Err(OfferError::NoMemory) => Err(NoMemory),
    }
}
