//! Laws of sessions.

ghost use Rattle.pv_session.specs.SessionFacts.{IsSession};
ghost use Rattle.pv_session.specs.Laws.{ReplaysToOne, StepsHaveOneAnswer};

use crate::session::Session;
use pv_cache::laws::{accepted_law, one_bad_law, one_ground_law, one_open_law};

/// Edits lead from a document to one other at most.
pub fn replay_law()
    ensures { ReplaysToOne }
{}

/// A move has one answer, and there is one session after it.
pub fn one_answer_law()
    ensures { StepsHaveOneAnswer }
{
    accepted_law::<u64, u64>();
    one_ground_law::<u64>();
    one_open_law();
    one_bad_law();
}

/// What each session keeps.
pub fn session_law(_session: &Session)
    ensures { IsSession _session.now }
{
    _session.invariant_law();
}
