//! Laws on what a session does. Their functions do nothing.

ghost use Rattle.pv_conversation.specs.Laws.{EndsAtQuit, HasOneOutput, HasOneReply, JoinsReplies};
ghost use Rattle.pv_conversation.specs.Laws.{MoreChangesNothing, OffersAreKept};

use pv_offer::laws::{no_ground_law, offered_law, one_ground_law, one_offer_law, tried_law};
use pv_script::laws::one_command_law;
use pv_session::laws::one_answer_law;

/// The replies to a script are determined, line by line, but for the documents of completions, and
/// are those to its pieces.
pub fn replies_law()
    ensures reply { HasOneReply }
    ensures one { HasOneOutput }
    ensures joined { JoinsReplies }
    ensures ended { EndsAtQuit }
{
    one_command_law();
    one_answer_law();
    one_offer_law();
    one_ground_law();
    no_ground_law();
}

/// Where `offer` told names in a session, the edit with one of them, tried next, answers `ok`, and
/// that with another declared name `no impossible`.
pub fn offers_law()
    ensures { OffersAreKept }
{
    one_command_law();
    offered_law();
    tried_law();
}

/// A session that a `quit` or a limit ended ends so whatever else its script has.
pub fn whatever_follows_law()
    ensures { MoreChangesNothing }
{}
