//! Laws, as functions that do nothing.

ghost use Rattle.law_many.specs.Laws.{NeedIsReply};

/// What is answered of the elements that are missing in a document is how a session on it may end
/// whose script is the line `need`.
pub fn need_is_reply_law()
    ensures { NeedIsReply }
{}
