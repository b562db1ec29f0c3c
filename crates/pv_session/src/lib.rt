//! Guarded sessions: edits of a document, each refused exactly where it could not be made, would be
//! past a limit, or would leave more impossible lists than before. A document has none exactly
//! where inserting elements can make it valid.
//!
//! What a session is at is a `PlainSession` (specs/Sessions.antt): the document that was opened,
//! the edits since, those that were undone, and the document now with a stamp beside each list.
//! `IsAccepted` (of pv_cache) says which edits are accepted, and specs/Steps.antt what `edit`,
//! `undo` and `redo` answer and leave after. What each session keeps stands in
//! specs/SessionFacts.antt: in place of the opened document the ways back to it.
#![tactic(auto)]

mod answers;
pub mod laws;
mod session;

pub use answers::BackAnswer;
pub use session::Session;
