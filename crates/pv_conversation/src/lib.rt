//! The conversation of a session: its script comes in pieces, each line is read as a command, and
//! has one reply (`specs/Session.antt`), which is held before it is written
//! (`specs/ReplyBuffer.antt`); each line is answered before more of the script is asked for.
//! `begin` begins a session on an opened document, `turn` answers one line, and `converse` a whole
//! script, whatever the pieces are in which it comes.
#![tactic(auto)]

mod answers;
mod beginning;
pub mod laws;
mod line_room;
mod missing;
mod offers;
mod opened_session;
mod reply_buffer;
mod talk;
mod turns;
mod verdict_lines;

pub use answers::{Answer, ReplyText};
pub use beginning::begin;
pub use opened_session::OpenedSession;
pub use talk::converse;
pub use turns::turn;
