//! Scripts: their lines, their commands, and the replies.
//!
//! `Lines` takes the lines (`lines_of`) from pieces of a script, as `specs/TakenLines.antt`
//! says. `read_command` gives the command that a line spells (`specs/Commands.antt`), and
//! `edit_line` writes the line of an edit (`specs/Edits.antt`). `reply_text` gives the bytes of a
//! reply (`specs/Replies.antt`), and `okay_text` those of `ok` with no memory. Paths and numbers
//! as text are those of `pv_words`.
#![tactic(auto)]

mod arguments;
mod asks;
mod commands;
mod edits;
mod errors;
mod fixed;
pub mod laws;
mod lines;
mod okay;
mod replies;

pub use commands::{Command, read_command};
pub use errors::CommandError;
pub use fixed::edit_line;
pub use lines::{Lines, MAX_LINE_BYTES, Took};
pub use okay::{limit_line_text, okay_text};
pub use pv_words::{push_number, push_path, without_returns, written_number, written_path};
pub use replies::{Reply, no_command_text, no_memory_text, reply_text};
