//! The program, whatever its files, its input and its output are. Each command goes through the
//! order of work, stage by stage (of `pv_opening`): by its form its files are opened (`forms`), and
//! then it does what its verb does: it responds (`pv_commands`), or answers a script, piece by
//! piece (`session`, of `pv_conversation`); `drill` answers a script of its own. `pvtag` promises
//! the status and the bytes that are defined for its words and files, each fault with its cause,
//! and how often its shelf and its input are asked (`specs/Program.antt`).
#![tactic(auto)]

mod checker;
mod command_line;
mod commands;
mod forms;
pub mod laws;
mod program;
mod verb;

pub use program::pvtag;
pub use pv_opening::Status;
