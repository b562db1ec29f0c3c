//! The commands of a script.

ghost use Rattle.std.specs.Prelude.{◌≡◌, Some, None, Err, IfOk};
ghost use Rattle.pv_script.specs.Commands.{SpellsCommand, IsNoCommand, ReadsAs};
ghost use Rattle.pv_script.specs.LineReading.{command_of, command_with};

use crate::arguments::{first_word, is_word, read_edit};
use crate::asks::read_ask;
use crate::errors::CommandError;
use pv_edit::{Ask, Edit};
use std::alloc::Global;

/// What a line asks for.
#[derive(Debug, Drop)]
pub enum Command {
    /// `wrap`, `insert`, `unwrap`, `rename`, `split`, `join`, `text`, `addtext` or `deltext`: make
    /// this edit.
    Edit(Edit),
    /// `undo`: take the last edit back.
    Undo,
    /// `redo`: make the edit again that was taken back last.
    Redo,
    /// `history`: tell the edits that were made.
    History,
    /// `show`: tell the document.
    Show,
    /// `verdicts`: tell of each list its verdict, and the number of the move that changed it last.
    Verdicts,
    /// `need`: tell how many elements are missing.
    Need,
    /// `complete`: tell the document with the elements that are missing.
    Complete,
    /// `offer`: tell the names that may be put there.
    Offer(Ask),
    /// `quit`: end the session.
    Quit,
}

// The command of this word with these arguments.
fn command_with(alloc: Global, word: &[u8], bytes: &[u8]) -> Result<Command, CommandError>
    ensures { ReadsAs (command_with word.now bytes.now) result }
{
    if is_word(word, b"offer") {
        Ok(Command::Offer(read_ask(alloc, bytes)?))
    } else {
        Ok(Command::Edit(read_edit(alloc, word, bytes)?))
    }
}

// The command that a line is, read from the left.
fn command_of(alloc: Global, line: &[u8]) -> Result<Command, CommandError>
    ensures { ReadsAs (command_of line.now) result }
{
    if is_word(line, b"undo") {
        Ok(Command::Undo)
    } else if is_word(line, b"redo") {
        Ok(Command::Redo)
    } else if is_word(line, b"history") {
        Ok(Command::History)
    } else if is_word(line, b"show") {
        Ok(Command::Show)
    } else if is_word(line, b"verdicts") {
        Ok(Command::Verdicts)
    } else if is_word(line, b"need") {
        Ok(Command::Need)
    } else if is_word(line, b"complete") {
        Ok(Command::Complete)
    } else if is_word(line, b"quit") {
        Ok(Command::Quit)
    } else {
        let (word, bytes) = first_word(line)?;
        command_with(alloc, word, bytes)
    }
}

/// The command that the line is, without the CR bytes at its end.
pub fn read_command(alloc: Global, line: &[u8]) -> Result<Command, CommandError>
    ensures read { IfOk result (λ command. SpellsCommand line.now command) }
    ensures unknown { result ≡ Err CommandError.Unknown → IsNoCommand line.now }
{
    command_of(alloc, line)
}
