//! Questions of which names may be put somewhere, read from their words.

ghost use Rattle.pv_script.specs.Commands.{ReadsAs};
ghost use Rattle.pv_script.specs.LineReading.{ask_of, rename_asked_of, wrap_asked_of};

use crate::arguments::{first_word, read_number, read_path};
use crate::errors::CommandError;
use pv_edit::Ask;
use std::alloc::Global;

// The arguments of `offer` where a new element is asked of.
fn read_wrap(alloc: Global, bytes: &[u8]) -> Result<Ask, CommandError>
    ensures { ReadsAs (wrap_asked_of bytes.now) result }
{
    let (word, rest) = first_word(bytes)?;
    let path = read_path(alloc, word)?;
    let (word, rest) = first_word(rest)?;
    let from = read_number(word)?;
    let to = read_number(rest)?;
    Ok(Ask::Wrap { path, from, to })
}

// The argument of `offer` where an element's own name is asked of.
fn read_rename(alloc: Global, bytes: &[u8]) -> Result<Ask, CommandError>
    ensures { ReadsAs (rename_asked_of bytes.now) result }
{
    let path = read_path(alloc, bytes)?;
    Ok(Ask::Rename { path })
}

/// What is asked with these arguments of `offer`.
pub(crate) fn read_ask(alloc: Global, bytes: &[u8]) -> Result<Ask, CommandError>
    ensures { ReadsAs (ask_of bytes.now) result }
{
    match first_word(bytes) {
        Ok(_) => read_wrap(alloc, bytes),
        Err(_) => read_rename(alloc, bytes),
    }
}
