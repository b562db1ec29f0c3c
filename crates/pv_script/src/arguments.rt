//! Edits read from their words.

ghost use Rattle.std.specs.Prelude.{◌≡◌, Some, None, MatchResult};
ghost use Rattle.std.specs.Str.{bytes_eq};
ghost use Rattle.pv_script.specs.Commands.{ReadsAs};
ghost use Rattle.pv_script.specs.LineReading.{wrap_of, insert_of, unwrap_of, rename_of};
ghost use Rattle.pv_script.specs.LineReading.{split_of, join_of, set_text_of, add_text_of};
ghost use Rattle.pv_script.specs.LineReading.{del_text_of, edit_of};
ghost use Rattle.pv_words.specs.Numbers.{number_spelled};
ghost use Rattle.pv_words.specs.Paths.{path_spelled};
ghost use Rattle.pv_words.specs.Words.{first_word};

use crate::errors::CommandError;
use pv_chars::bytes_of;
use pv_edit::Edit;
use pv_tree::Path;
use pv_words::{written_number, written_path};
use std::alloc::Global;

/// The word before the first blank, and what stands after the blank.
pub(crate) fn first_word(bytes: &[u8]) -> Result<(&[u8], &[u8]), CommandError>
    ensures { MatchResult result (λ cut. first_word bytes.now ≡ Some (cut.0.now, cut.1.now))
        (λ error. (error ≡ CommandError.Unknown) × (first_word bytes.now ≡ None)) }
{
    pv_words::first_word(bytes).ok_or(CommandError::Unknown)
}

/// The number that a word of a line is.
pub(crate) fn read_number(word: &[u8]) -> Result<u32, CommandError>
    ensures { ReadsAs (number_spelled word.now) result }
{
    match written_number(word) {
        Some(number) => Ok(number),
        None => Err(CommandError::Unknown),
    }
}

/// The path that a word of a line is.
pub(crate) fn read_path(alloc: Global, word: &[u8]) -> Result<Path, CommandError>
    ensures { ReadsAs (path_spelled word.now) result }
{
    match written_path(alloc, word)? {
        Some(path) => Ok(path),
        None => Err(CommandError::Unknown),
    }
}

/// Whether a word is this one.
pub(crate) fn is_word(word: &[u8], name: &[u8]) -> bool
    ensures { result ≡ bytes_eq word.now name.now }
{
    word == name
}

// The arguments of `wrap`.
fn read_wrap(alloc: Global, bytes: &[u8]) -> Result<Edit, CommandError>
    ensures { ReadsAs (wrap_of bytes.now) result }
{
    let (word, rest) = first_word(bytes)?;
    let path = read_path(alloc, word)?;
    let (word, rest) = first_word(rest)?;
    let from = read_number(word)?;
    let (word, rest) = first_word(rest)?;
    let to = read_number(word)?;
    let name = bytes_of(alloc, rest)?;
    Ok(Edit::Wrap {
        path,
        from,
        to,
        name,
    })
}

// The arguments of `insert`.
fn read_insert(alloc: Global, bytes: &[u8]) -> Result<Edit, CommandError>
    ensures { ReadsAs (insert_of bytes.now) result }
{
    let (word, rest) = first_word(bytes)?;
    let path = read_path(alloc, word)?;
    let (word, rest) = first_word(rest)?;
    let at = read_number(word)?;
    let name = bytes_of(alloc, rest)?;
    Ok(Edit::Insert { path, at, name })
}

// The argument of `unwrap`.
fn read_unwrap(alloc: Global, bytes: &[u8]) -> Result<Edit, CommandError>
    ensures { ReadsAs (unwrap_of bytes.now) result }
{
    let path = read_path(alloc, bytes)?;
    Ok(Edit::Unwrap { path })
}

// The arguments of `rename`.
fn read_rename(alloc: Global, bytes: &[u8]) -> Result<Edit, CommandError>
    ensures { ReadsAs (rename_of bytes.now) result }
{
    let (word, rest) = first_word(bytes)?;
    let path = read_path(alloc, word)?;
    let name = bytes_of(alloc, rest)?;
    Ok(Edit::Rename { path, name })
}

// The arguments of `split`.
fn read_split(alloc: Global, bytes: &[u8]) -> Result<Edit, CommandError>
    ensures { ReadsAs (split_of bytes.now) result }
{
    let (word, rest) = first_word(bytes)?;
    let path = read_path(alloc, word)?;
    let at = read_number(rest)?;
    Ok(Edit::Split { path, at })
}

// The argument of `join`.
fn read_join(alloc: Global, bytes: &[u8]) -> Result<Edit, CommandError>
    ensures { ReadsAs (join_of bytes.now) result }
{
    let path = read_path(alloc, bytes)?;
    Ok(Edit::Join { path })
}

// The arguments of `text`.
fn read_set_text(alloc: Global, bytes: &[u8]) -> Result<Edit, CommandError>
    ensures { ReadsAs (set_text_of bytes.now) result }
{
    let (word, rest) = first_word(bytes)?;
    let path = read_path(alloc, word)?;
    let text = bytes_of(alloc, rest)?;
    Ok(Edit::SetText { path, text })
}

// The arguments of `addtext`.
fn read_add_text(alloc: Global, bytes: &[u8]) -> Result<Edit, CommandError>
    ensures { ReadsAs (add_text_of bytes.now) result }
{
    let (word, rest) = first_word(bytes)?;
    let path = read_path(alloc, word)?;
    let (word, rest) = first_word(rest)?;
    let at = read_number(word)?;
    let text = bytes_of(alloc, rest)?;
    Ok(Edit::AddText { path, at, text })
}

// The argument of `deltext`.
fn read_del_text(alloc: Global, bytes: &[u8]) -> Result<Edit, CommandError>
    ensures { ReadsAs (del_text_of bytes.now) result }
{
    let path = read_path(alloc, bytes)?;
    Ok(Edit::DelText { path })
}

/// The edit of this word with these arguments.
pub(crate) fn read_edit(alloc: Global, word: &[u8], bytes: &[u8]) -> Result<Edit, CommandError>
    ensures { ReadsAs (edit_of word.now bytes.now) result }
{
    if is_word(word, b"wrap") {
        read_wrap(alloc, bytes)
    } else if is_word(word, b"insert") {
        read_insert(alloc, bytes)
    } else if is_word(word, b"unwrap") {
        read_unwrap(alloc, bytes)
    } else if is_word(word, b"rename") {
        read_rename(alloc, bytes)
    } else if is_word(word, b"split") {
        read_split(alloc, bytes)
    } else if is_word(word, b"join") {
        read_join(alloc, bytes)
    } else if is_word(word, b"text") {
        read_set_text(alloc, bytes)
    } else if is_word(word, b"addtext") {
        read_add_text(alloc, bytes)
    } else if is_word(word, b"deltext") {
        read_del_text(alloc, bytes)
    } else {
        Err(CommandError::Unknown)
    }
}
