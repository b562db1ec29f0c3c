//! Edits written as lines.

ghost use Rattle.std.specs.Prelude.{◌≡◌, [], ◌∷◌, ◌++◌, OnOk, decimal};
ghost use Rattle.pv_script.specs.Edits.{edit_text};
ghost use Rattle.pv_words.specs.Paths.{path_text};
ghost use Rattle.pv_words.specs.Words.{words};

use pv_edit::Edit;
use pv_tree::Path;
use pv_words::{push_next_number, push_next_word, push_path};
use std::alloc::AllocError;

// Appends the word of an edit, and its path.
fn push_front(text: &mut Vec<u8>, word: &[u8], path: &Path) -> Result<(), AllocError>
    ensures { OnOk result (text.new.items ≡
        text.old.items ++ words (word.now ∷ path_text path.now ∷ [])) }
{
    text.extend_from_slice(word)?;
    text.push(b' ')?;
    push_path(text, path.places())
}

// Appends the word of an edit, its path, and a number.
fn push_at(text: &mut Vec<u8>, word: &[u8], path: &Path, at: u32) -> Result<(), AllocError>
    ensures { OnOk result (text.new.items ≡
        text.old.items ++ words (word.now ∷ path_text path.now ∷ decimal at ∷ [])) }
{
    push_front(text, word, path)?;
    push_next_number(text, u64::from(at))
}

// Appends the word of an edit, its path, and a name or a text.
fn push_with(text: &mut Vec<u8>, word: &[u8], path: &Path, last: &[u8]) -> Result<(), AllocError>
    ensures { OnOk result (text.new.items ≡
        text.old.items ++ words (word.now ∷ path_text path.now ∷ last.now ∷ [])) }
{
    push_front(text, word, path)?;
    push_next_word(text, last)
}

// Appends the word of an edit, its path, a number, and a name or a text.
fn push_at_with(
    text: &mut Vec<u8>,
    word: &[u8],
    path: &Path,
    at: u32,
    last: &[u8],
) -> Result<(), AllocError>
    ensures { OnOk result (text.new.items ≡
        text.old.items ++ words (word.now ∷ path_text path.now ∷ decimal at ∷ last.now ∷ [])) }
{
    push_at(text, word, path, at)?;
    push_next_word(text, last)
}

/// Appends the line of an edit, without its LF.
pub(crate) fn push_edit(text: &mut Vec<u8>, edit: &Edit) -> Result<(), AllocError>
    ensures { OnOk result (text.new.items ≡ text.old.items ++ edit_text edit.now) }
{
    match edit {
        Edit::Wrap {
            path,
            from,
            to,
            name,
        } => {
            push_at(text, b"wrap", path, *from)?;
            push_next_number(text, u64::from(*to))?;
            push_next_word(text, name.as_slice())
        }
        Edit::Insert { path, at, name } => {
            push_at_with(text, b"insert", path, *at, name.as_slice())
        }
        Edit::Unwrap { path } => push_front(text, b"unwrap", path),
        Edit::Rename { path, name } => push_with(text, b"rename", path, name.as_slice()),
        Edit::Split { path, at } => push_at(text, b"split", path, *at),
        Edit::Join { path } => push_front(text, b"join", path),
        Edit::SetText { path, text: units } => push_with(text, b"text", path, units.as_slice()),
        Edit::AddText {
            path,
            at,
            text: units,
        } => push_at_with(text, b"addtext", path, *at, units.as_slice()),
        Edit::DelText { path } => push_front(text, b"deltext", path),
    }
}
