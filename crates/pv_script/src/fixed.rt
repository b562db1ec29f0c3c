//! Calls of this library that the program doesn't make. They stand for other callers.

ghost use Rattle.std.specs.Prelude.{◌≡◌, IfOk};
ghost use Rattle.pv_script.specs.Edits.{edit_text};

use crate::edits::push_edit;
use pv_chars::{Bytes, NoMemory};
use pv_edit::Edit;
use std::alloc::Global;

/// The line of an edit, without its LF.
pub fn edit_line(alloc: Global, edit: &Edit) -> Result<Bytes, NoMemory>
    ensures { IfOk result (λ line. line ≡ edit_text edit.now) }
{
    let mut text = Vec::new(alloc);
    push_edit(&mut text, edit)?;
    Ok(Bytes::of(text))
}
