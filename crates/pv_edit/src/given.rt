//! The names and texts that an edit brings.

ghost use Rattle.std.specs.Prelude.{◌≡◌, ◌↔◌, is_some, IsTrue, IfOk, IfSome};
ghost use Rattle.std.specs.List.{list_any};
ghost use Rattle.pv_chars.specs.declared.errors.TextError.TheVariants as text_error;
ghost use Rattle.pv_edit.specs.GivenNames.{is_line_end, is_new_name, is_new_text, new_units};

use pv_chars::{NoMemory, TextError, Units, is_name, text_units};
use std::alloc::Global;

/// Whether an element may be given this name.
pub(crate) fn is_new_name(name: &[u8]) -> bool
    ensures { result ≡ is_new_name name.now }
{
    is_name(name)
}

/// The units of a text that may be put into a document; none where these bytes are no such text.
pub(crate) fn new_units(alloc: Global, text: &[u8]) -> Result<Option<Units>, NoMemory>
    ensures given { IfOk result (λ units. is_some units ≡ is_new_text text.now) }
    ensures units { IfOk result (λ units. IfSome units (λ u. u ≡ new_units text.now)) }
{
    if has_line_end(text) {
        return Ok(None);
    }
    match text_units(alloc, text) {
        Ok(units) => Ok(Some(units)),
        Err(error) if is_want(&error) => Err(NoMemory),
        Err(_) => Ok(None),
    }
}

// Whether there was too little memory.
fn is_want(error: &TextError) -> bool
    ensures { IsTrue result ↔ (error.now ≡ text_error.NoMemory) }
{
    matches!(error, TextError::NoMemory)
}

fn has_line_end(text: &[u8]) -> bool
    ensures { result ≡ list_any is_line_end text.now }
{
    for byte in text {
        if is_line_end(*byte) {
            return true;
        }
    }
    false
}

// A literal CR or LF.
fn is_line_end(byte: u8) -> bool
    ensures { result ≡ is_line_end byte }
{
    byte == b'\r' || byte == b'\n'
}
