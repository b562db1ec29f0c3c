//! Whether what was written is a completion.

ghost use Rattle.std.specs.Prelude.{IfOk, IsTrue, length};
ghost use Rattle.pv_dtd.specs.PlainForms.{plain_dtd};
ghost use Rattle.pv_tree.specs.Marks.{blank_mark};
ghost use Rattle.pv_tree.specs.Plain.{PlainDoc};
ghost use Rattle.pv_tree.specs.declared.nodes.Mark.{Mark};
ghost use Rattle.pv_read.specs.Meaning.{DocumentMeans, is_document};
ghost use Rattle.pv_long.specs.NewTags.{IsWrittenWithTags};
ghost use Rattle.pv_long.specs.BoundAnswers.{IsCompletionText};

use crate::errors::MakeError;
use pv_chars::NoMemory;
use pv_compare::is_kept;
use pv_dtd::Dtd;
use pv_flat::{MAX_FLAT_BYTES, valid_events};
use pv_missing::laws::documents::tags_extend_law;
use pv_read::DocError;
use pv_read::laws::wider_limits_law;
use std::alloc::Global;

/// Whether a body is the text of a document that completes the one that the bytes are, by the
/// elements with these numbers, where it is written as that is.
pub fn is_completion(
    alloc: Global,
    dtd: &Dtd,
    root: &[u8],
    bytes: &[u8],
    marks: &[u32],
    body: &[u8],
) -> Result<bool, MakeError>
    ensures { IfOk result (λ is. IsTrue is → (doc : PlainDoc Mark) →
        DocumentMeans blank_mark root.now bytes.now (is_document doc) →
        IsWrittenWithTags (plain_dtd dtd.now) doc body.now →
        IsCompletionText (plain_dtd dtd.now) root.now doc (length marks.now) marks.now
        body.now) }
{
    tags_extend_law();
    wider_limits_law();
    if body.len() > MAX_FLAT_BYTES {
        return Err(MakeError::TooMany);
    }
    match valid_events(alloc, dtd, root, body) {
        Ok(true) => {}
        Ok(false) => return Ok(false),
        Err(DocError::NoMemory) => return Err(MakeError::NoMemory),
        Err(_) => return Ok(false),
    }
    match is_kept(alloc, root, bytes, body, marks) {
        Ok(kept) => Ok(kept),
        Err(DocError::NoMemory) => Err(MakeError::NoMemory),
        Err(_) => Ok(false),
    }
}
