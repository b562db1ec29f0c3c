//! The lines of a denial's text but its rows, each read from the front of some bytes.

ghost use Rattle.std.specs.Prelude.{◌<◌, IfOk, IfSome, MatchOption, length};
ghost use Rattle.pv_denial_text.specs.Fronts.{Begins, BeginsNone, BeginsNot};
ghost use Rattle.pv_denial_text.specs.Lines.{cause_line, end_line, list_line};
ghost use Rattle.pv_denial_text.specs.Lines.{version_line};

use crate::causes::cause_by;
use pv_chars::NoMemory;
use pv_chars::scan::after_bytes;
use pv_denial::Cause;
use pv_tree::Path;
use pv_words::{line_of, written_path};
use std::alloc::Global;

/// What stands after the version at the front.
pub fn version_at(bytes: &[u8]) -> Option<&[u8]>
    ensures version { MatchOption result (BeginsNot version_line bytes.now)
        (λ r. Begins bytes.now version_line r.now) }
    ensures within { IfSome result (λ r. length r.now < length bytes.now) }
{
    after_bytes(b"pvdeny 1\n", bytes)
}

/// The path at the front, and what stands after its line.
pub fn list_at(alloc: Global, bytes: &[u8]) -> Result<Option<(Path, &[u8])>, NoMemory>
    ensures list { IfOk result (λ found. MatchOption found (BeginsNone list_line bytes.now)
        (λ r. Begins bytes.now (list_line r.0) r.1.now)) }
    ensures within { IfOk result (λ found. IfSome found (λ r. length r.1.now < length bytes.now)) }
{
    let Some((word, rest)) = line_of(b"list ", bytes) else {
        return Ok(None);
    };
    match written_path(alloc, word)? {
        Some(path) => Ok(Some((path, rest))),
        None => Ok(None),
    }
}

/// The cause at the front, and what stands after its line.
pub fn cause_at(bytes: &[u8]) -> Option<(Cause, &[u8])>
    ensures cause { MatchOption result (BeginsNone cause_line bytes.now)
        (λ r. Begins bytes.now (cause_line r.0) r.1.now) }
    ensures within { IfSome result (λ r. length r.1.now < length bytes.now) }
{
    let (word, rest) = line_of(b"cause ", bytes)?;
    let cause = cause_by(word)?;
    Some((cause, rest))
}

/// What stands after the end at the front.
pub fn end_at(bytes: &[u8]) -> Option<&[u8]>
    ensures { MatchOption result (BeginsNot end_line bytes.now)
        (λ r. Begins bytes.now end_line r.now) }
{
    after_bytes(b"end\n", bytes)
}
