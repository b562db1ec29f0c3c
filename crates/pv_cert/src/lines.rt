//! The lines of a pack, each read from the front of some bytes.

ghost use Rattle.std.specs.Prelude.{◌≤◌, ◌<◌, length, IfOk, IfSome, MatchOption};
ghost use Rattle.pv_cert.specs.Fronts.{Begins, BeginsNone, BeginsNot};
ghost use Rattle.pv_cert.specs.Lines.{version_line, total_line, mark_line, body_line, list_line};
ghost use Rattle.pv_cert.specs.Lines.{end_line};
ghost use Rattle.pv_cert.specs.Meaning.{MAX_PACK_BYTES as MAX_BYTES};

use pv_chars::NoMemory;
use pv_chars::scan::after_bytes;
use pv_rules::MAX_MISSING;
use pv_tree::Path;
use pv_words::{line_of, number_line_at, written_path};
use std::alloc::Global;

/// What stands after the version at the front.
pub fn version_at(bytes: &[u8]) -> Option<&[u8]>
    ensures { MatchOption result (BeginsNot version_line bytes.now)
        (λ r. Begins bytes.now version_line r.now) }
{
    after_bytes(b"pvpack 1\n", bytes)
}

/// The total at the front, and what stands after it.
pub fn total_at(bytes: &[u8]) -> Option<(u32, &[u8])>
    ensures { MatchOption result (BeginsNone total_line bytes.now)
        (λ r. Begins bytes.now (total_line r.0) r.1.now) }
{
    number_line_at(b"total ", MAX_MISSING, bytes)
}

/// The mark at the front, and what stands after it.
pub fn mark_at(bytes: &[u8]) -> Option<(u32, &[u8])>
    ensures mark { MatchOption result (BeginsNone mark_line bytes.now)
        (λ r. Begins bytes.now (mark_line r.0) r.1.now) }
    ensures within { IfSome result (λ r. length r.1.now < length bytes.now) }
{
    number_line_at(b"mark ", u32::MAX, bytes)
}

/// The body at the front, and what stands after it.
pub fn body_at(bytes: &[u8]) -> Option<(&[u8], &[u8])>
    requires { length bytes.now ≤ MAX_BYTES }
    ensures { MatchOption result (BeginsNone body_line bytes.now)
        (λ r. Begins bytes.now (body_line r.0.now) r.1.now) }
{
    let (number, rest) = number_line_at(b"body ", u32::MAX, bytes)?;
    let length = number as usize;
    if rest.len() < length {
        return None;
    }
    let (body, behind) = rest.split_at(length);
    let after = after_bytes(b"\n", behind)?;
    Some((body, after))
}

/// The path of the table that begins at the front, and what stands after that line.
pub fn list_at(alloc: Global, bytes: &[u8]) -> Result<Option<(Path, &[u8])>, NoMemory>
    ensures list { IfOk result (λ found. MatchOption found (BeginsNone list_line bytes.now)
        (λ r. Begins bytes.now (list_line r.0) r.1.now)) }
    ensures within { IfOk result (λ found. IfSome found (λ r. length r.1.now < length bytes.now)) }
{
    let Some((word, rest)) = line_of(b"list ", bytes) else {
        return Ok(None);
    };
    match written_path(alloc, word)? {
        Some(path) => Ok(Some((path, rest))),
        None => Ok(None),
    }
}

/// What stands after the end at the front.
pub fn end_at(bytes: &[u8]) -> Option<&[u8]>
    ensures { MatchOption result (BeginsNot end_line bytes.now)
        (λ r. Begins bytes.now end_line r.now) }
{
    after_bytes(b"end\n", bytes)
}
