//! Reads denials.

ghost use Rattle.std.specs.Prelude.{◌≡◌, ◌≤◌, IfOk, IfErr, None, length};
ghost use Rattle.pv_denial_text.specs.Meaning.{Answers, DenialMeans};
ghost use Rattle.pv_denial_text.specs.Meaning.{MAX_DENIAL_BYTES as MAX_BYTES};
ghost use Rattle.pv_denial_text.specs.Meaning.{Outcome, Refuses, Stand, is_denial};
ghost use Rattle.pv_denial_text.specs.Steps.{RefusesHead, head_lines};

use crate::errors::TableError;
use crate::lines::{cause_at, list_at, version_at};
use crate::rows::read_rows;
use pv_chars::List;
use pv_denial::{Cause, Denial};
use pv_tree::Path;
use std::alloc::Global;

/// The most bytes of the text of a denial.
pub const MAX_DENIAL_BYTES: usize = 134_217_728;

// A denial up to its rows, and what stands after that.
#[derive(Drop)]
struct Head<'a> {
    path: Path,
    cause: Cause,
    rest: &'a [u8],
}

// The lines of a denial up to its rows.
fn read_head(alloc: Global, bytes: &[u8]) -> Result<Head<'_>, TableError>
    ensures read { IfOk result (λ head.
        Stand None bytes.now (head_lines head.path head.cause) head.rest.now) }
    ensures refused { IfErr result (λ error. RefusesHead bytes.now error) }
    ensures within { IfOk result (λ head. length head.rest.now ≤ length bytes.now) }
{
    let Some(behind_version) = version_at(bytes) else {
        return Err(TableError::Syntax(0));
    };
    let Some((path, behind_list)) = list_at(alloc, behind_version)? else {
        return Err(TableError::Syntax(1));
    };
    let Some((cause, rest)) = cause_at(behind_list) else {
        return Err(TableError::Syntax(2));
    };
    Ok(Head { path, cause, rest })
}

// The denial that bytes within the limit are the text of.
fn read_within(alloc: Global, bytes: &[u8]) -> Result<Denial, TableError>
    requires { length bytes.now ≤ MAX_BYTES }
    ensures read { IfOk result (λ denial. DenialMeans bytes.now (is_denial denial)) }
    ensures refused { IfErr result (λ error. Refuses bytes.now error) }
{
    let head = read_head(alloc, bytes)?;
    let rows = read_rows(alloc, head.rest)?;
    Ok(Denial {
        path: head.path,
        cause: head.cause,
        rows: List::of(rows),
    })
}

/// The denial that the bytes are the text of.
///
/// The memory is four bytes for each value, and a few for each row.
pub fn read_denial(alloc: Global, bytes: &[u8]) -> Result<Denial, TableError>
    ensures read { IfOk result (λ denial. DenialMeans bytes.now (is_denial denial)) }
    ensures refused { IfErr result (λ error. Refuses bytes.now error) }
    ensures exactly { (o : Outcome) → DenialMeans bytes.now o → Answers o result }
{
    if MAX_DENIAL_BYTES < bytes.len() {
        return Err(TableError::Limit);
    }
    read_within(alloc, bytes)
}
