//! Reads packs.

ghost use Rattle.std.specs.Prelude.{◌≡◌, ◌≤◌, ◌+◌, ◌-◌, ℕ, List, [], ◌∷◌, drop, length, take};
ghost use Rattle.std.specs.Prelude.{IfOk, IfErr, None};
ghost use Rattle.pv_cert.specs.Lines.{version_line, total_line};
ghost use Rattle.pv_cert.specs.Meaning.{Answers, MAX_PACK_BYTES as MAX_BYTES, Outcome, PackMeans};
ghost use Rattle.pv_cert.specs.Meaning.{Refuses, Stand, is_pack};
ghost use Rattle.pv_cert.specs.Steps.{RefusesHead, TakesMarks, head_lines, pack_within};

use crate::errors::PackError;
use crate::lines::{body_at, mark_at, total_at, version_at};
use crate::packs::{MAX_PACK_BYTES, Pack};
use crate::tables::read_tables;
use pv_chars::{List, NoMemory};
use pv_tables::Table;
use std::alloc::Global;

// The marks at the front, and what stands after them.
fn read_marks(alloc: Global, bytes: &[u8]) -> Result<(Vec<u32>, &[u8]), NoMemory>
    ensures read { IfOk result (λ r. TakesMarks bytes.now r.0.items r.1.now) }
    ensures within { IfOk result (λ r. length r.1.now + length r.0.items ≤ length bytes.now) }
{
    let mut marks = Vec::new(alloc);
    let mut rest = bytes;
    'marks: while let Some((mark, after)) = mark_at(rest) {
        marks.push(mark)?;
        rest = after;
    }
    Ok((marks, rest))
}

// The total after the version, and what stands after it.
fn read_total(bytes: &[u8]) -> Result<(u32, &[u8]), PackError>
    ensures read { IfOk result (λ r.
        Stand None bytes.now (version_line ∷ total_line r.0 ∷ []) r.1.now) }
    ensures refused { IfErr result (λ error. RefusesHead bytes.now error) }
    ensures within { IfOk result (λ r. length r.1.now ≤ length bytes.now) }
{
    let Some(behind_version) = version_at(bytes) else {
        return Err(PackError::Syntax(0));
    };
    let Some((total, rest)) = total_at(behind_version) else {
        return Err(PackError::Syntax(1));
    };
    Ok((total, rest))
}

// A pack up to its body, and what stands after that.
#[derive(Drop)]
struct Head<'a> {
    total: u32,
    marks: Vec<u32>,
    body: &'a [u8],
    rest: &'a [u8],
}

// The lines of a pack up to its body.
fn read_head(alloc: Global, bytes: &[u8]) -> Result<Head<'_>, PackError>
    requires { length bytes.now ≤ MAX_BYTES }
    ensures read { IfOk result (λ head. Stand None bytes.now
        (head_lines head.total head.marks.items head.body.now) head.rest.now) }
    ensures refused { IfErr result (λ error. RefusesHead bytes.now error) }
    ensures within { IfOk result (λ head.
        length head.rest.now + length head.marks.items ≤ length bytes.now) }
{
    let (total, behind_total) = read_total(bytes)?;
    let (marks, behind_marks) = read_marks(alloc, behind_total)?;
    let Some((body, rest)) = body_at(behind_marks) else {
        return Err(PackError::Syntax(2 + marks.len() as u64));
    };
    Ok(Head {
        total,
        marks,
        body,
        rest,
    })
}

// A pack but for its body, which stands in its text from one place up to another.
#[derive(Drop)]
struct Parts {
    total: u32,
    marks: Vec<u32>,
    start: usize,
    end: usize,
    tables: Vec<Table>,
}

// The parts of the pack that bytes within the limit are the text of.
fn read_parts(alloc: Global, bytes: &[u8]) -> Result<Parts, PackError>
    requires { length bytes.now ≤ MAX_BYTES }
    ensures read { IfOk result (λ parts. PackMeans bytes.now (is_pack (pack_within bytes.now
        parts.total parts.marks.items parts.start parts.end parts.tables.items))) }
    ensures order { IfOk result (λ parts. parts.start ≤ parts.end) }
    ensures within { IfOk result (λ parts. parts.end ≤ length bytes.now) }
    ensures refused { IfErr result (λ error. Refuses bytes.now error) }
{
    let head = read_head(alloc, bytes)?;
    let tables = read_tables(alloc, head.rest, 3 + head.marks.len() as u64)?;
    let end = bytes.len() - head.rest.len() - 1;
    let start = end - head.body.len();
    Ok(Parts {
        total: head.total,
        marks: head.marks,
        start,
        end,
        tables,
    })
}

// What stands from one place up to another, in the memory of the whole.
fn cut(mut bytes: Vec<u8>, start: usize, end: usize) -> Vec<u8>
    requires order { start ≤ end }
    requires within { end ≤ length bytes.items }
    ensures { result.items ≡ take (end - start) (drop start bytes.items) }
{
    bytes.copy_within(start..end, 0);
    bytes.truncate(end - start);
    bytes.shrink_to_fit();
    bytes
}

// The pack that bytes within the limit are the text of, in their memory.
fn take_within(alloc: Global, bytes: Vec<u8>) -> Result<Pack, PackError>
    requires { length bytes.items ≤ MAX_BYTES }
    ensures read { IfOk result (λ pack. PackMeans bytes.items (is_pack pack)) }
    ensures refused { IfErr result (λ error. Refuses bytes.items error) }
{
    let parts = read_parts(alloc, &bytes)?;
    Ok(Pack {
        total: u64::from(parts.total),
        marks: List::of(parts.marks),
        body: List::of(cut(bytes, parts.start, parts.end)),
        tables: List::of(parts.tables),
    })
}

/// The pack that the bytes are the text of; its body stays in the memory of the text, and isn't
/// copied.
pub fn take_pack(alloc: Global, bytes: Vec<u8>) -> Result<Pack, PackError>
    ensures read { IfOk result (λ pack. PackMeans bytes.items (is_pack pack)) }
    ensures refused { IfErr result (λ error. Refuses bytes.items error) }
    ensures exactly { (o : Outcome) → PackMeans bytes.items o → Answers o result }
{
    if MAX_PACK_BYTES < bytes.len() {
        return Err(PackError::Limit);
    }
    take_within(alloc, bytes)
}
