//! The tables of a pack, read up to its end.

ghost use Rattle.std.specs.Prelude.{◌≡◌, ◌≤◌, ◌<◌, ◌+◌, ◌^◌, ◌↔◌, ℕ, List, length, IsTrue};
ghost use Rattle.std.specs.Prelude.{IfOk, IfErr, IfSome, MatchOption};
ghost use Rattle.pv_tables.specs.declared.tables.Entry.{Entry};
ghost use Rattle.pv_cert.specs.Lines.{entry_line};
ghost use Rattle.pv_cert.specs.Meaning.{Stands};
ghost use Rattle.pv_cert.specs.Steps.{EndsWithTables, Follows, RefusesEntries, RefusesTables};
ghost use Rattle.pv_cert.specs.Steps.{StandsNoEntry, TakesEntries, line_before};

use crate::entries::entry_at;
use crate::errors::PackError;
use crate::lines::{end_at, list_at};
use pv_chars::List;
use pv_tables::{Entry, MAX_ENTRIES, Table, precedes};
use std::alloc::Global;

// Whether an entry may stand after the last one of its table, or at its head.
fn follows(last: Option<Entry>, next: &Entry) -> bool
    ensures { IsTrue result ↔ Follows last next.now }
{
    match last {
        Some(before) => precedes(&before, next),
        None => true,
    }
}

// The entry at the front that may stand after the last one of a table, and what stands after it.
fn next_entry(last: Option<Entry>, bytes: &[u8]) -> Option<(Entry, &[u8])>
    ensures entry { (path : List ℕ) → MatchOption result
        (StandsNoEntry (line_before path last) bytes.now)
        (λ r. Stands (line_before path last) bytes.now (entry_line r.0) r.1.now) }
    ensures within { IfSome result (λ r. length r.1.now < length bytes.now) }
{
    let (next, rest) = entry_at(bytes)?;
    if !follows(last, &next) {
        return None;
    }
    Some((next, rest))
}

// The entries at the front, at most so many, after the head of a table, and what stands after
// them.
fn read_entries(alloc: Global, bytes: &[u8], most: usize) -> Result<(Vec<Entry>, &[u8]), PackError>
    ensures read { IfOk result (λ r. TakesEntries bytes.now r.0.items r.1.now) }
    ensures few { IfOk result (λ r. length r.0.items ≤ most) }
    ensures refused { IfErr result (λ error. RefusesEntries bytes.now most error) }
    ensures within { IfOk result (λ r. length r.1.now + length r.0.items ≤ length bytes.now) }
{
    let mut entries = Vec::new(alloc);
    let mut last = None;
    let mut rest = bytes;
    'entries: while let Some((next, after)) = next_entry(last, rest) {
        if entries.len() == most {
            return Err(PackError::Limit);
        }
        entries.push(next)?;
        last = Some(next);
        rest = after;
    }
    Ok((entries, rest))
}

/// The tables after the body of a pack, up to its end, where so many lines stand before them.
pub fn read_tables(alloc: Global, bytes: &[u8], first: u64) -> Result<Vec<Table>, PackError>
    requires { first + length bytes.now < 2 ^ 64 }
    ensures read { IfOk result (λ tables. EndsWithTables bytes.now tables.items) }
    ensures refused { IfErr result (λ error. RefusesTables first bytes.now error) }
{
    let mut tables = Vec::new(alloc);
    let mut room = MAX_ENTRIES as usize;
    let mut rest = bytes;
    let mut lines = first;
    'tables: while let Some((path, after)) = list_at(alloc, rest)? {
        let (entries, behind) = read_entries(alloc, after, room)?;
        room -= entries.len();
        lines += 1 + entries.len() as u64;
        rest = behind;
        tables.push(Table {
            path,
            entries: List::of(entries),
        })?;
    }
    match end_at(rest) {
        Some([]) => Ok(tables),
        Some(_) => Err(PackError::Syntax(lines + 1)),
        None => Err(PackError::Syntax(lines)),
    }
}
