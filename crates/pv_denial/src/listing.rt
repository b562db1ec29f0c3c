//! Whether rows are rows of a word, no two with the same site.

ghost use Rattle.std.specs.Prelude.{◌≡◌, ◌≤◌, ◌<◌, ◌^◌, ◌↔◌, ℕ, Some, IfOk, IsTrue, MatchOption};
ghost use Rattle.std.specs.Prelude.{length, slice_get};
ghost use Rattle.pv_rules.specs.PlainForms.{plain_site};
ghost use Rattle.pv_productive.specs.PlainForms.{dtd_of};
ghost use Rattle.pv_denial.specs.Indexes.{slot};
ghost use Rattle.pv_denial.specs.Rows.{AreOfOtherSites, AreRisingValues, EachRow, IsRow};

use crate::barrier::Barrier;
use crate::denials::Row;
use crate::index::Index;
use pv_productive::Grammar;
use std::alloc::{AllocError, Global};

/// Whether a value is its place or after it, not past the last place nor less than another.
fn may_stand(value: usize, place: usize, tokens: usize, last: usize) -> bool
    ensures { IsTrue result ↔ ((place ≤ value) × (value ≤ tokens) × (last ≤ value)) }
{
    place <= value && value <= tokens && last <= value
}

/// Whether each value is its place or after it, none is past the last place, and they don't fall.
fn are_rising(values: &[u32], tokens: usize) -> bool
    ensures { IsTrue result ↔ AreRisingValues values.now tokens }
{
    let mut last = 0;
    for (place, value) in values.iter().enumerate() {
        let value = *value as usize;
        if !may_stand(value, place, tokens, last) {
            return false;
        }
        last = value;
    }
    true
}

/// Whether a row is one for a word of so many tokens.
fn is_row(grammar: &Grammar, row: &Row, tokens: usize) -> bool
    requires { tokens < 2 ^ 62 }
    ensures { IsTrue result ↔ IsRow (dtd_of grammar.now) tokens row.now }
{
    let values = row.values.as_slice();
    grammar.has_site(row.site) && values.len() == tokens + 1 && are_rising(values, tokens)
}

/// Whether a row is one for the word, and an index has none of its site.
fn is_fresh(grammar: &Grammar, index: &Index, row: &Row, tokens: usize) -> bool
    requires { tokens < 2 ^ 62 }
    ensures { IsTrue result ↔ (IsRow (dtd_of grammar.now) tokens row.now ×
        (slot index.now (plain_site row.now.site) ≡ 0)) }
{
    is_row(grammar, row, tokens) && index.get(row.site) == 0
}

/// The barrier of rows for a word of so many tokens, if they are such rows, no two with one site.
pub fn barrier_of<'a>(
    alloc: Global,
    grammar: &Grammar,
    rows: &'a [Row],
    tokens: usize,
) -> Result<Option<Barrier<'a>>, AllocError>
    requires { tokens < 2 ^ 62 }
    ensures { IfOk result (λ found. MatchOption found
        (¬ (EachRow (IsRow (dtd_of grammar.now) tokens) rows.now × AreOfOtherSites rows.now))
        (λ barrier. (barrier ≡ rows.now) ×
        EachRow (IsRow (dtd_of grammar.now) tokens) rows.now × AreOfOtherSites rows.now)) }
{
    let mut index = Index::new(alloc, grammar)?;
    for (number, row) in rows.iter().enumerate() {
        if !is_fresh(grammar, &index, row, tokens) {
            return Ok(None);
        }
        index.put(row.site, number + 1);
    }
    Ok(Some(Barrier::of(rows, index)))
}
