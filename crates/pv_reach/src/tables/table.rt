//! The furthest place that each column of a grammar reaches from each place of a word.
//!
//! The table has a row of columns for each place. A cell is one past the furthest place that its
//! column reaches from there, and 0 where it reaches none, so raising a cell is the only change.
//! Rows are filled from the last place to the first. At a place the rules are gone over until none
//! raises a cell: a right side reads its token first, and then goes from each column to the next
//! one by the furthest places, which is enough since the ends from a place are an interval. The rules
//! come as two lists, since some are made for a word, and others for all words.
ghost use Rattle.std.specs.Prelude.{◌↔◌, IsTrue, [], ◌∷◌, ◌++◌, ◌≡◌, ◌≤◌, ◌<◌, ℕ, suc, ◌+◌, ◌*◌};
ghost use Rattle.std.specs.Prelude.{◌^◌, IfOk, IfSome, IsNone, All, List, slice_index, length};
ghost use Rattle.std.specs.Prelude.{false, true};
ghost use Rattle.pv_columns.specs.ColumnRules.{ReadsToken, ReadThrough, TokensMayBeMissing};
ghost use Rattle.pv_columns.specs.ColumnRules.{EndsAreIntervals, InRange};
ghost use Rattle.pv_columns.specs.declared.rules.ColumnRule.{ColumnRule as PlainRule};
ghost use Rattle.pv_reach.specs.Tables.{cell_at, past, AreAmong, IsTable, IsReachedTable};
ghost use Rattle.pv_reach.specs.Tables.{IsClosedAt, IsComplete, IsFurthest, room};

use pv_columns::ColumnRule;
use pv_model::Token;
use std::alloc::{AllocError, Global};

/// One past the furthest place that the columns reach from `start`; 0 where they reach none.
fn past_columns(columns: &[usize], start: usize, word: &[Token], width: usize, table: &[u32]) -> u32
    requires start { start ≤ length word.now }
    requires short { length word.now < 2 ^ 26 }
    requires in_range { All (λ c. c < width) columns.now }
    requires table { IsTable word.now width table.now }
    ensures { result ≡ past width table.now columns.now start }
{
    let mut place = start;
    for column in columns {
        let bound = table[place * width + column];
        if bound == 0 {
            return 0;
        }
        place = bound as usize - 1;
    }
    place as u32 + 1
}

/// One past the furthest place that a rule offers from `start`; 0 where it offers none.
fn past_rule(rule: &ColumnRule, start: usize, word: &[Token], width: usize, table: &[u32]) -> u32
    requires start { start ≤ length word.now }
    requires short { length word.now < 2 ^ 26 }
    requires in_range { All (λ c. c < width) rule.now.columns.items }
    requires table { IsTable word.now width table.now }
    ensures offered { 0 < result → (m : ℕ) × ReadsToken word.now rule.now.token start m ×
        (result ≡ past width table.now rule.now.columns.items m) }
    ensures most { (m : ℕ) → ReadsToken word.now rule.now.token start m →
        past width table.now rule.now.columns.items m ≤ result }
{
    match rule.token {
        None => past_columns(&rule.columns, start, word, width, table),
        Some(token) => {
            if start < word.len() && word[start] == token {
                past_columns(&rule.columns, start + 1, word, width, table)
            } else {
                0
            }
        }
    }
}

/// Raises the cells of a place by each of these rules once, and tells whether any changed. They are
/// among those by which the cells are reached.
fn raise(
    rules: &[ColumnRule],
    place: usize,
    word: &[Token],
    width: usize,
    table: &mut [u32],
) -> bool
    requires place { place ≤ length word.now }
    requires short { length word.now < 2 ^ 26 }
    requires in_range { InRange width rules.now }
    requires table { IsTable word.now width table.old }
    requires attained { (all : List PlainRule) × InRange width all × AreAmong rules.now all
        × IsReachedTable all word.now width table.old }
    ensures table { IsTable word.now width table.new }
    ensures attained { (all : List PlainRule) → InRange width all → AreAmong rules.now all →
        IsReachedTable all word.now width table.old →
        IsReachedTable all word.now width table.new }
    ensures rises { (k : ℕ) → slice_index table.old k ≤ slice_index table.new k }
    ensures same { result ≡ false → table.new ≡ table.old }
    ensures closed { result ≡ false → IsClosedAt rules.now word.now width table.new place }
    ensures less { result ≡ true → room (suc (length word.now)) table.new
        < room (suc (length word.now)) table.old }
{
    let mut changed = false;
    for rule in rules {
        let bound = past_rule(rule, place, word, width, table);
        let at = place * width + rule.left;
        if table[at] < bound {
            table[at] = bound;
            changed = true;
        }
    }
    changed
}

/// Raises the cells of a place by each rule of the first list once, or by those of the second where
/// that changes none, and tells whether any changed.
fn raise_by_either(
    front: &[ColumnRule],
    rules: &[ColumnRule],
    place: usize,
    word: &[Token],
    width: usize,
    table: &mut [u32],
) -> bool
    requires place { place ≤ length word.now }
    requires short { length word.now < 2 ^ 26 }
    requires in_range { InRange width (front.now ++ rules.now) }
    requires table { IsTable word.now width table.old }
    requires attained { IsReachedTable (front.now ++ rules.now) word.now width table.old }
    ensures table { IsTable word.now width table.new }
    ensures attained { IsReachedTable (front.now ++ rules.now) word.now width table.new }
    ensures rises { (k : ℕ) → slice_index table.old k ≤ slice_index table.new k }
    ensures closed { result ≡ false →
        IsClosedAt (front.now ++ rules.now) word.now width table.new place }
    ensures less { result ≡ true → room (suc (length word.now)) table.new
        < room (suc (length word.now)) table.old }
{
    if raise(front, place, word, width, table) {
        return true;
    }
    raise(rules, place, word, width, table)
}

/// The table of furthest places.
pub fn fill(
    alloc: Global,
    front: &[ColumnRule],
    rules: &[ColumnRule],
    word: &[Token],
    width: usize,
) -> Result<Vec<u32>, AllocError>
    requires short { length word.now < 2 ^ 26 }
    requires narrow { width < 2 ^ 26 }
    requires in_range { InRange width (front.now ++ rules.now) }
    requires missing { TokensMayBeMissing (front.now ++ rules.now) word.now }
    ensures { IfOk result (λ t. IsFurthest (front.now ++ rules.now) word.now width t.items) }
{
    let mut table = vec![in alloc; 0u32; (word.len() + 1) * width]?;
    for place in (0..word.len() + 1).rev() {
        while raise_by_either(front, rules, place, word, width, &mut table) {}
    }
    Ok(table)
}

/// The furthest place that the columns reach from `start`, if they reach any.
fn furthest_place(
    front: &[ColumnRule],
    rules: &[ColumnRule],
    columns: &[usize],
    start: usize,
    word: &[Token],
    width: usize,
    table: &[u32],
) -> Option<usize>
    requires start { start ≤ length word.now }
    requires short { length word.now < 2 ^ 26 }
    requires in_range { All (λ c. c < width) columns.now }
    requires missing { TokensMayBeMissing (front.now ++ rules.now) word.now }
    requires table { IsFurthest (front.now ++ rules.now) word.now width table.now }
    ensures none { IsNone result → (j : ℕ) →
        ¬ ReadThrough (front.now ++ rules.now) word.now columns.now start j }
    ensures some { IfSome result (λ j.
        ReadThrough (front.now ++ rules.now) word.now columns.now start j) }
    ensures most { IfSome result (λ j. (k : ℕ) →
        ReadThrough (front.now ++ rules.now) word.now columns.now start k → k ≤ j) }
{
    match past_columns(columns, start, word, width, table) {
        0 => None,
        bound => Some(bound as usize - 1),
    }
}

// So many cells a table has at most, of four bytes each: more than one takes for a list that isn't
// too wide for a verdict, whose columns are twice the parts and names of its DTD at most.
const MAX_CELLS: usize = 268_435_456;

/// Whether a column reaches the end of the word from its beginning. There is too little memory for
/// a table of more than `MAX_CELLS`.
pub fn reaches_end(
    alloc: Global,
    front: &[ColumnRule],
    rules: &[ColumnRule],
    word: &[Token],
    width: usize,
    column: usize,
) -> Result<bool, AllocError>
    requires short { length word.now < 2 ^ 26 }
    requires narrow { width < 2 ^ 26 }
    requires column { column < width }
    requires in_range { InRange width (front.now ++ rules.now) }
    requires missing { TokensMayBeMissing (front.now ++ rules.now) word.now }
    ensures { IfOk result (λ b. IsTrue b ↔
        ReadThrough (front.now ++ rules.now) word.now (column ∷ []) 0 (length word.now)) }
{
    if (word.len() + 1) * width > MAX_CELLS {
        return Err(AllocError);
    }
    let table = fill(alloc, front, rules, word, width)?;
    let furthest = furthest_place(front, rules, &[column], 0, word, width, &table);
    Ok(furthest == Some(word.len()))
}
