//! Which columns are free, as far as their rules show it.

ghost use Rattle.std.specs.Prelude.{◌≡◌, ◌<◌, ◌+◌, ◌⊎◌, ◌∷◌, [], ℕ, IfOk, IfSome, false, length};
ghost use Rattle.std.specs.Prelude.{true};
ghost use Rattle.pv_columns.specs.Marks.{IsMarked};
ghost use Rattle.pv_columns.specs.Bits.{HasIn, bit};
ghost use Rattle.pv_columns.specs.Frees.{AreFree, AreRepeats, IsRepeatOf, RepeatBefore};
ghost use Rattle.pv_columns.specs.ColumnRules.{InRange};
ghost use Rattle.pv_columns.specs.Rows.{IsLayer};

use crate::layers::union;
use crate::rows::put;
use crate::rules::ColumnRule;
use crate::tokens::token_number;
use std::alloc::{AllocError, Global};

/// Whether these are this column alone.
fn is_one(columns: &[usize], column: usize) -> bool
    ensures { result ≡ true → columns.now ≡ column ∷ [] }
{
    columns.len() == 1 && columns[0] == column
}

/// The first of two columns, of which the second is this one.
fn first_of_two(columns: &[usize], column: usize) -> Option<usize>
    ensures { IfSome result (λ d. columns.now ≡ d ∷ column ∷ []) }
{
    if columns.len() == 2 && columns[1] == column {
        Some(columns[0])
    } else {
        None
    }
}

/// Gives a column all numbers of another one.
fn put_all(column: usize, other: usize, layer: &[u64], repeats: &mut [u64])
    requires column { column < length repeats.old }
    requires other { other < length layer.now }
    ensures long { length repeats.new ≡ length repeats.old }
    ensures only { (c k : ℕ) → HasIn repeats.new c k → HasIn repeats.old c k ⊎
        ((c ≡ column) × HasIn layer.now other k) }
{
    repeats[column] = union(repeats[column], layer[other]);
}

/// Gives a column what a rule repeats it after.
fn add_repeat(rule: &ColumnRule, layer_number: u64, layer: &[u64], repeats: &mut [u64])
    requires { rule.now.left < length repeats.old }
    ensures long { length repeats.new ≡ length repeats.old }
    ensures only { (c k : ℕ) → HasIn repeats.new c k → HasIn repeats.old c k ⊎
        IsRepeatOf layer_number layer.now rule.now c k }
{
    match rule.token {
        Some(token) => {
            if is_one(rule.columns.as_slice(), rule.left) {
                put(rule.left, token_number(token), layer_number, repeats);
            }
        }
        None => {
            if let Some(other) = first_of_two(rule.columns.as_slice(), rule.left) {
                if other < layer.len() {
                    put_all(rule.left, other, layer, repeats);
                }
            }
        }
    }
}

/// What columns repeat, of the tokens of a layer.
pub fn repeats_of(
    alloc: Global,
    rules: &[ColumnRule],
    live: &[bool],
    layer_number: u64,
    layer: &[u64],
    width: usize,
) -> Result<Vec<u64>, AllocError>
    requires in_range { InRange width rules.now }
    requires layer { IsLayer rules.now live.now layer_number layer.now }
    ensures { IfOk result (λ repeats. AreRepeats rules.now live.now layer_number repeats.items) }
{
    let mut repeats = vec![in alloc; 0u64; width]?;
    for rule in rules {
        add_repeat(rule, layer_number, layer, &mut repeats);
    }
    Ok(repeats)
}

/// Whether all numbers of a word are in another one.
pub(crate) fn is_within(small: u64, big: u64) -> bool
    ensures { result ≡ true → (k : ℕ) → bit small k ≡ 1 → bit big k ≡ 1 }
{
    union(big, small) == big
}

/// Takes the marks from columns that don't repeat all that they take of a layer.
pub fn keep_repeating(layer: &[u64], repeats: &[u64], frees: &mut [bool])
    ensures long { length frees.new ≡ length frees.old }
    ensures kept { (c : ℕ) → IsMarked frees.new c → IsMarked frees.old c ×
        ((k : ℕ) → HasIn layer.now c k → HasIn repeats.now c k) }
{
    for column in 0..frees.len() {
        if frees[column] {
            let small = layer.get(column).copied().unwrap_or(0);
            let big = repeats.get(column).copied().unwrap_or(0);
            frees[column] = is_within(small, big);
        }
    }
}
