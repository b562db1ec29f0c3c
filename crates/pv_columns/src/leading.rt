//! Columns that are free since they lead to free ones.

ghost use Rattle.std.specs.Prelude.{◌≡◌, ◌<◌, ◌^◌, ◌⊎◌, ℕ, IfOk, IfSome, Contains, false, length};
ghost use Rattle.std.specs.Prelude.{true};
ghost use Rattle.pv_columns.specs.Marks.{IsAmong, IsMarked, unmarked};
ghost use Rattle.pv_columns.specs.Takes.{IsFree};
ghost use Rattle.pv_columns.specs.Frees.{AreFree};
ghost use Rattle.pv_columns.specs.ColumnRules.{InRange};
ghost use Rattle.pv_columns.specs.Sets.{AreLayers, AreTokensBelow, TakesAll};

use crate::marks::{is_marked, is_open};
use crate::rules::ColumnRule;
use crate::sets::{Layer, repeating_columns, takes_all};
use std::alloc::{AllocError, Global};

/// One of these columns that is free and takes all that column `left` takes.
fn find_free(
    rules: &[ColumnRule],
    live: &[bool],
    layers: &[Layer],
    columns: &[usize],
    left: usize,
    frees: &[bool],
) -> Option<usize>
    requires layers { AreLayers rules.now live.now layers.now }
    requires tokens { AreTokensBelow (length layers.now) rules.now }
    ensures { IfSome result
        (λ d. IsAmong d columns.now × IsMarked frees.now d × TakesAll rules.now live.now d left) }
{
    for column in columns {
        if is_marked(frees, *column) && takes_all(rules, live, layers, *column, left) {
            return Some(*column);
        }
    }
    None
}

/// Whether a rule leads its column to a free one that takes as much.
fn leads_to_free(
    rules: &[ColumnRule],
    live: &[bool],
    layers: &[Layer],
    rule: &ColumnRule,
    frees: &[bool],
) -> bool
    requires layers { AreLayers rules.now live.now layers.now }
    requires tokens { AreTokensBelow (length layers.now) rules.now }
    requires rule { Contains rules.now rule.now }
    requires frees { AreFree rules.now live.now frees.now }
    ensures { result ≡ true → IsFree rules.now live.now rule.now.left }
{
    if !is_open(rule, live) {
        return false;
    }
    let found = find_free(
        rules,
        live,
        layers,
        rule.columns.as_slice(),
        rule.left,
        frees,
    );
    match found {
        Some(_) => true,
        None => false,
    }
}

/// Marks the column of a rule, if there is a mark for it, and tells whether it wasn't marked.
fn mark(column: usize, frees: &mut Vec<bool>) -> bool
    ensures marks { (c : ℕ) → IsMarked frees.new.items c → (c ≡ column) ⊎
        IsMarked frees.old.items c }
    ensures same { result ≡ false → frees.new.items ≡ frees.old.items }
    ensures fewer { result ≡ true → unmarked frees.new.items < unmarked frees.old.items }
{
    if column < frees.len() && !frees[column] {
        frees[column] = true;
        true
    } else {
        false
    }
}

/// Marks columns that lead to free ones, and tells whether there was one.
fn lead(rules: &[ColumnRule], live: &[bool], layers: &[Layer], frees: &mut Vec<bool>) -> bool
    requires layers { AreLayers rules.now live.now layers.now }
    requires tokens { AreTokensBelow (length layers.now) rules.now }
    requires frees { AreFree rules.now live.now frees.old.items }
    ensures frees { AreFree rules.now live.now frees.new.items }
    ensures fewer { result ≡ true → unmarked frees.new.items < unmarked frees.old.items }
{
    let mut changed = false;
    for rule in rules {
        if leads_to_free(rules, live, layers, rule, frees.as_slice()) && mark(rule.left, frees) {
            changed = true;
        }
    }
    changed
}

/// Columns that are free: those that repeat all that they take, and those that lead to free ones.
pub fn free_columns(
    alloc: Global,
    rules: &[ColumnRule],
    live: &[bool],
    layers: &[Layer],
    width: usize,
) -> Result<Vec<bool>, AllocError>
    requires in_range { InRange width rules.now }
    requires layers { AreLayers rules.now live.now layers.now }
    requires tokens { AreTokensBelow (length layers.now) rules.now }
    requires few { length layers.now < 2 ^ 32 }
    ensures { IfOk result (λ frees. AreFree rules.now live.now frees.items) }
{
    let mut frees = repeating_columns(alloc, rules, live, layers, width)?;
    while lead(rules, live, layers, &mut frees) {}
    Ok(frees)
}
