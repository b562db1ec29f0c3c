//! The rules of a grammar over its components.
//!
//! Columns that lead to one another reach the same, so one of them stands for all: its rules are
//! theirs, over the columns that stand for others. With `a` declared as `(b, c?)` and `b` as
//! `(a?)`, the content of `a` derives itself, inside a missing `b` and a missing `a`, with a `c`
//! after it. Each place that it reaches gives the next one, so over n times `c` each place would
//! take n rounds. A further column for any number of such followers gives the furthest place in a
//! few rounds, and reaches nothing new.

ghost use Rattle.std.specs.Prelude.{◌≡◌, ◌+◌, ◌<◌, ◌^◌, ℕ, Contains, IfOk, IfSome, OnOk, get_or};
ghost use Rattle.std.specs.Prelude.{length, map, slice_get};
ghost use Rattle.pv_reach.specs.AddedRules.{AddsRule};
ghost use Rattle.pv_reach.specs.Merging.{AddsMerged, AreMerged, HasMerged, IsMerging};
ghost use Rattle.pv_reach.specs.Merging.{MayStandBehind, column_head, column_heads};

use crate::rules::adding::add;
use pv_columns::{ColumnRule, is_open};
use std::alloc::{AllocError, Global};

/// What the rules of a grammar are merged by.
#[derive(Debug, Drop)]
pub struct Merging {
    /// Which columns reach over no tokens.
    pub bare: Vec<bool>,
    /// For each column the one that stands for it.
    pub heads: Vec<usize>,
    /// The columns that have a further column: that of the k-th is the k-th after all columns.
    pub led: Vec<usize>,
    /// For each of these its place among them.
    pub places: Vec<usize>,
}

/// The column that stands for another.
pub fn column_head(heads: &[usize], column: usize) -> usize
    ensures { result ≡ column_head heads.now column }
{
    heads.get(column).copied().unwrap_or(0)
}

fn column_heads(alloc: Global, heads: &[usize], columns: &[usize]) -> Result<Vec<usize>, AllocError>
    ensures { IfOk result (λ found. found.items ≡ column_heads heads.now columns.now) }
{
    let mut found = Vec::new(alloc);
    for column in columns {
        found.push(column_head(heads, *column))?;
    }
    Ok(found)
}

/// The further column of a column that stands for others, if it has one.
fn further_of(merging: &Merging, head: usize) -> Option<usize>
    requires { length merging.now.heads.items + length merging.now.led.items < 2 ^ 26 }
    ensures { IfSome result (λ f. (k : ℕ) × (k < length merging.now.led.items)
        × (f ≡ length merging.now.heads.items + k) × (get_or merging.now.led.items k 0 ≡ head)) }
{
    let place = merging.places.get(head).copied().unwrap_or(0);
    if place < merging.led.len() && merging.led[place] == head {
        Some(merging.heads.len() + place)
    } else {
        None
    }
}

/// The first place on the right of a rule where its own column stands, or one that leads to it and
/// is led to by it.
pub fn own_place(heads: &[usize], rule: &ColumnRule) -> Option<usize>
    ensures { IfSome result (λ k. (k < length rule.now.columns.items)
        × (column_head heads.now (get_or rule.now.columns.items k 0)
        ≡ column_head heads.now rule.now.left)) }
{
    let head = column_head(heads, rule.left);
    for (place, column) in rule.columns.iter().enumerate() {
        if column_head(heads, *column) == head {
            return Some(place);
        }
    }
    None
}

/// Adds the rule over the columns that stand for its own.
fn add_merged(
    alloc: Global,
    rules: &[ColumnRule],
    merging: &Merging,
    number: usize,
    new: &mut Vec<ColumnRule>,
) -> Result<(), AllocError>
    requires { number < length rules.now }
    ensures added { OnOk result (AddsMerged rules.now merging.now new.old.items new.new.items) }
    ensures has { OnOk result (HasMerged rules.now merging.now new.new.items number) }
{
    let rule = &rules[number];
    let columns = column_heads(alloc, &merging.heads, &rule.columns)?;
    add(
        alloc,
        new,
        column_head(&merging.heads, rule.left),
        rule.token,
        &columns,
    )
}

/// Adds rules of the further column for what stands from this place of the rule on.
fn add_behind(
    alloc: Global,
    rules: &[ColumnRule],
    merging: &Merging,
    number: usize,
    first: usize,
    further: usize,
    new: &mut Vec<ColumnRule>,
) -> Result<(), AllocError>
    requires number { number < length rules.now }
    requires may { MayStandBehind rules.now merging.now number first further }
    ensures { OnOk result (AddsMerged rules.now merging.now new.old.items new.new.items) }
{
    let rule = &rules[number];
    for i in first..rule.columns.len() {
        let follower = column_head(&merging.heads, rule.columns[i]);
        add(alloc, new, further, None, &[follower, further])?;
    }
    Ok(())
}

/// Adds rules of the further column, where the rule reads nothing and its column has a further one.
fn add_followers(
    alloc: Global,
    rules: &[ColumnRule],
    merging: &Merging,
    number: usize,
    new: &mut Vec<ColumnRule>,
) -> Result<(), AllocError>
    requires number { number < length rules.now }
    requires merging { IsMerging rules.now merging.now }
    ensures { OnOk result (AddsMerged rules.now merging.now new.old.items new.new.items) }
{
    let rule = &rules[number];
    let Some(further) = further_of(merging, column_head(&merging.heads, rule.left)) else {
        return Ok(());
    };
    let Some(place) = own_place(&merging.heads, rule) else {
        return Ok(());
    };
    if is_open(rule, &merging.bare) {
        add_behind(alloc, rules, merging, number, place + 1, further, new)?;
    }
    Ok(())
}

/// Adds the rule by which the further column of a column stands after it, and the one by which it
/// reaches nothing more.
fn add_further(
    alloc: Global,
    rules: &[ColumnRule],
    merging: &Merging,
    head: usize,
    new: &mut Vec<ColumnRule>,
) -> Result<(), AllocError>
    requires merging { IsMerging rules.now merging.now }
    ensures { OnOk result (AddsMerged rules.now merging.now new.old.items new.new.items) }
{
    let Some(further) = further_of(merging, head) else {
        return Ok(());
    };
    add(alloc, new, further, None, &[])?;
    add(alloc, new, head, None, &[head, further])?;
    Ok(())
}

/// Whether the rule at a place of the order is the last one of its component there.
fn is_last(rules: &[ColumnRule], heads: &[usize], order: &[usize], place: usize) -> bool {
    let head_at = |place: usize| {
        let number = order.get(place).copied()?;
        let rule = rules.get(number)?;
        Some(column_head(heads, rule.left))
    };
    head_at(place) != head_at(place.saturating_add(1))
}

/// Adds what stands for a rule, and after the last one of a component what stands for its further
/// column.
fn add_rule(
    alloc: Global,
    rules: &[ColumnRule],
    merging: &Merging,
    number: usize,
    is_last: bool,
    new: &mut Vec<ColumnRule>,
) -> Result<(), AllocError>
    requires number { number < length rules.now }
    requires merging { IsMerging rules.now merging.now }
    ensures added { OnOk result (AddsMerged rules.now merging.now new.old.items new.new.items) }
    ensures has { OnOk result (HasMerged rules.now merging.now new.new.items number) }
{
    add_followers(alloc, rules, merging, number, new)?;
    add_merged(alloc, rules, merging, number, new)?;
    if is_last {
        add_further(
            alloc,
            rules,
            merging,
            column_head(&merging.heads, rules[number].left),
            new,
        )?;
    }
    Ok(())
}

/// The rules in this order over the columns that stand for others, and those of further columns.
pub fn merge(
    alloc: Global,
    rules: &[ColumnRule],
    merging: &Merging,
    order: &[usize],
) -> Result<Vec<ColumnRule>, AllocError>
    requires { IsMerging rules.now merging.now }
    ensures merged { IfOk result (λ new. AreMerged rules.now merging.now new.items) }
    ensures has { IfOk result (λ new. (i : ℕ) → Contains order.now i → i < length rules.now →
        HasMerged rules.now merging.now new.items i) }
{
    let mut new = Vec::new(alloc);
    for (place, number) in order.iter().enumerate() {
        if *number < rules.len() {
            let is_last = is_last(rules, &merging.heads, order, place);
            add_rule(alloc, rules, merging, *number, is_last, &mut new)?;
        }
    }
    Ok(new)
}
