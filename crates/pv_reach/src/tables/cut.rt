//! The rules that a column needs, over few columns with numbers of their own.
//!
//! A search from the column stops at free ones: these reach over exactly the spans of tokens of
//! their sets, so that in place of their rules they have one for each such token of a word. The
//! table of a list has then a column for each that was found, and none for the rest of the DTD. The
//! rules of the others don't depend on the word, and are kept for all lists.

ghost use Rattle.std.specs.Prelude.{◌≡◌, ◌<◌, ◌≤◌, ◌⊎◌, ℕ, Contains, IfOk, OnOk, get_or, length};
ghost use Rattle.pv_columns.specs.declared.rules.ColumnRule.{ColumnRule as PlainRule};
ghost use Rattle.pv_reach.specs.Cuts.{AddsCut, AreColumnNumbers, AreCutRules, AreRanges};
ghost use Rattle.pv_reach.specs.Cuts.{AreRulesKept, HasAllNumbered, HasNumbered, IsCutOf};
ghost use Rattle.pv_reach.specs.Merging.{column_head, column_heads};

use crate::plan::Plan;
use crate::rules::adding::add;
use crate::tables::found::{FoundColumns, Uncut, find_needed};
use pv_columns::ColumnRule;
use std::alloc::{AllocError, Global};

/// Rules over few columns, by which a column reaches what it reaches by those of a plan; but none of
/// free columns.
#[derive(Debug, Drop)]
pub struct Cut {
    pub rules: Vec<ColumnRule>,
    /// The columns of the plan that have numbers, in order.
    pub names: Vec<usize>,
    /// The numbers of those that are free.
    pub frees: Vec<usize>,
    /// The number of the column.
    pub number: usize,
}

/// The numbers of columns.
fn numbers_of(alloc: Global, found: &FoundColumns, columns: &[usize]) -> Result<Vec<usize>, Uncut>
    ensures are { IfOk result (λ numbers.
        column_heads found.now.names.items numbers.items ≡ columns.now) }
    ensures within { IfOk result (λ numbers. AreColumnNumbers found.now.names.items numbers.items) }
{
    let mut numbers = Vec::new(alloc);
    for column in columns {
        numbers.push(found.number_of(*column)?)?;
    }
    Ok(numbers)
}

/// Adds the rule of this number over numbers of columns, where it is one of the column of `left`.
fn add_numbered(
    alloc: Global,
    rules: &[ColumnRule],
    number: usize,
    found: &FoundColumns,
    left: usize,
    few: &mut Vec<ColumnRule>,
) -> Result<(), Uncut>
    requires { left < length found.now.names.items }
    ensures adds { OnOk result (AddsCut rules.now found.now.names.items few.old.items
        few.new.items) }
    ensures has { OnOk result ((r : PlainRule) → number < length rules.now →
        r ≡ get_or rules.now number r → r.left ≡ column_head found.now.names.items left →
        HasNumbered found.now.names.items few.new.items left r) }
{
    if number >= rules.len() {
        return Ok(());
    }
    let rule = &rules[number];
    if rule.left != found.names[left] {
        return Ok(());
    }
    let numbers = numbers_of(alloc, found, &rule.columns)?;
    add(alloc, few, left, rule.token, &numbers)?;
    Ok(())
}

/// Adds the rules of a column, which stand in this range, over numbers of columns.
fn add_rules(
    alloc: Global,
    rules: &[ColumnRule],
    first: usize,
    end: usize,
    found: &FoundColumns,
    left: usize,
    few: &mut Vec<ColumnRule>,
) -> Result<(), Uncut>
    requires { left < length found.now.names.items }
    ensures adds { OnOk result (AddsCut rules.now found.now.names.items few.old.items
        few.new.items) }
    ensures has { OnOk result ((k : ℕ) (r : PlainRule) → first ≤ k → k < end →
        k < length rules.now → r ≡ get_or rules.now k r →
        r.left ≡ column_head found.now.names.items left →
        HasNumbered found.now.names.items few.new.items left r) }
{
    for number in first..end {
        add_numbered(alloc, rules, number, found, left, few)?;
    }
    Ok(())
}

/// Adds the rules of the column that has a number, or tells that it is free.
fn add_column(
    alloc: Global,
    plan: &Plan,
    found: &FoundColumns,
    left: usize,
    few: &mut Vec<ColumnRule>,
    frees: &mut Vec<usize>,
) -> Result<(), Uncut>
    requires left { left < length found.now.names.items }
    requires ranges { AreRanges plan.now.rules.items plan.now.ranges }
    ensures adds { OnOk result (AddsCut plan.now.rules.items found.now.names.items few.old.items
        few.new.items) }
    ensures frees { OnOk result ((l : ℕ) → Contains frees.old.items l →
        Contains frees.new.items l) }
    ensures has { OnOk result (Contains frees.new.items left ⊎
        HasAllNumbered plan.now.rules.items found.now.names.items few.new.items left) }
{
    let column = found.names[left];
    if plan.free.set_at(column).is_some() {
        frees.push(left)?;
        return Ok(());
    }
    let first = plan.ranges.first_of(column);
    let end = plan.ranges.end_of(column);
    add_rules(alloc, &plan.rules, first, end, found, left, few)
}

/// Adds the rules of all columns that have numbers, but those of free ones, whose numbers it tells.
/// Those of the last column come first, so that what a column leads to comes before it.
fn add_columns(
    alloc: Global,
    plan: &Plan,
    found: &FoundColumns,
    few: &mut Vec<ColumnRule>,
    frees: &mut Vec<usize>,
) -> Result<(), Uncut>
    requires ranges { AreRanges plan.now.rules.items plan.now.ranges }
    ensures { OnOk result (AreCutRules plan.now.rules.items found.now.names.items few.old.items →
        AreRulesKept plan.now.rules.items found.now.names.items frees.new.items few.new.items) }
{
    for left in (0..found.names.len()).rev() {
        add_column(alloc, plan, found, left, few, frees)?;
    }
    Ok(())
}

/// The rules that a column needs.
pub fn cut_of(
    alloc: Global,
    plan: &Plan,
    found: &mut FoundColumns,
    column: usize,
) -> Result<Cut, Uncut>
    requires ranges { AreRanges plan.now.rules.items plan.now.ranges }
    ensures cut { IfOk result (IsCutOf plan.now.rules.items plan.now.width) }
    ensures column { IfOk result (λ cut. column_head cut.names.items cut.number ≡ column) }
{
    find_needed(plan, column, found)?;
    let number = found.number_of(column)?;
    if found.names.len() > plan.width {
        return Err(Uncut::Unfound);
    }
    let mut rules = Vec::new(alloc);
    let mut frees = Vec::new(alloc);
    add_columns(alloc, plan, found, &mut rules, &mut frees)?;
    Ok(Cut {
        rules,
        names: Vec::from_slice(alloc, &found.names)?,
        frees,
        number,
    })
}
