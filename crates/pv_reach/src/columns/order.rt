//! The order in which rules are gone over.

ghost use Rattle.std.specs.Prelude.{◌≡◌, ◌<◌, ℕ, Contains, IfOk, length};

use crate::graph::chains::Chains;
use crate::graph::flags::set_flag;
use pv_columns::{ColumnRule, is_marked};
use std::alloc::{AllocError, Global};

/// The numbers in their order, each where it stands first.
fn each_once(alloc: Global, numbers: &[usize], count: usize) -> Result<Vec<usize>, AllocError>
    ensures { IfOk result (λ once. (x : ℕ) → Contains numbers.now x → Contains once.items x) }
{
    let mut once = Vec::new(alloc);
    let mut flags = vec![in alloc; false; count]?;
    for number in numbers {
        if !is_marked(&flags, *number) {
            set_flag(&mut flags, *number);
            once.push(*number)?;
        }
    }
    Ok(once)
}

fn lefts_of(alloc: Global, rules: &[ColumnRule]) -> Result<Vec<usize>, AllocError> {
    let mut lefts = Vec::new(alloc);
    for rule in rules {
        lefts.push(rule.left)?;
    }
    Ok(lefts)
}

/// Appends the numbers of a chain.
fn push_chain(chains: &Chains, key: usize, numbers: &mut Vec<usize>) -> Result<(), AllocError> {
    let mut next = chains.first(key);
    while let Some(number) = next {
        numbers.push(number)?;
        next = chains.next(number);
    }
    Ok(())
}

/// The numbers of the rules of these columns, from the last column on.
fn by_column(
    alloc: Global,
    rules: &[ColumnRule],
    columns: &[usize],
    width: usize,
) -> Result<Vec<usize>, AllocError> {
    let chains = Chains::of(alloc, &lefts_of(alloc, rules)?, width)?;
    let mut numbers = Vec::new(alloc);
    for column in columns.iter().rev() {
        push_chain(&chains, *column, &mut numbers)?;
    }
    Ok(numbers)
}

/// The numbers of all rules, each once, those of these columns from the last column on: so what a
/// column leads to comes before it, and a table is filled in few rounds.
pub fn rule_order(
    alloc: Global,
    rules: &[ColumnRule],
    columns: &[usize],
    width: usize,
) -> Result<Vec<usize>, AllocError>
    ensures { IfOk result (λ order. (i : ℕ) → i < length rules.now → Contains order.items i) }
{
    let mut numbers = by_column(alloc, rules, columns, width)?;
    for number in 0..rules.len() {
        numbers.push(number)?;
    }
    each_once(alloc, &numbers, rules.len())
}
