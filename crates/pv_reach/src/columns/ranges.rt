//! Where the rules of each column stand.

ghost use Rattle.std.specs.Prelude.{◌≡◌, ◌≢◌, ◌<◌, ◌≤◌, ℕ, IfOk, get_or, length};
ghost use Rattle.pv_columns.specs.ColumnRules.{InRange};
ghost use Rattle.pv_columns.specs.declared.rules.ColumnRule.{ColumnRule as PlainRule};
ghost use Rattle.pv_reach.specs.Cuts.{AreRanges};

use pv_columns::ColumnRule;
use std::alloc::{AllocError, Global};

/// For each column the numbers of rules among which its own stand: those from the first of them up
/// to after the last one.
#[derive(Debug, Drop)]
pub struct RuleRanges {
    first: Vec<usize>,
    end: Vec<usize>,
}

/// Puts a number at a place.
fn put_number(numbers: &mut Vec<usize>, place: usize, number: usize)
    requires { place < length numbers.old.items }
    ensures long { length numbers.new.items ≡ length numbers.old.items }
    ensures here { get_or numbers.new.items place 0 ≡ number }
    ensures others { (x : ℕ) → x ≢ place →
        get_or numbers.new.items x 0 ≡ get_or numbers.old.items x 0 }
{
    numbers[place] = number;
}

/// For each column the number of its first rule.
fn firsts_of(alloc: Global, rules: &[ColumnRule], width: usize) -> Result<Vec<usize>, AllocError>
    requires { InRange width rules.now }
    ensures { IfOk result (λ firsts. (k : ℕ) (d : PlainRule) → k < length rules.now →
        get_or firsts.items (get_or rules.now k d).left 0 ≤ k) }
{
    let mut firsts = vec![in alloc; 0usize; width]?;
    for number in (0..rules.len()).rev() {
        put_number(&mut firsts, rules[number].left, number);
    }
    Ok(firsts)
}

/// For each column the number after that of its last rule.
fn ends_of(alloc: Global, rules: &[ColumnRule], width: usize) -> Result<Vec<usize>, AllocError>
    requires { InRange width rules.now }
    ensures { IfOk result (λ ends. (k : ℕ) (d : PlainRule) → k < length rules.now →
        k < get_or ends.items (get_or rules.now k d).left 0) }
{
    let mut ends = vec![in alloc; 0usize; width]?;
    for number in 0..rules.len() {
        put_number(&mut ends, rules[number].left, number + 1);
    }
    Ok(ends)
}

impl RuleRanges {
    /// The ranges of the rules of columns below `width`.
    pub fn of(alloc: Global, rules: &[ColumnRule], width: usize) -> Result<RuleRanges, AllocError>
        requires { InRange width rules.now }
        ensures { IfOk result (λ ranges. AreRanges rules.now ranges) }
    {
        let first = firsts_of(alloc, rules, width)?;
        let end = ends_of(alloc, rules, width)?;
        Ok(RuleRanges { first, end })
    }

    /// Where the rules of a column begin.
    pub fn first_of(&self, column: usize) -> usize
        ensures { result ≡ get_or self.now.first.items column 0 }
    {
        self.first.get(column).copied().unwrap_or(0)
    }

    /// Where the rules of a column end.
    pub fn end_of(&self, column: usize) -> usize
        ensures { result ≡ get_or self.now.end.items column 0 }
    {
        self.end.get(column).copied().unwrap_or(0)
    }
}
