//! Marks of columns, and those of the columns that reach over no tokens.

ghost use Rattle.std.specs.Prelude.{◌≡◌, ◌<◌, ℕ, Contains, List, None, false, length};
ghost use Rattle.std.specs.Prelude.{slice_index_or, true};
ghost use Rattle.pv_columns.specs.ColumnRules.{InRange};
ghost use Rattle.pv_columns.specs.Marks.{AreNullable, AreClosedMarks, AreMarked, HoldsMark};
ghost use Rattle.pv_columns.specs.Marks.{unmarked};
ghost use Rattle.pv_columns.specs.declared.rules.ColumnRule.{ColumnRule as PlainRule};

use crate::rules::ColumnRule;

/// Whether a column is marked.
pub fn is_marked(marks: &[bool], column: usize) -> bool
    ensures { result ≡ slice_index_or marks.now column false }
{
    marks.get(column).copied().unwrap_or(false)
}

/// Whether all these columns are marked.
pub fn are_marked(marks: &[bool], columns: &[usize]) -> bool
    ensures yes { result ≡ true → AreMarked marks.now columns.now }
    ensures no { AreMarked marks.now columns.now → result ≡ true }
{
    for column in columns {
        if !is_marked(marks, *column) {
            return false;
        }
    }
    true
}

/// Whether the rule reads nothing, and all its columns are marked.
pub fn is_open(rule: &ColumnRule, marks: &[bool]) -> bool
    ensures token { result ≡ true → rule.now.token ≡ None }
    ensures marked { result ≡ true → AreMarked marks.now rule.now.columns.items }
    ensures no { result ≡ false → rule.now.token ≡ None →
        AreMarked marks.now rule.now.columns.items → ⊥ }
{
    match rule.token {
        Some(_) => false,
        None => are_marked(marks, &rule.columns),
    }
}

/// Marks the column of a rule that reads nothing and whose columns are all marked, where it wasn't,
/// and tells whether it did.
fn mark_by(rule: &ColumnRule, marks: &mut [bool]) -> bool
    requires { rule.now.left < length marks.old }
    ensures long { length marks.new ≡ length marks.old }
    ensures bare { (rules : List PlainRule) → Contains rules rule.now →
        AreNullable rules marks.old →
        AreNullable rules marks.new }
    ensures same { result ≡ false → marks.new ≡ marks.old }
    ensures holds { result ≡ false → HoldsMark marks.old rule.now }
    ensures fewer { result ≡ true → unmarked marks.new < unmarked marks.old }
{
    if marks[rule.left] || !is_open(rule, marks) {
        return false;
    }
    marks[rule.left] = true;
    true
}

/// Marks by each rule once, and tells whether any column was marked.
fn mark_more(rules: &[ColumnRule], marks: &mut [bool]) -> bool
    requires { InRange (length marks.old) rules.now }
    ensures long { length marks.new ≡ length marks.old }
    ensures bare { AreNullable rules.now marks.old → AreNullable rules.now marks.new }
    ensures closed { result ≡ false → AreClosedMarks rules.now marks.new }
    ensures fewer { result ≡ true → unmarked marks.new < unmarked marks.old }
{
    let mut changed = false;
    for rule in rules {
        if mark_by(rule, marks) {
            changed = true;
        }
    }
    changed
}

/// Marks columns until each is marked that has a rule without a token whose columns are all marked.
pub fn close_marks(rules: &[ColumnRule], marks: &mut [bool])
    requires { InRange (length marks.old) rules.now }
    ensures long { length marks.new ≡ length marks.old }
    ensures bare { AreNullable rules.now marks.old → AreNullable rules.now marks.new }
    ensures closed { AreClosedMarks rules.now marks.new }
{
    while mark_more(rules, marks) {}
}
