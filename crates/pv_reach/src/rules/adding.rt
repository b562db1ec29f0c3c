//! Adding rules to a list, and the numbers of columns.

ghost use Rattle.std.specs.Prelude.{◌≡◌, IfOk};
ghost use Rattle.pv_productive.specs.PlainForms.{dtd_of};
ghost use Rattle.pv_reach.specs.AddedRules.{AddsRule};
ghost use Rattle.pv_reach.specs.Columns.{any_column, part_column};

use pv_columns::ColumnRule;
use pv_model::Token;
use pv_productive::Grammar;
use std::alloc::{AllocError, Global};

/// The column of a part. The content of a name has the name's number.
pub fn part_column(grammar: &Grammar, number: u32) -> usize
    ensures { result ≡ part_column (dtd_of grammar.now) number }
{
    grammar.dtd().names() as usize + number as usize
}

/// The column of what ANY allows.
pub fn any_column(grammar: &Grammar) -> usize
    ensures { result ≡ any_column (dtd_of grammar.now) }
{
    grammar.dtd().names() as usize + grammar.dtd().parts() as usize
}

/// Adds a rule.
pub fn add(
    alloc: Global,
    rules: &mut Vec<ColumnRule>,
    left: usize,
    token: Option<Token>,
    columns: &[usize],
) -> Result<(), AllocError>
    ensures { IfOk result (λ _. AddsRule rules.old.items rules.new.items left token columns.now) }
{
    let columns = Vec::from_slice(alloc, columns)?;
    rules.push(ColumnRule {
        left,
        token,
        columns,
    })?;
    Ok(())
}
