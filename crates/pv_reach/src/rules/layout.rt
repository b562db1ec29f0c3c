//! The rules of a DTD, by columns.

ghost use Rattle.std.specs.Prelude.{IfOk};
ghost use Rattle.pv_dtd.specs.Plain.{IsDeclared};
ghost use Rattle.pv_productive.specs.PlainForms.{dtd_of};
ghost use Rattle.pv_reach.specs.AddedRules.{LaysOutNames};
ghost use Rattle.pv_reach.specs.Columns.{AreRules};

use crate::rules::any::add_any;
use crate::rules::contents::add_name;
use pv_columns::ColumnRule;
use pv_productive::Grammar;
use std::alloc::{AllocError, Global};

/// Adds the rules of all declared names.
fn add_names(
    alloc: Global,
    grammar: &Grammar,
    rules: &mut Vec<ColumnRule>,
) -> Result<(), AllocError>
    ensures { IfOk result (λ _. LaysOutNames (dtd_of grammar.now) rules.old.items rules.new.items
        (IsDeclared (dtd_of grammar.now))) }
{
    for name in 0..grammar.dtd().count() {
        add_name(alloc, grammar, name, rules)?;
    }
    Ok(())
}

/// All rules of a DTD. Those of a name's parts come before those of its content, and inner parts
/// first.
pub fn rules_of(alloc: Global, grammar: &Grammar) -> Result<Vec<ColumnRule>, AllocError>
    ensures { IfOk result (λ rules. AreRules (dtd_of grammar.now) rules.items) }
{
    let mut rules = Vec::new(alloc);
    add_names(alloc, grammar, &mut rules)?;
    add_any(alloc, grammar, &mut rules)?;
    Ok(rules)
}
