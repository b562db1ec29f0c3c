//! The rules of the columns of contents.

ghost use Rattle.std.specs.Prelude.{◌≡◌, ◌<◌, ◌≤◌, ℕ, false, true, IfOk, Some, slice_get};
ghost use Rattle.pv_model.specs.Plain.{any};
ghost use Rattle.pv_model.specs.Plain as plain;
ghost use Rattle.pv_dtd.specs.Plain.{declared, model_of};
ghost use Rattle.pv_rules.specs.Flat.{flat_contents};
ghost use Rattle.pv_rules.specs.declared.flat.ContentKind.TheVariants.{Mixed as mixed_kind};
ghost use Rattle.pv_productive.specs.PlainForms.{dtd_of};
ghost use Rattle.pv_reach.specs.AddedRules.{AddsListed, IsRuleOfContent, LaysOut, LaysOutNames};
ghost use Rattle.pv_reach.specs.AddedRules.{LaysOutParts};
ghost use Rattle.pv_reach.specs.Columns.{IsAnyRule, any_column};

use crate::rules::adding::{add, any_column, part_column};
use crate::rules::parts::add_part;
use pv_columns::ColumnRule;
use pv_model::{NameId, Token};
use pv_productive::Grammar;
use pv_rules::{ContentKind, FlatContent};
use std::alloc::{AllocError, Global};

/// A rule of mixed content for each listed name, by the numbers of their parts.
fn add_listed(
    alloc: Global,
    grammar: &Grammar,
    name: u32,
    first: u32,
    end: u32,
    rules: &mut Vec<ColumnRule>,
) -> Result<(), AllocError>
    requires { first ≤ end }
    ensures { IfOk result (λ _. AddsListed (dtd_of grammar.now) rules.old.items rules.new.items
        name first end) }
{
    for number in first..end {
        let columns = [part_column(grammar, number), name as usize];
        add(alloc, rules, name as usize, None, &columns)?;
    }
    Ok(())
}

fn add_mixed(
    alloc: Global,
    grammar: &Grammar,
    name: u32,
    content: FlatContent,
    rules: &mut Vec<ColumnRule>,
) -> Result<(), AllocError>
    requires content { slice_get (flat_contents 0 (dtd_of grammar.now).models) name ≡ Some content }
    requires mixed { content.kind ≡ mixed_kind }
    ensures { IfOk result (λ _. LaysOut (dtd_of grammar.now) rules.old.items rules.new.items
        name (IsRuleOfContent (dtd_of grammar.now) name)) }
{
    let column = name as usize;
    add(alloc, rules, column, None, &[])?;
    add(alloc, rules, column, Some(Token::Text), &[column])?;
    add_listed(alloc, grammar, name, content.first, content.end, rules)?;
    Ok(())
}

/// Adds the rules of a name's content, but not those of its parts.
fn add_content(
    alloc: Global,
    grammar: &Grammar,
    name: u32,
    rules: &mut Vec<ColumnRule>,
) -> Result<(), AllocError>
    ensures { IfOk result (λ _. LaysOut (dtd_of grammar.now) rules.old.items rules.new.items
        name (IsRuleOfContent (dtd_of grammar.now) name)) }
{
    let Some(content) = grammar.content_of(NameId(name)) else {
        return Ok(());
    };
    let column = name as usize;
    match content.kind {
        ContentKind::Empty => add(alloc, rules, column, None, &[]),
        ContentKind::Any => add(alloc, rules, column, None, &[any_column(grammar)]),
        ContentKind::Mixed => add_mixed(alloc, grammar, name, content, rules),
        ContentKind::Children => {
            let first = part_column(grammar, content.first);
            add(alloc, rules, column, None, &[first])
        }
    }
}

/// The rules of the parts from `first` up to `end`, which is left out. What is within a part has
/// higher numbers, so that the last part comes first.
fn add_parts(
    alloc: Global,
    grammar: &Grammar,
    first: u32,
    end: u32,
    rules: &mut Vec<ColumnRule>,
) -> Result<(), AllocError>
    requires { first ≤ end }
    ensures { IfOk result (λ _. LaysOutParts (dtd_of grammar.now) rules.old.items rules.new.items
        first end) }
{
    for number in (first..end).rev() {
        add_part(alloc, grammar, number, rules)?;
    }
    Ok(())
}

/// Adds the rules of a name's content, and before them those of its parts.
pub fn add_name(
    alloc: Global,
    grammar: &Grammar,
    name: u32,
    rules: &mut Vec<ColumnRule>,
) -> Result<(), AllocError>
    ensures { IfOk result (λ _. LaysOutNames (dtd_of grammar.now) rules.old.items rules.new.items
        (λ x. x ≡ name)) }
{
    let Some(content) = grammar.content_of(NameId(name)) else {
        return Ok(());
    };
    add_parts(alloc, grammar, content.first, content.end, rules)?;
    add_content(alloc, grammar, name, rules)?;
    Ok(())
}
