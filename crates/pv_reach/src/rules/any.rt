//! The rules of what ANY allows.

ghost use Rattle.std.specs.Prelude.{◌≡◌, ℕ, false, true, IfOk, Some};
ghost use Rattle.pv_model.specs.Plain.{any};
ghost use Rattle.pv_dtd.specs.Plain.{declared, model_of};
ghost use Rattle.pv_productive.specs.PlainForms.{dtd_of};
ghost use Rattle.pv_reach.specs.AddedRules.{AddsDeclared, IsRuleOfAny, LaysOut};
ghost use Rattle.pv_reach.specs.Columns.{any_column};

use crate::rules::adding::{add, any_column};
use pv_columns::ColumnRule;
use pv_model::{NameId, Token};
use pv_productive::Grammar;
use pv_rules::ContentKind;
use std::alloc::{AllocError, Global};

/// Whether some name has the model ANY.
fn has_any(grammar: &Grammar) -> bool
    ensures some { result ≡ true → (x : ℕ) × (model_of (dtd_of grammar.now) x ≡ Some any) }
    ensures none { result ≡ false → (x : ℕ) → model_of (dtd_of grammar.now) x ≡ Some any → ⊥ }
{
    for name in 0..grammar.dtd().count() {
        if is_any(grammar, name) {
            return true;
        }
    }
    false
}

fn is_any(grammar: &Grammar, name: u32) -> bool
    ensures some { result ≡ true → model_of (dtd_of grammar.now) name ≡ Some any }
    ensures none { result ≡ false → model_of (dtd_of grammar.now) name ≡ Some any → ⊥ }
{
    let Some(content) = grammar.content_of(NameId(name)) else {
        return false;
    };
    match content.kind {
        ContentKind::Any => true,
        ContentKind::Empty => false,
        ContentKind::Mixed => false,
        ContentKind::Children => false,
    }
}

/// The rules of the elements of declared names: each is there, or it is missing round its content.
fn add_declared(
    alloc: Global,
    grammar: &Grammar,
    rules: &mut Vec<ColumnRule>,
) -> Result<(), AllocError>
    ensures { IfOk result (λ _. AddsDeclared (dtd_of grammar.now) rules.old.items rules.new.items
        (declared (dtd_of grammar.now))) }
{
    let column = any_column(grammar);
    for name in 0..grammar.dtd().count() {
        let token = Token::Name(NameId(name));
        add(alloc, rules, column, Some(token), &[column])?;
        add(alloc, rules, column, None, &[name as usize, column])?;
    }
    Ok(())
}

/// Adds the rules of what ANY allows, where some name has that model.
pub fn add_any(
    alloc: Global,
    grammar: &Grammar,
    rules: &mut Vec<ColumnRule>,
) -> Result<(), AllocError>
    ensures { IfOk result (λ _. LaysOut (dtd_of grammar.now) rules.old.items rules.new.items
        (any_column (dtd_of grammar.now)) (IsRuleOfAny (dtd_of grammar.now))) }
{
    if !has_any(grammar) {
        return Ok(());
    }
    let column = any_column(grammar);
    add(alloc, rules, column, None, &[])?;
    add(alloc, rules, column, Some(Token::Text), &[column])?;
    add_declared(alloc, grammar, rules)?;
    Ok(())
}
