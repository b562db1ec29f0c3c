//! The rules of the columns of parts.

ghost use Rattle.std.specs.Prelude.{◌≡◌, ◌+◌, ◌<◌, ◌^◌, IfOk, Some, suc};
ghost use Rattle.pv_model.specs.Plain.{PlainPart, PlainParts, choice, opt, plus, seq, star};
ghost use Rattle.pv_model.specs.Plain as plain;
ghost use Rattle.pv_rules.specs.Numbering.{IsChoiceAt, part_at, rest_at};
ghost use Rattle.pv_productive.specs.PlainForms.{dtd_of};
ghost use Rattle.pv_reach.specs.AddedRules.{IsRuleOfPart, LaysOut};
ghost use Rattle.pv_reach.specs.Columns.{member_columns, part_column};
ghost use Rattle.pv_reach.specs.Parts.{next_number};

use crate::rules::adding::{add, part_column};
use pv_columns::ColumnRule;
use pv_model::{NameId, Token};
use pv_productive::Grammar;
use pv_rules::{Kind, Membership};
use std::alloc::{AllocError, Global};

/// An element of a name: it is there, or it is missing round its content.
fn add_name(
    alloc: Global,
    grammar: &Grammar,
    number: u32,
    id: NameId,
    rules: &mut Vec<ColumnRule>,
) -> Result<(), AllocError>
    requires { part_at (dtd_of grammar.now) number ≡ Some (plain.name id.0) }
    ensures { IfOk result (λ _. LaysOut (dtd_of grammar.now) rules.old.items rules.new.items
        (part_column (dtd_of grammar.now) number) (IsRuleOfPart (dtd_of grammar.now) number)) }
{
    let column = part_column(grammar, number);
    add(alloc, rules, column, Some(Token::Name(id)), &[])?;
    if id.0 < grammar.dtd().count() {
        add(alloc, rules, column, None, &[id.0 as usize])?;
    }
    Ok(())
}

/// The next member of the sequence that a part is a member of.
fn next_member(grammar: &Grammar, number: u32) -> Option<u32>
    ensures { result ≡ next_number number (rest_at (dtd_of grammar.now) number) }
{
    let Some(part) = grammar.part_of(number) else {
        return None;
    };
    match part.membership {
        Membership::Outside => None,
        Membership::Last => None,
        Membership::Followed => Some(part.end),
    }
}

/// The columns of the members of a sequence.
fn members(alloc: Global, grammar: &Grammar, number: u32) -> Result<Vec<usize>, AllocError>
    requires short { number + 1 < 2 ^ 32 }
    requires seq { (ps : PlainParts) × (part_at (dtd_of grammar.now) number ≡ Some (seq ps)) }
    ensures { IfOk result (λ columns. (ps : PlainParts) →
        part_at (dtd_of grammar.now) number ≡ Some (seq ps) →
        columns.items ≡ member_columns (dtd_of grammar.now) (suc number) ps) }
{
    let mut columns = Vec::new(alloc);
    let mut next = Some(number + 1);
    while let Some(member) = next {
        columns.push(part_column(grammar, member))?;
        next = next_member(grammar, member);
    }
    Ok(columns)
}

fn add_seq(
    alloc: Global,
    grammar: &Grammar,
    number: u32,
    rules: &mut Vec<ColumnRule>,
) -> Result<(), AllocError>
    requires short { number + 1 < 2 ^ 32 }
    requires seq { (ps : PlainParts) × (part_at (dtd_of grammar.now) number ≡ Some (seq ps)) }
    ensures { IfOk result (λ _. LaysOut (dtd_of grammar.now) rules.old.items rules.new.items
        (part_column (dtd_of grammar.now) number) (IsRuleOfPart (dtd_of grammar.now) number)) }
{
    let columns = members(alloc, grammar, number)?;
    add(alloc, rules, part_column(grammar, number), None, &columns)?;
    Ok(())
}

/// A choice, whose members end before `end`.
fn add_choice(
    alloc: Global,
    grammar: &Grammar,
    number: u32,
    end: u32,
    rules: &mut Vec<ColumnRule>,
) -> Result<(), AllocError>
    requires { IsChoiceAt (dtd_of grammar.now) number end }
    ensures { IfOk result (λ _. LaysOut (dtd_of grammar.now) rules.old.items rules.new.items
        (part_column (dtd_of grammar.now) number) (IsRuleOfPart (dtd_of grammar.now) number)) }
{
    let column = part_column(grammar, number);
    let mut member = number + 1;
    while member < end {
        add(alloc, rules, column, None, &[part_column(grammar, member)])?;
        member = grammar.flat().end_of(member);
    }
    Ok(())
}

fn add_opt(
    alloc: Global,
    grammar: &Grammar,
    number: u32,
    rules: &mut Vec<ColumnRule>,
) -> Result<(), AllocError>
    requires { (p : PlainPart) × (part_at (dtd_of grammar.now) number ≡ Some (opt p)) }
    ensures { IfOk result (λ _. LaysOut (dtd_of grammar.now) rules.old.items rules.new.items
        (part_column (dtd_of grammar.now) number) (IsRuleOfPart (dtd_of grammar.now) number)) }
{
    let column = part_column(grammar, number);
    add(alloc, rules, column, None, &[])?;
    add(alloc, rules, column, None, &[column + 1])?;
    Ok(())
}

fn add_star(
    alloc: Global,
    grammar: &Grammar,
    number: u32,
    rules: &mut Vec<ColumnRule>,
) -> Result<(), AllocError>
    requires { (p : PlainPart) × (part_at (dtd_of grammar.now) number ≡ Some (star p)) }
    ensures { IfOk result (λ _. LaysOut (dtd_of grammar.now) rules.old.items rules.new.items
        (part_column (dtd_of grammar.now) number) (IsRuleOfPart (dtd_of grammar.now) number)) }
{
    let column = part_column(grammar, number);
    add(alloc, rules, column, None, &[])?;
    add(alloc, rules, column, None, &[column + 1, column])?;
    Ok(())
}

fn add_plus(
    alloc: Global,
    grammar: &Grammar,
    number: u32,
    rules: &mut Vec<ColumnRule>,
) -> Result<(), AllocError>
    requires { (p : PlainPart) × (part_at (dtd_of grammar.now) number ≡ Some (plus p)) }
    ensures { IfOk result (λ _. LaysOut (dtd_of grammar.now) rules.old.items rules.new.items
        (part_column (dtd_of grammar.now) number) (IsRuleOfPart (dtd_of grammar.now) number)) }
{
    let column = part_column(grammar, number);
    add(alloc, rules, column, None, &[column + 1])?;
    add(alloc, rules, column, None, &[column + 1, column])?;
    Ok(())
}

/// Adds the rules of a part.
pub fn add_part(
    alloc: Global,
    grammar: &Grammar,
    number: u32,
    rules: &mut Vec<ColumnRule>,
) -> Result<(), AllocError>
    requires { number + 1 < 2 ^ 32 }
    ensures { IfOk result (λ _. LaysOut (dtd_of grammar.now) rules.old.items rules.new.items
        (part_column (dtd_of grammar.now) number) (IsRuleOfPart (dtd_of grammar.now) number)) }
{
    let Some(part) = grammar.part_of(number) else {
        return Ok(());
    };
    match part.kind {
        Kind::Name(id) => add_name(alloc, grammar, number, id, rules),
        Kind::Seq => add_seq(alloc, grammar, number, rules),
        Kind::Choice => add_choice(alloc, grammar, number, part.end, rules),
        Kind::Opt => add_opt(alloc, grammar, number, rules),
        Kind::Star => add_star(alloc, grammar, number, rules),
        Kind::Plus => add_plus(alloc, grammar, number, rules),
    }
}
