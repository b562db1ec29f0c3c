//! Laying out the columns of a grammar: sites that stand for the same words get one.

ghost use Rattle.std.specs.Prelude.{◌≡◌, ◌≤◌, ◌<◌, ◌+◌, ◌^◌, ℕ, IfOk, List, OnOk, Some};
ghost use Rattle.std.specs.Prelude.{length, slice_get, suc, true};
ghost use Rattle.pv_model.specs.Plain.{PlainParts, choice};
ghost use Rattle.pv_dtd.specs.Plain.{model_of};
ghost use Rattle.pv_rules.specs.Flat.{flat_contents, flat_parts};
ghost use Rattle.pv_rules.specs.Numbering.{IsChoiceAt, part_at, rest_at};
ghost use Rattle.pv_productive.specs.PlainForms.{dtd_of};
ghost use Rattle.pv_layout.specs.Columns.{AreColumns, FitsContent, FitsPart, FitsRest, IsMember};
ghost use Rattle.pv_layout.specs.Columns.{column_at};
ghost use Rattle.pv_layout.specs.FormForms.{plain_all};
ghost use Rattle.pv_layout.specs.Forms.{of_one, of_star};
ghost use Rattle.pv_layout.specs.Making.{AreBlankSites, AreLaid, IsMade, KeepsForms};
ghost use Rattle.pv_layout.specs.SiteForms.{plain_sites};

use crate::forms::Form;
use crate::making::Making;
use crate::sites::{NO_COLUMN, Sites, column_at};
use pv_chars::NoMemory;
use pv_model::NameId;
use pv_productive::Grammar;
use pv_rules::{ContentKind, FlatContent, FlatPart, Kind, Membership};
use std::alloc::Global;

/// The columns of the members of a choice, which end before `end`.
fn members_of(
    alloc: Global,
    grammar: &Grammar,
    parts: &[u32],
    number: u32,
    end: u32,
) -> Result<Vec<u32>, NoMemory>
    requires choice { IsChoiceAt (dtd_of grammar.now) number end }
    ensures { IfOk result (λ ds. (ps : PlainParts) →
        part_at (dtd_of grammar.now) number ≡ Some (choice ps) →
        AreColumns (IsMember number ps) (column_at parts.now) ds.items) }
{
    let mut members = Vec::new(alloc);
    let mut member = number + 1;
    while member < end {
        members.push(column_at(parts, member as usize))?;
        member = grammar.flat().end_of(member);
    }
    Ok(members)
}

/// So many columns from a number on.
fn columns_from(alloc: Global, columns: &[u32], first: u32, end: u32) -> Result<Vec<u32>, NoMemory>
    requires { first ≤ end }
    ensures { IfOk result (λ ds. AreColumns (λ e. first + e < end)
        (λ e. column_at columns.now (first + e)) ds.items) }
{
    let mut found = Vec::new(alloc);
    for number in first..end {
        found.push(column_at(columns, number as usize))?;
    }
    Ok(found)
}

/// The column of a part, where what is within it and after it has its columns.
fn column_of_part(
    alloc: Global,
    grammar: &Grammar,
    part: FlatPart,
    number: u32,
    sites: &Sites,
    making: &mut Making,
) -> Result<u32, NoMemory>
    requires part { slice_get (flat_parts (dtd_of grammar.now)) number ≡ Some part }
    requires small { number + 1 < 2 ^ 32 }
    ensures fits { IfOk result (λ c. FitsPart (dtd_of grammar.now) (plain_sites sites.now)
        (IsMade making.new.names (plain_all making.new.forms.items)) c number
        (part_at (dtd_of grammar.now) number)) }
    ensures kept { OnOk result (KeepsForms making.old.names (plain_all making.old.forms.items)
        (plain_all making.new.forms.items)) }
    ensures names { making.new.names ≡ making.old.names }
{
    let inner = number + 1;
    match part.kind {
        Kind::Name(id) => Ok(column_at(&sites.names, id.0 as usize)),
        Kind::Seq => Ok(column_at(&sites.rests, inner as usize)),
        Kind::Choice => {
            let members = members_of(alloc, grammar, &sites.parts, number, part.end)?;
            making.column(Form::OneOf(members))
        }
        Kind::Opt => making.column(Form::Opt(column_at(&sites.parts, inner as usize))),
        Kind::Star => making.column(Form::Star(column_at(&sites.parts, inner as usize), false)),
        Kind::Plus => making.column(Form::Plus(column_at(&sites.parts, inner as usize))),
    }
}

/// The column of the members of a sequence from this one on; a part that is no such member has one
/// in which nothing stands.
fn column_of_rest(
    grammar: &Grammar,
    part: FlatPart,
    number: u32,
    sites: &Sites,
    making: &mut Making,
) -> Result<u32, NoMemory>
    requires part { slice_get (flat_parts (dtd_of grammar.now)) number ≡ Some part }
    ensures fits { IfOk result (λ c. FitsRest (dtd_of grammar.now) (plain_sites sites.now)
        (IsMade making.new.names (plain_all making.new.forms.items)) c number
        (rest_at (dtd_of grammar.now) number)) }
    ensures kept { OnOk result (KeepsForms making.old.names (plain_all making.old.forms.items)
        (plain_all making.new.forms.items)) }
    ensures names { making.new.names ≡ making.old.names }
{
    let own = column_at(&sites.parts, number as usize);
    match part.membership {
        Membership::Outside => making.column(Form::Never),
        Membership::Last => Ok(own),
        Membership::Followed => {
            let behind = column_at(&sites.rests, part.end as usize);
            making.column(Form::Then(own, behind))
        }
    }
}

/// Gives a part its columns, where all parts after it have theirs.
pub fn lay_part(
    alloc: Global,
    grammar: &Grammar,
    number: u32,
    sites: &mut Sites,
    making: &mut Making,
) -> Result<(), NoMemory>
    requires number { number < length sites.old.parts.items }
    requires laid { AreLaid (dtd_of grammar.now) (plain_sites sites.old) making.old.names
        (plain_all making.old.forms.items) (suc number) 0 }
    ensures laid { OnOk result (AreLaid (dtd_of grammar.now) (plain_sites sites.new)
        making.new.names (plain_all making.new.forms.items) number 0) }
    ensures names { making.new.names ≡ making.old.names }
{
    let Some(part) = grammar.part_of(number) else {
        unreachable!();
    };
    let column = column_of_part(alloc, grammar, part, number, sites, making)?;
    sites.parts[number as usize] = column;
    let rest = column_of_rest(grammar, part, number, sites, making)?;
    sites.rests[number as usize] = rest;
    Ok(())
}

/// The column of any number of these columns, with texts.
fn column_of_mixed(members: Vec<u32>, making: &mut Making) -> Result<u32, NoMemory>
    ensures made { IfOk result (λ c. (d : ℕ) ×
        IsMade making.new.names (plain_all making.new.forms.items) c (of_star d true) ×
        IsMade making.new.names (plain_all making.new.forms.items) d (of_one members.items)) }
    ensures kept { OnOk result (KeepsForms making.old.names (plain_all making.old.forms.items)
        (plain_all making.new.forms.items)) }
    ensures names { making.new.names ≡ making.old.names }
{
    let member = making.column(Form::OneOf(members))?;
    let column = making.column(Form::Star(member, true))?;
    Ok(column)
}

/// The column of the content of a name.
fn column_of_content(
    alloc: Global,
    grammar: &Grammar,
    content: FlatContent,
    id: NameId,
    sites: &Sites,
    making: &mut Making,
) -> Result<u32, NoMemory>
    requires content { slice_get (flat_contents 0 (dtd_of grammar.now).models) id.0 ≡
        Some content }
    ensures fits { IfOk result (λ c. FitsContent (dtd_of grammar.now) (plain_sites sites.now)
        (IsMade making.new.names (plain_all making.new.forms.items)) c id.0
        (model_of (dtd_of grammar.now) id.0)) }
    ensures kept { OnOk result (KeepsForms making.old.names (plain_all making.old.forms.items)
        (plain_all making.new.forms.items)) }
    ensures names { making.new.names ≡ making.old.names }
{
    match content.kind {
        ContentKind::Empty => making.column(Form::Nothing),
        ContentKind::Children => Ok(column_at(&sites.parts, content.first as usize)),
        ContentKind::Mixed => {
            let listed = columns_from(alloc, &sites.parts, content.first, content.end)?;
            column_of_mixed(listed, making)
        }
        ContentKind::Any => {
            let declared = columns_from(alloc, &sites.names, 0, grammar.dtd().count())?;
            column_of_mixed(declared, making)
        }
    }
}

/// Gives the content of a name its column, where all parts have theirs.
pub fn lay_content(
    alloc: Global,
    grammar: &Grammar,
    id: NameId,
    sites: &mut Sites,
    making: &mut Making,
) -> Result<(), NoMemory>
    requires declared { id.0 < length (dtd_of grammar.now).models }
    requires laid { AreLaid (dtd_of grammar.now) (plain_sites sites.old) making.old.names
        (plain_all making.old.forms.items) 0 id.0 }
    ensures laid { OnOk result (AreLaid (dtd_of grammar.now) (plain_sites sites.new)
        making.new.names (plain_all making.new.forms.items) 0 (suc id.0)) }
    ensures names { making.new.names ≡ making.old.names }
{
    let Some(content) = grammar.content_of(id) else {
        unreachable!();
    };
    let column = column_of_content(alloc, grammar, content, id, sites, making)?;
    sites.contents.push(column)?;
    Ok(())
}

/// Numbers from 0 on.
fn numbers(alloc: Global, count: u32) -> Result<Vec<u32>, NoMemory>
    ensures count { IfOk result (λ numbers. length numbers.items ≡ count) }
    ensures each { IfOk result (λ numbers. (x : ℕ) → x < count →
        column_at numbers.items x ≡ x) }
{
    let mut numbers = Vec::new(alloc);
    for number in 0..count {
        numbers.push(number)?;
    }
    Ok(numbers)
}

/// No column for so many parts, and one for each of so many names.
pub fn blank_sites(alloc: Global, names: u32, parts: u32) -> Result<Sites, NoMemory>
    ensures { IfOk result (λ sites. AreBlankSites (plain_sites sites) names parts) }
{
    let names = numbers(alloc, names)?;
    let own = vec![in alloc; NO_COLUMN; parts as usize]?;
    let rests = vec![in alloc; NO_COLUMN; parts as usize]?;
    Ok(Sites {
        names,
        contents: Vec::new(alloc),
        parts: own,
        rests,
    })
}
