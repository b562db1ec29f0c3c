//! A content particle laid out for long words: its members stand in pairs, so that few steps lead
//! to a name, and its names and repetitions have places in order.

ghost use Rattle.std.specs.Prelude.{◌≡◌, IfOk, OnOk};
ghost use Rattle.pv_model.specs.PlainForms.{plain_layout, plain_part, plain_parts};
ghost use Rattle.pv_model.specs.Plain.{seq, choice, plus};
ghost use Rattle.pv_model.specs.LaidOut.{IsLaidOut};
ghost use Rattle.pv_model.specs.Layouts.{has_empty_word};

use crate::models::{NoMemory, Part};
use crate::places::Places;
use std::alloc::Global;

/// A content particle in pairs: no word, the empty word alone, a name at a place, a pair in order,
/// a pair to choose from, an optional particle, or one repeated at least once, with a place after
/// those of its member.
///
/// The places of a pair's second member begin at its middle.
#[derive(Debug, Drop)]
pub enum ModelLayout {
    Nothing,
    Blank,
    Name {
        place: usize,
        name: u32,
    },
    InOrder {
        middle: usize,
        first_may_be_empty: bool,
        second_may_be_empty: bool,
        first: Box<ModelLayout>,
        second: Box<ModelLayout>,
    },
    Either {
        middle: usize,
        first: Box<ModelLayout>,
        second: Box<ModelLayout>,
    },
    Opt(Box<ModelLayout>),
    Plus {
        place: usize,
        member: Box<ModelLayout>,
    },
}

impl ModelLayout {
    /// Whether the empty word is a word of the particle.
    pub fn may_be_empty(&self) -> bool
        ensures { result ≡ has_empty_word (plain_layout self.now) }
    {
        match self {
            ModelLayout::Nothing => false,
            ModelLayout::Blank => true,
            ModelLayout::Name { .. } => false,
            ModelLayout::InOrder {
                first_may_be_empty,
                second_may_be_empty,
                ..
            } => *first_may_be_empty && *second_may_be_empty,
            ModelLayout::Either { first, second, .. } => {
                first.may_be_empty() || second.may_be_empty()
            }
            ModelLayout::Opt(_) => true,
            ModelLayout::Plus { member, .. } => member.may_be_empty(),
        }
    }
}

/// Lays the part out, and adds its places.
#[cycle(lay_out)]
pub fn lay_out(alloc: Global, part: &Part, places: &mut Places) -> Result<ModelLayout, NoMemory>
    ensures { IfOk result
        (λ l. IsLaidOut (plain_part part.now) (plain_layout l) places.old places.new) }
{
    match part {
        Part::Name(name) => Ok(ModelLayout::Name {
            place: places.add_name(alloc, name.0)?,
            name: name.0,
        }),
        Part::Seq(parts) => lay_out_in_order(alloc, parts, places),
        Part::Choice(parts) => lay_out_choice(alloc, parts, places),
        Part::Opt(inner) => {
            let member = lay_out(alloc, inner, places)?;
            Ok(ModelLayout::Opt(Box::new(alloc, member)?))
        }
        Part::Star(inner) => {
            let rounds = lay_out_rounds(alloc, inner, places)?;
            Ok(ModelLayout::Opt(Box::new(alloc, rounds)?))
        }
        Part::Plus(inner) => lay_out_rounds(alloc, inner, places),
    }
}

#[cycle(lay_out)]
fn lay_out_rounds(alloc: Global, inner: &Part, places: &mut Places) -> Result<ModelLayout, NoMemory>
    ensures { IfOk result (λ l.
        IsLaidOut (plus (plain_part inner.now)) (plain_layout l) places.old places.new) }
{
    let member = lay_out(alloc, inner, places)?;
    let place = places.add()?;
    Ok(ModelLayout::Plus {
        place,
        member: Box::new(alloc, member)?,
    })
}

#[cycle(lay_out)]
fn lay_out_in_order(
    alloc: Global,
    parts: &[Part],
    places: &mut Places,
) -> Result<ModelLayout, NoMemory>
    ensures { IfOk result (λ l.
        IsLaidOut (seq (plain_parts parts.now)) (plain_layout l) places.old places.new) }
{
    match parts {
        [] => Ok(ModelLayout::Blank),
        [only] => lay_out(alloc, only, places),
        _ => {
            let (front, back) = parts.split_at(parts.len() / 2);
            let first = box_in_order(alloc, front, places)?;
            let middle = places.count();
            let second = box_in_order(alloc, back, places)?;
            Ok(ModelLayout::InOrder {
                middle,
                first_may_be_empty: first.may_be_empty(),
                second_may_be_empty: second.may_be_empty(),
                first,
                second,
            })
        }
    }
}

#[cycle(lay_out)]
fn box_in_order(
    alloc: Global,
    parts: &[Part],
    places: &mut Places,
) -> Result<Box<ModelLayout>, NoMemory>
    ensures { IfOk result (λ l.
        IsLaidOut (seq (plain_parts parts.now)) (plain_layout l.value) places.old places.new) }
{
    let layout = lay_out_in_order(alloc, parts, places)?;
    Ok(Box::new(alloc, layout)?)
}

#[cycle(lay_out)]
fn lay_out_choice(
    alloc: Global,
    parts: &[Part],
    places: &mut Places,
) -> Result<ModelLayout, NoMemory>
    ensures { IfOk result (λ l.
        IsLaidOut (choice (plain_parts parts.now)) (plain_layout l) places.old places.new) }
{
    match parts {
        [] => Ok(ModelLayout::Nothing),
        [only] => lay_out(alloc, only, places),
        _ => {
            let (front, back) = parts.split_at(parts.len() / 2);
            let first = box_choice(alloc, front, places)?;
            let middle = places.count();
            let second = box_choice(alloc, back, places)?;
            Ok(ModelLayout::Either {
                middle,
                first,
                second,
            })
        }
    }
}

#[cycle(lay_out)]
fn box_choice(
    alloc: Global,
    parts: &[Part],
    places: &mut Places,
) -> Result<Box<ModelLayout>, NoMemory>
    ensures { IfOk result (λ l.
        IsLaidOut (choice (plain_parts parts.now)) (plain_layout l.value) places.old places.new) }
{
    let layout = lay_out_choice(alloc, parts, places)?;
    Ok(Box::new(alloc, layout)?)
}
