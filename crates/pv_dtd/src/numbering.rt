//! Gives names their numbers.

ghost use Rattle.std.specs.Prelude.{◌≡◌, map, IfOk, OnOk};
ghost use Rattle.pv_model.specs.PlainForms.{numbers_of, plain_part, plain_parts, plain_model};
ghost use Rattle.pv_dtd.specs.Items.{spelled_in, spelled_in_all, spelled_in_model, mentioned_in};
ghost use Rattle.pv_dtd.specs.NamedForms.{named_part, named_parts, named_model};
ghost use Rattle.pv_dtd.specs.NameOrder.{with_names, NumbersNames, NumbersPart, NumbersParts};
ghost use Rattle.pv_dtd.specs.NameOrder.{NumbersModel, NumbersModels};

use crate::items::{SpelledModel, SpelledPart};
use crate::names::NameTable;
use pv_chars::NoMemory;
use pv_model::{ContentModel, LaidModel, NameId, Names, Part, Parts};
use std::alloc::Global;

// The numbers of names, which are added where they are new.
fn numbers_of(
    alloc: Global,
    names: &mut NameTable,
    listed: &[&[u8]],
) -> Result<Vec<NameId>, NoMemory>
    ensures names { OnOk result (names.new ≡ with_names names.old (map (λ n. n.now) listed.now)) }
    ensures numbers { IfOk result
        (λ v. NumbersNames names.new (map (λ n. n.now) listed.now) (numbers_of v.items)) }
{
    let mut numbers: Vec<NameId> = Vec::new(alloc);
    for name in listed {
        numbers.push(names.number(alloc, name)?)?;
    }
    Ok(numbers)
}

// A particle with numbers for names.
#[cycle(numbering)]
fn part_of(alloc: Global, names: &mut NameTable, part: &SpelledPart) -> Result<Part, NoMemory>
    ensures names { OnOk result (names.new
        ≡ with_names names.old (spelled_in (named_part part.now))) }
    ensures numbers { IfOk result
        (λ q. NumbersPart names.new (named_part part.now) (plain_part q)) }
{
    match part {
        SpelledPart::Name(name) => Ok(Part::Name(names.number(alloc, name)?)),
        SpelledPart::Seq(members) => Ok(Part::Seq(parts_of(alloc, names, members.as_slice())?)),
        SpelledPart::Choice(members) => {
            Ok(Part::Choice(parts_of(alloc, names, members.as_slice())?))
        }
        SpelledPart::Opt(part) => Ok(Part::Opt(Box::new(alloc, part_of(alloc, names, part)?)?)),
        SpelledPart::Star(part) => Ok(Part::Star(Box::new(alloc, part_of(alloc, names, part)?)?)),
        SpelledPart::Plus(part) => Ok(Part::Plus(Box::new(alloc, part_of(alloc, names, part)?)?)),
    }
}

#[cycle(numbering)]
fn parts_of(
    alloc: Global,
    names: &mut NameTable,
    members: &[SpelledPart],
) -> Result<Parts, NoMemory>
    ensures names { OnOk result (names.new
        ≡ with_names names.old (spelled_in_all (named_parts members.now))) }
    ensures numbers { IfOk result
        (λ qs. NumbersParts names.new (named_parts members.now) (plain_parts qs.items)) }
{
    let mut parts: Parts = Vec::new(alloc);
    for member in members {
        parts.push(part_of(alloc, names, member)?)?;
    }
    Ok(parts)
}

fn model_of(
    alloc: Global,
    names: &mut NameTable,
    model: &SpelledModel,
) -> Result<ContentModel, NoMemory>
    ensures names { OnOk result (names.new
        ≡ with_names names.old (spelled_in_model (named_model model.now))) }
    ensures numbers { IfOk result
        (λ m. NumbersModel names.new (named_model model.now) (plain_model m)) }
{
    match model {
        SpelledModel::Empty => Ok(ContentModel::Empty),
        SpelledModel::Any => Ok(ContentModel::Any),
        SpelledModel::Mixed(listed) => {
            let numbers = numbers_of(alloc, names, listed.as_slice())?;
            Ok(ContentModel::Mixed(Names::of(numbers)))
        }
        SpelledModel::Children(part) => {
            let part = part_of(alloc, names, part)?;
            Ok(ContentModel::Children(Box::new(alloc, part)?))
        }
    }
}

fn laid_out(alloc: Global, model: ContentModel) -> Result<LaidModel, NoMemory>
    ensures { IfOk result (λ laid. laid ≡ model) }
{
    LaidModel::of(alloc, model).map_err(|_| NoMemory)
}

/// The models with numbers for names, laid out. Names that are new are added in the order in which
/// the models mention them.
pub fn models_of(
    alloc: Global,
    names: &mut NameTable,
    spelled: &[SpelledModel],
) -> Result<Vec<LaidModel>, NoMemory>
    ensures names { OnOk result
        (names.new ≡ with_names names.old (mentioned_in (map named_model spelled.now))) }
    ensures numbers { IfOk result
        (λ v. NumbersModels names.new (map named_model spelled.now) (map plain_model v.items)) }
{
    let mut models: Vec<LaidModel> = Vec::new(alloc);
    for model in spelled {
        let model = model_of(alloc, names, model)?;
        models.push(laid_out(alloc, model)?)?;
    }
    Ok(models)
}
