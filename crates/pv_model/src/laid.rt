//! Content models laid out once, for all words that are matched against them.

ghost use Rattle.std.specs.Prelude.{◌≡◌, ◌↔◌, IsTrue, IfOk, map};
ghost use Rattle.pv_model.specs.Models.{Allows};
ghost use Rattle.pv_model.specs.Plain.{mixed, children};
ghost use Rattle.pv_model.specs.PlainForms.{numbers_of, plain_model, plain_part, plain_token};
ghost use Rattle.pv_model.specs.Forms.{IsFormOf};

use crate::children::{LARGE_PART, has_children_by_walk};
use crate::layout::{ModelLayout, lay_out};
use crate::long_words::has_tokens;
use crate::matching::matches;
use crate::mixed::{MIN_SET_NAMES, are_members, set_of};
use crate::models::{ContentModel, NameId, NoMemory, Part, Token};
use crate::places::Places;
use crate::positions::push_positions;
use crate::reach::Stop;
use std::alloc::Global;
use std::collections::HashSet;
use std::marker::Model;

/// What is kept beside a content model.
#[derive(Debug, Drop)]
pub enum Form {
    /// Nothing: EMPTY, ANY, or a short list or a small particle.
    Own,
    /// The numbers of the names that mixed content lists.
    Listed(HashSet<u32>),
    /// The particle in pairs, the places of its names, and whether the empty word is one of its.
    Pairs {
        layout: ModelLayout,
        places: Places,
        may_be_empty: bool,
    },
}

/// A content model laid out, seen as the model.
#[derive(Debug, Drop)]
pub struct LaidModel {
    model: ContentModel,
    form: Form,
}

impl Model for LaidModel {
    ghost use Rattle.pv_model.specs.declared.models.ContentModel.{ContentModel};
    ghost use Rattle.pv_model.specs.contracts.models.ContentModel as content_model;

    ghost Value = { ContentModel };

    ghost coded = { content_model.the_row.coded };

    ghost use Rattle.pv_model.specs.PlainForms.{plain_model};
    ghost use Rattle.pv_model.specs.Forms.{IsFormOf};

    ghost view = { λ l. l.model };

    ghost invariant = { λ l. IsFormOf (plain_model l.model) l.form };
}

impl LaidModel {
    /// Lays a model out. A list of 256 names or more takes memory for their set, and a particle of
    /// 64 names and repetitions or more for its pairs and the places of its names.
    pub fn of(alloc: Global, model: ContentModel) -> Result<LaidModel, NoMemory>
        ensures { IfOk result (λ laid. laid ≡ model) }
    {
        let form = form_of(alloc, &model)?;
        Ok(LaidModel { model, form })
    }

    /// The model.
    pub fn model(&self) -> &ContentModel
        ensures { result.now ≡ self.now }
    {
        &self.model
    }

    /// Whether the word is one that the model allows, as `matches` has it; nothing is laid out.
    pub fn allows(&self, alloc: Global, declared: u32, word: &[Token]) -> Result<bool, NoMemory>
        ensures { IfOk result (λ b. IsTrue b ↔
            Allows declared (plain_model self.now) (map plain_token word.now)) }
    {
        match &self.form {
            Form::Own => matches(alloc, &self.model, declared, word),
            Form::Listed(numbers) => Ok(are_members(numbers, word)),
            Form::Pairs {
                layout,
                places,
                may_be_empty,
            } => match has_tokens(alloc, layout, places, *may_be_empty, word) {
                Ok(is_allowed) => Ok(is_allowed),
                Err(Stop::NoMemory) => Err(NoMemory),
                Err(Stop::TooMany) => matches_by_walk(alloc, &self.model, declared, word),
            },
        }
    }
}

/// Whether the model allows the word, by a walk of its particle for each token.
fn matches_by_walk(
    alloc: Global,
    model: &ContentModel,
    declared: u32,
    word: &[Token],
) -> Result<bool, NoMemory>
    ensures { IfOk result (λ b. IsTrue b ↔
        Allows declared (plain_model model.now) (map plain_token word.now)) }
{
    match model {
        ContentModel::Children(part) => has_children_by_walk(alloc, part, word),
        ContentModel::Empty | ContentModel::Any | ContentModel::Mixed(_) => {
            matches(alloc, model, declared, word)
        }
    }
}

fn form_of(alloc: Global, model: &ContentModel) -> Result<Form, NoMemory>
    ensures { IfOk result (IsFormOf (plain_model model.now)) }
{
    match model {
        ContentModel::Empty => Ok(Form::Own),
        ContentModel::Any => Ok(Form::Own),
        ContentModel::Mixed(names) => form_of_list(alloc, names.as_slice()),
        ContentModel::Children(part) => form_of_part(alloc, part),
    }
}

fn form_of_list(alloc: Global, names: &[NameId]) -> Result<Form, NoMemory>
    ensures { IfOk result (IsFormOf (mixed (numbers_of names.now))) }
{
    if names.len() < MIN_SET_NAMES {
        return Ok(Form::Own);
    }
    Ok(Form::Listed(set_of(alloc, names)?))
}

fn form_of_part(alloc: Global, part: &Part) -> Result<Form, NoMemory>
    ensures { IfOk result (IsFormOf (children (plain_part part.now))) }
{
    let mut positions = Vec::with_capacity(alloc, LARGE_PART)?;
    push_positions(part, &mut positions)?;
    if positions.len() < LARGE_PART {
        return Ok(Form::Own);
    }
    let mut places = Places::new(alloc);
    let layout = lay_out(alloc, part, &mut places)?;
    let may_be_empty = layout.may_be_empty();
    Ok(Form::Pairs {
        layout,
        places,
        may_be_empty,
    })
}
