//! Texts that are read one within another, and what an item asks for.

ghost use Rattle.std.specs.Prelude.{◌≡◌, ◌≢◌, ◌-◌, ℕ, List, ◌∷◌, length, drop, codes, is_some};
ghost use Rattle.std.specs.Prelude.{[], true, false, None, IfOk, IfErr, OnOk};
ghost use Rattle.std.specs.Option.{option_map};
ghost use Rattle.pv_chars.specs.Scan.{after_bytes};
ghost use Rattle.pv_params.specs.Items.{reference, inside};
ghost use Rattle.pv_params.specs.Spelling.{IsInside};
ghost use Rattle.pv_params.specs.ItemReading.{item_at, external_at};
ghost use Rattle.pv_params.specs.Meaning.{blank_before, mode_of_text, blank, closes, Stops};
ghost use Rattle.pv_params.specs.Meaning.{gives, meets};
ghost use Rattle.pv_params.specs.PlainForms.{plain_mode, plain_item};
ghost use Rattle.pv_params.specs.OpenTexts.{plain_so_far, plain_ending, plain_open_text};
ghost use Rattle.pv_params.specs.Answers.{Tells};
ghost use Rattle.pv_params.specs.OpenTexts.{mode_behind, Handles, OpensAt, StopsAt};

use crate::errors::ParamError;
use crate::items::{SpelledItem, external_at, is_inside};
use crate::names::NamesBeingRead;
use crate::state::{State, TextEnding};
use crate::text_mode::TextMode;
use pv_chars::NoMemory;
use pv_chars::scan::after_bytes;
use std::alloc::Global;

/// A text that is being read: its mode, whether it is an entity's, how many of its bytes are left,
/// and what is done at its end.
#[derive(Drop)]
pub struct OpenText {
    pub mode: TextMode,
    pub of_entity: bool,
    pub text: Vec<u8>,
    pub left: usize,
    pub ending: TextEnding,
}

impl OpenText {
    /// What is left of it.
    pub fn rest(&self) -> &[u8]
        ensures { result.now ≡ (plain_open_text self.now).rest }
    {
        let text = self.text.as_slice();
        text.split_at(text.len().saturating_sub(self.left)).1
    }

    /// This text, read on in this mode with so many bytes left.
    pub fn behind(self, mode: TextMode, left: usize) -> OpenText
        ensures { plain_open_text result ≡ record {
          mode = plain_mode mode;
          of_entity =
              self.of_entity;
          rest = drop (length self.text.items - left) self.text.items;
          ending =
              plain_ending self.ending;
        } }
    {
        OpenText { mode, left, ..self }
    }
}

// The mode of an entity's text where the reference is read in this mode.
fn mode_of_text(mode: TextMode) -> TextMode
    ensures { plain_mode result ≡ mode_of_text (plain_mode mode) }
{
    match mode {
        TextMode::File(_) => TextMode::Between,
        TextMode::Between => TextMode::Between,
        TextMode::Inside => TextMode::Inside,
        TextMode::Value => TextMode::Value,
    }
}

fn ending_of(mode: TextMode) -> TextEnding
    ensures { plain_ending result ≡ closes (blank (plain_mode mode)) }
{
    match mode {
        TextMode::Value => TextEnding::Nothing,
        TextMode::File(_) => TextEnding::Space,
        TextMode::Between => TextEnding::Space,
        TextMode::Inside => TextEnding::Space,
    }
}

// Whether the text may be read where the reference is read in this mode.
fn may_enter(mode: TextMode, text: &[u8]) -> bool
    ensures may { result ≡ true → plain_mode mode ≡ inside → IsInside text.now }
    ensures may_not { result ≡ false → (plain_mode mode ≡ inside) × (IsInside text.now → ⊥) }
{
    match mode {
        TextMode::Inside => is_inside(text),
        TextMode::File(_) => true,
        TextMode::Between => true,
        TextMode::Value => true,
    }
}

// A text that is to be read within another.
fn text_within(
    alloc: Global,
    mode: TextMode,
    of_entity: bool,
    text: &[u8],
    ending: TextEnding,
) -> Result<OpenText, NoMemory>
    ensures { IfOk result (λ inner. plain_open_text inner ≡ record {
      mode =
          plain_mode mode;
      of_entity = of_entity;
      rest = text.now;
      ending = plain_ending ending;
    }) }
{
    Ok(OpenText {
        mode,
        of_entity,
        text: Vec::from_slice(alloc, text)?,
        left: text.len(),
        ending,
    })
}

// The text of the entity of this name, to be read within a text of this mode.
fn open_entity(
    alloc: Global,
    so_far: &mut State,
    names: &mut NamesBeingRead,
    mode: TextMode,
    name: &[u8],
) -> Result<OpenText, ParamError>
    ensures opened { IfOk result (λ inner. OpensAt (plain_mode mode) names.old (plain_so_far
        so_far.old) (reference name.now) (plain_open_text inner) names.new (plain_so_far
        so_far.new)) }
    ensures stopped { IfErr result (Tells (StopsAt (plain_mode mode) names.old (plain_so_far
        so_far.old) (reference name.now))) }
{
    let Some(text) = so_far.declared.text_of(name) else {
        return Err(ParamError::Undeclared);
    };
    if names.contains(name) {
        return Err(ParamError::Recursive);
    }
    if so_far.passes_limit(text) {
        return Err(ParamError::Limit);
    }
    if !may_enter(mode, text) {
        return Err(ParamError::Syntax);
    }
    let inner = text_within(alloc, mode_of_text(mode), true, text, ending_of(mode))?;
    so_far.enter(mode, inner.rest())?;
    names.enter(Vec::from_slice(alloc, name)?)?;
    Ok(inner)
}

/// Does what an item of a text of this mode asks for: the text that is read within, where there is
/// one.
pub fn handle(
    alloc: Global,
    so_far: &mut State,
    names: &mut NamesBeingRead,
    mode: TextMode,
    item: SpelledItem<'_>,
) -> Result<Option<OpenText>, ParamError>
    ensures opened { IfOk result (λ inner. Handles (plain_mode mode) names.old (plain_so_far
        so_far.old) (plain_item item.entry) (option_map plain_open_text inner) names.new
        (plain_so_far so_far.new)) }
    ensures stopped { IfErr result (Tells (StopsAt (plain_mode mode) names.old (plain_so_far
        so_far.old) (plain_item item.entry))) }
{
    match item {
        SpelledItem::Byte(b) => {
            so_far.put_byte(b)?;
            Ok(None)
        }
        SpelledItem::Text(text) => {
            so_far.put(text)?;
            Ok(None)
        }
        SpelledItem::Character(c) => {
            so_far.put_character(c)?;
            Ok(None)
        }
        SpelledItem::Reference(name) => match open_entity(alloc, so_far, names, mode, name) {
            Ok(inner) => Ok(Some(inner)),
            Err(error) => Err(error),
        },
        SpelledItem::Parameter(name, given) => {
            let name = Vec::from_slice(alloc, name)?;
            let result = so_far.take_result(alloc);
            let ending = TextEnding::Declares(name, result);
            let inner = text_within(alloc, TextMode::Value, false, given, ending)?;
            Ok(Some(inner))
        }
        SpelledItem::Declaration(word, held) => {
            so_far.put(word)?;
            let inner = text_within(alloc, TextMode::Inside, false, held, TextEnding::Bracket)?;
            Ok(Some(inner))
        }
    }
}

/// The mode of a text after this item.
pub fn mode_behind(item: &SpelledItem<'_>, mode: TextMode) -> TextMode
    ensures { plain_mode result ≡ mode_behind (plain_item item.now) (plain_mode mode) }
{
    match (item, mode) {
        (SpelledItem::Parameter(_, _), TextMode::File(_)) => TextMode::File(true),
        _ => mode,
    }
}

fn begins_section(rest: &[u8]) -> bool
    ensures { result ≡ is_some (after_bytes (codes "<![") rest.now) }
{
    after_bytes(b"<![", rest).is_some()
}

fn begins_external(rest: &[u8]) -> bool
    ensures { result ≡ is_some (external_at rest.now) }
{
    external_at(rest).is_some()
}

// The space before a rest that is copied unread.
fn blank_before(after_parameter: bool) -> &'static [u8]
    ensures { result.now ≡ blank_before after_parameter }
{
    if after_parameter { b" " } else { b"" }
}

/// Where no item begins: the rest of the file is copied unread.
pub fn copy_unread(so_far: &mut State, mode: TextMode, rest: &[u8]) -> Result<(), ParamError>
    requires some { rest.now ≢ [] }
    requires none { item_at (plain_mode mode) rest.now ≡ None }
    ensures stopped { (reading : List (List ℕ)) → OnOk result
        (Stops (plain_mode mode) reading (plain_so_far so_far.old) rest.now
        (gives (plain_so_far so_far.new))) }
    ensures faulty { (reading : List (List ℕ)) → IfErr result
        (Tells (λ fault. Stops (plain_mode mode) reading (plain_so_far so_far.old) rest.now
        (meets fault))) }
{
    match mode {
        TextMode::Inside => Err(ParamError::Syntax),
        TextMode::Value => Err(ParamError::Syntax),
        TextMode::Between => {
            if begins_section(rest) {
                return Err(ParamError::Conditional);
            }
            if begins_external(rest) {
                return Err(ParamError::External);
            }
            Err(ParamError::Syntax)
        }
        TextMode::File(after_parameter) => {
            if begins_section(rest) {
                return Err(ParamError::Conditional);
            }
            if begins_external(rest) {
                return Err(ParamError::External);
            }
            so_far.put(blank_before(after_parameter))?;
            so_far.put(rest)?;
            Ok(())
        }
    }
}
