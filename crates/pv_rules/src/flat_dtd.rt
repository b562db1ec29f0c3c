//! The parts of a DTD laid out flat, by number.

ghost use Rattle.std.specs.Prelude.{◌≡◌, ◌<◌, slice_get, Some};
ghost use Rattle.pv_model.specs.PlainForms.{plain_model};
ghost use Rattle.pv_dtd.specs.Plain.{declared, model_of};
ghost use Rattle.pv_dtd.specs.PlainForms.{plain_dtd};

use crate::flat::{FlatContent, FlatPart};
use crate::layout::{content_kind_of, push_model};
use pv_chars::NoMemory;
use pv_dtd::Dtd;
use pv_model::{ContentModel, NameId};
use std::alloc::Global;

/// The parts of all content models of a DTD by their numbers, and the models by the numbers of
/// their names.
#[derive(Debug, Drop)]
pub struct FlatDtd {
    parts: Vec<FlatPart>,
    contents: Vec<FlatContent>,
}

impl FlatDtd {
    ghost use Rattle.std.specs.Prelude.{◌≡◌, ◌<◌, IfOk, Some, slice_get};
    ghost use Rattle.std.specs.Option.{option_copied};
    ghost use Rattle.pv_model.specs.Plain.{PlainPart};
    ghost use Rattle.pv_dtd.specs.Plain.{PlainDtd};
    ghost use Rattle.pv_dtd.specs.PlainForms.{plain_dtd};
    ghost use Rattle.pv_rules.specs.Numbering.{IsAfterPart, part_at};
    ghost use Rattle.pv_rules.specs.PlainForms.{IsFlat};

    /// Lays out the parts of a DTD, in one pass over its content models.
    ///
    /// It takes 16 bytes for a part and 12 for a declared name; `NoMemory` says that there was no
    /// memory for them.
    pub fn of(alloc: Global, dtd: &Dtd) -> Result<FlatDtd, NoMemory>
        ensures { IfOk result (λ flat. IsFlat (plain_dtd dtd.now) flat) }
    {
        let mut parts = Vec::with_capacity(alloc, dtd.parts() as usize)?;
        let mut contents = Vec::with_capacity(alloc, dtd.count() as usize)?;
        for name in 0..dtd.count() {
            let model = declared_model(dtd, name);
            let first = parts.len() as u32;
            push_model(model, &mut parts)?;
            contents.push(FlatContent {
                kind: content_kind_of(model),
                first,
                end: parts.len() as u32,
            })?;
        }
        Ok(FlatDtd { parts, contents })
    }

    /// The parts, by their numbers.
    pub fn parts(&self) -> &[FlatPart]
        ensures { result.now ≡ self.now.parts.items }
    {
        self.parts.as_slice()
    }

    /// The content models, by the numbers of the declared names.
    pub fn contents(&self) -> &[FlatContent]
        ensures { result.now ≡ self.now.contents.items }
    {
        self.contents.as_slice()
    }

    /// The part of a number.
    pub fn part(&self, number: u32) -> Option<FlatPart>
        ensures { result ≡ slice_get self.now.parts.items number }
    {
        self.parts.get(number as usize).copied()
    }

    /// The number after a part and all within it. After a member of a choice, it is that of the
    /// next member, or where the choice ends.
    pub fn end_of(&self, number: u32) -> u32
        requires { (g : PlainDtd) × (p : PlainPart) × IsFlat g self.now ×
            (part_at g number ≡ Some p) }
        ensures { (g : PlainDtd) → IsFlat g self.now → IsAfterPart g number result }
    {
        let Some(part) = self.part(number) else {
            unreachable!();
        };
        part.end
    }

    /// The content model of a declared name.
    pub fn content(&self, name: u32) -> Option<FlatContent>
        ensures { result ≡ slice_get self.now.contents.items name }
    {
        self.contents.get(name as usize).copied()
    }
}

/// The content model of a declared name.
fn declared_model(dtd: &Dtd, name: u32) -> &ContentModel
    requires { name < declared (plain_dtd dtd.now) }
    ensures { model_of (plain_dtd dtd.now) name ≡ Some (plain_model result.now) }
{
    match dtd.model_of(NameId(name)) {
        Some(model) => model,
        None => unreachable!(),
    }
}
