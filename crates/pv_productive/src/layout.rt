//! A DTD with its parts laid out flat.

ghost use Rattle.std.specs.Prelude.{◌≡◌};
ghost use Rattle.pv_dtd.specs.PlainForms.{plain_dtd};
ghost use Rattle.pv_rules.specs.Flat.{flat_contents, flat_parts};

use pv_chars::NoMemory;
use pv_dtd::Dtd;
use pv_rules::{FlatContent, FlatDtd, FlatPart};
use std::alloc::Global;

/// A DTD, and its parts by number.
#[derive(Debug, Drop)]
pub struct Layout {
    dtd: Dtd,
    flat: FlatDtd,
    pub ghost parts: { flat.parts.items ≡ flat_parts (plain_dtd dtd) },
    pub ghost contents: { flat.contents.items ≡ flat_contents 0 (plain_dtd dtd).models },
}

impl Layout {
    ghost use Rattle.std.specs.Prelude.{◌≡◌, IfOk, slice_get};
    ghost use Rattle.pv_dtd.specs.PlainForms.{plain_dtd};
    ghost use Rattle.pv_rules.specs.Flat.{flat_contents, flat_parts};
    ghost use Rattle.pv_rules.specs.PlainForms.{IsFlat};

    /// Lays out the parts of a DTD.
    pub fn of(alloc: Global, dtd: Dtd) -> Result<Layout, NoMemory>
        ensures { IfOk result (λ layout. layout.dtd ≡ dtd) }
    {
        let flat = FlatDtd::of(alloc, &dtd)?;
        Ok(Layout { dtd, flat })
    }

    /// The DTD.
    pub fn dtd(&self) -> &Dtd
        ensures { result.now ≡ self.now.dtd }
    {
        &self.dtd
    }

    /// The parts and content models of the DTD, by number.
    pub fn flat(&self) -> &FlatDtd
        ensures { IsFlat (plain_dtd self.now.dtd) result.now }
    {
        &self.flat
    }

    /// The part of a number.
    pub fn part(&self, number: u32) -> Option<FlatPart>
        ensures { result ≡ slice_get (flat_parts (plain_dtd self.now.dtd)) number }
    {
        self.flat.part(number)
    }

    /// The content model of a declared name.
    pub fn content(&self, name: u32) -> Option<FlatContent>
        ensures { result ≡ slice_get (flat_contents 0 (plain_dtd self.now.dtd).models) name }
    {
        self.flat.content(name)
    }
}
