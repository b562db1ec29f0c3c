//! A DTD that was read.

ghost use Rattle.std.specs.Prelude.{◌≡◌, ◌≤◌, ◌+◌, IsTrue, length};
ghost use Rattle.std.specs.List.{list_all};
ghost use Rattle.pv_dtd.specs.Plain.{parts_in_models};
ghost use Rattle.pv_dtd.specs.Facts.{as_dtd, are_names, AreLegalNames, are_known, are_mentioned};
ghost use Rattle.pv_dtd.specs.Facts.{is_formed_model, MAX_TYPES, MAX_PARTS};

use crate::names::NameTable;
use indexmap::IndexSet;
use pv_model::{ContentModel, LaidModel, NameId};

/// Names and content models, each laid out once. The declared names come first, in order of
/// declaration, and then those that are only mentioned.
///
/// ```rust
/// let dtd = read_dtd(alloc, b"<!ELEMENT a (b, c?)><!ELEMENT b (#PCDATA)>")?;
/// assert!(rt; dtd.count() == 2 && dtd.names() == 3);
/// assert!(rt; dtd.name_id(b"c") == Some(NameId(2)));
/// ```
#[derive(Debug, Drop)]
pub struct Dtd {
    names: IndexSet<Vec<u8>>,
    models: Vec<LaidModel>,
    parts: u32,
    pub ghost named: { length models.items ≤ length names.keys },
    pub ghost legal: { ∥ AreLegalNames (as_dtd names.keys models.items).names ∥₁ },
    pub ghost distinct: { IsTrue (are_names (as_dtd names.keys models.items).names) },
    pub ghost known: { IsTrue (are_known (as_dtd names.keys models.items)) },
    pub ghost mentioned: { IsTrue (are_mentioned (as_dtd names.keys models.items)) },
    pub ghost formed: { IsTrue (list_all is_formed_model (as_dtd names.keys models.items).models) },
    pub ghost counted: { parts ≡ parts_in_models (as_dtd names.keys models.items).models },
    pub ghost few_types: { length models.items ≤ MAX_TYPES },
    pub ghost few_parts: { parts ≤ MAX_PARTS },
    pub ghost few_names: { length names.keys ≤ MAX_TYPES + MAX_PARTS },
}

impl Dtd {
    ghost use Rattle.pv_dtd.specs.SoFar.{IsOfItems};
    ghost use Rattle.std.specs.Prelude.{◌≡◌, ◌+◌, ◌<◌, length, map, slice_get, Some};
    ghost use Rattle.std.specs.Option.{option_copied, option_map};
    ghost use Rattle.pv_model.specs.PlainForms.{plain_model};
    ghost use Rattle.pv_dtd.specs.Plain.{declared, parts_in_models, number_of, model_of};
    ghost use Rattle.pv_dtd.specs.PlainForms.{plain_dtd};

    // The DTD of these names and models, with so many parts.
    pub(crate) fn of(names: NameTable, models: Vec<LaidModel>, parts: u32) -> Dtd
        requires items { IsOfItems (record {
          names = names;
          models = map plain_model models.items;
        }) }
        requires counted { parts ≡ parts_in_models (map plain_model models.items) }
        ensures { plain_dtd result ≡
            record { names = names; models = map plain_model models.items } }
    {
        Dtd {
            names: names.into_set(),
            models,
            parts,
        }
    }

    /// The number of declared names.
    ///
    /// ```rust
    /// let dtd = read_dtd(alloc, b"<!ELEMENT a (b, c?)><!ELEMENT b (#PCDATA)>")?;
    /// assert!(rt; dtd.count() == 2);
    /// ```
    pub fn count(&self) -> u32
        ensures { result ≡ declared (plain_dtd self.now) }
    {
        self.models.len() as u32
    }

    /// The number of all names.
    ///
    /// ```rust
    /// let dtd = read_dtd(alloc, b"<!ELEMENT a (b, c?)><!ELEMENT b (#PCDATA)>")?;
    /// assert!(rt; dtd.names() == 3);
    /// ```
    pub fn names(&self) -> u32
        ensures { result ≡ length (plain_dtd self.now).names }
    {
        self.names.len() as u32
    }

    /// The number of parts of all content models: nodes of content particles, and names listed in
    /// mixed models.
    ///
    /// ```rust
    /// // the sequence, `b`, `c?` and its `c`; `#PCDATA` is none
    /// let dtd = read_dtd(alloc, b"<!ELEMENT a (b, c?)><!ELEMENT b (#PCDATA)>")?;
    /// assert!(rt; dtd.parts() == 4);
    /// ```
    pub fn parts(&self) -> u32
        ensures { result ≡ parts_in_models (plain_dtd self.now).models }
    {
        self.parts
    }

    /// The number of parts and names.
    ///
    /// ```rust
    /// let dtd = read_dtd(alloc, b"<!ELEMENT a (b, c?)><!ELEMENT b (#PCDATA)>")?;
    /// assert!(rt; dtd.columns() == dtd.parts() + dtd.names());
    /// ```
    pub fn columns(&self) -> u32
        ensures { result ≡
            parts_in_models (plain_dtd self.now).models + length (plain_dtd self.now).names }
    {
        self.parts + self.names.len() as u32
    }

    /// The number of a name, counted from 0, or `None` where the DTD neither declares nor mentions
    /// it.
    ///
    /// ```rust
    /// let dtd = read_dtd(alloc, b"<!ELEMENT a (b, c?)><!ELEMENT b (#PCDATA)>")?;
    /// assert!(rt; dtd.name_id(b"b") == Some(NameId(1)) && dtd.name_id(b"x").is_none());
    /// ```
    pub fn name_id(&self, name: &[u8]) -> Option<NameId>
        ensures { option_map (λ (id : NameId). id.0) result ≡
            number_of (plain_dtd self.now) name.now }
    {
        match self.names.get_index_of(name) {
            Some(place) => Some(NameId(place as u32)),
            None => None,
        }
    }

    /// The name that has this number.
    ///
    /// ```rust
    /// let dtd = read_dtd(alloc, b"<!ELEMENT a (b, c?)><!ELEMENT b (#PCDATA)>")?;
    /// assert!(rt; dtd.names() == 3 && dtd.name_of(NameId(2)) == b"c".as_slice());
    /// ```
    pub fn name_of(&self, id: NameId) -> &[u8]
        requires { id.0 < length (plain_dtd self.now).names }
        ensures { slice_get (plain_dtd self.now).names id.0 ≡ Some result.now }
    {
        match self.names.get_index(id.0 as usize) {
            Some(name) => name.as_slice(),
            None => unreachable!(),
        }
    }

    /// The content model of a name, where it is declared.
    ///
    /// ```rust
    /// let dtd = read_dtd(alloc, b"<!ELEMENT a (b, c?)><!ELEMENT b (#PCDATA)>")?;
    /// assert!(rt; dtd.names() == 3);
    /// assert!(rt; matches!(dtd.model_of(NameId(0)), Some(ContentModel::Children(_))));
    /// assert!(rt; dtd.model_of(NameId(2)).is_none());
    /// ```
    pub fn model_of(&self, id: NameId) -> Option<&ContentModel>
        requires { id.0 < length (plain_dtd self.now).names }
        ensures { option_map plain_model (option_copied result) ≡
            model_of (plain_dtd self.now) id.0 }
    {
        match self.laid_model_of(id) {
            Some(laid) => Some(laid.model()),
            None => None,
        }
    }

    /// The content model of a name, laid out for words that are matched against it.
    ///
    /// ```rust
    /// let dtd = read_dtd(alloc, b"<!ELEMENT a (b, c?)><!ELEMENT b (#PCDATA)>")?;
    /// assert!(rt; dtd.names() == 3);
    /// let model = dtd.laid_model_of(NameId(0));
    /// assert!(rt; model.is_some_and(|laid| matches!(laid.model(), ContentModel::Children(_))));
    /// ```
    pub fn laid_model_of(&self, id: NameId) -> Option<&LaidModel>
        requires { id.0 < length (plain_dtd self.now).names }
        ensures { option_map plain_model (option_copied result) ≡
            model_of (plain_dtd self.now) id.0 }
    {
        self.models.get(id.0 as usize)
    }
}
