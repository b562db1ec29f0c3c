//! The parameter entities that are declared so far.

ghost use Rattle.std.specs.Prelude.{◌≡◌, [], OnOk};
ghost use Rattle.std.specs.Option.{option_map};
ghost use Rattle.pv_params.specs.Meaning.{text_of, with_entity};

use indexmap::IndexMap;
use pv_chars::NoMemory;
use std::alloc::Global;
use std::marker::Model;

/// Parameter entities with their texts, in the order of their first declarations.
#[derive(Drop)]
pub struct Entities {
    texts: IndexMap<Vec<u8>, Vec<u8>>,
}

impl Model for Entities {
    ghost use Rattle.std.specs.Prelude.{List, map};
    ghost use Rattle.pv_params.specs.Meaning.{Entity};
    ghost use Rattle.pv_params.specs.Entries.{entity_of};

    ghost Value = { List Entity };

    ghost view = { λ t. map entity_of t.texts.entries };
}

impl Entities {
    /// No entities.
    pub fn new(alloc: Global) -> Entities
        ensures { result ≡ [] }
    {
        Entities {
            texts: IndexMap::new(alloc),
        }
    }

    /// The text of the entity of this name.
    pub fn text_of(&self, name: &[u8]) -> Option<&[u8]>
        ensures { option_map (λ r. r.now) result ≡ text_of name.now self.now }
    {
        match self.texts.get(name) {
            Some(text) => Some(text.as_slice()),
            None => None,
        }
    }

    /// Declares an entity, unless its name is declared already.
    pub fn declare(&mut self, name: Vec<u8>, text: Vec<u8>) -> Result<(), NoMemory>
        ensures { OnOk result (self.new ≡ with_entity name.items text.items self.old) }
    {
        match self.text_of(name.as_slice()) {
            Some(_) => Ok(()),
            None => {
                self.texts.insert(name, text)?;
                Ok(())
            }
        }
    }
}
