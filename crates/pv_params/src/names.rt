//! The names of the entities whose texts are being read.

ghost use Rattle.std.specs.Prelude.{◌≡◌, ◌∷◌, [], false, OnOk};
ghost use Rattle.pv_params.specs.Meaning.{is_being_read};
ghost use Rattle.pv_params.specs.OpenTexts.{names_behind};

use indexmap::IndexSet;
use pv_chars::NoMemory;
use std::alloc::Global;
use std::marker::Model;

/// Names of entities whose texts are being read one within another, each once, seen as their list
/// with the innermost first.
#[derive(Drop)]
pub struct NamesBeingRead {
    set: IndexSet<Vec<u8>>,
}

impl Model for NamesBeingRead {
    ghost use Rattle.std.specs.Prelude.{List, ℕ, []};
    ghost use Rattle.pv_params.specs.Entries.{last_first_on};

    ghost Value = { List (List ℕ) };

    ghost view = { λ t. last_first_on t.set.keys [] };
}

impl NamesBeingRead {
    /// No names.
    pub fn new(alloc: Global) -> NamesBeingRead
        ensures { result ≡ [] }
    {
        NamesBeingRead {
            set: IndexSet::new(alloc),
        }
    }

    /// Whether the text of this name is being read.
    pub fn contains(&self, name: &[u8]) -> bool
        ensures { result ≡ is_being_read name.now self.now }
    {
        self.set.contains(name)
    }

    /// The text of this name is read next, within the others.
    pub fn enter(&mut self, name: Vec<u8>) -> Result<(), NoMemory>
        requires { is_being_read name.items self.old ≡ false }
        ensures { OnOk result (self.new ≡ name.items ∷ self.old) }
    {
        self.set.insert(name)?;
        Ok(())
    }

    /// A text was read to its end: the innermost name's, where it is an entity's.
    pub fn leave(&mut self, of_entity: bool)
        ensures { self.new ≡ names_behind of_entity self.old }
    {
        if of_entity {
            self.set.pop();
        }
    }
}
