//! The names of a DTD while it is read.

ghost use Rattle.std.specs.Prelude.{◌≡◌, [], ◌<◌, length, map, is_some, IfOk, OnOk};
ghost use Rattle.pv_dtd.specs.Plain.{place_of};
ghost use Rattle.pv_dtd.specs.NameOrder.{names_with, number_in};

use indexmap::IndexSet;
use pv_chars::NoMemory;
use pv_model::NameId;
use std::alloc::Global;
use std::marker::Model;

/// Names in the order in which they first came, seen as their list. A name's place is its number.
#[derive(Drop)]
pub struct NameTable {
    set: IndexSet<Vec<u8>>,
}

impl Model for NameTable {
    ghost use Rattle.std.specs.Prelude.{List, ℕ, map, ◌<◌, ◌^◌, length};

    ghost Value = { List (List ℕ) };

    ghost view = { λ t. map (λ v. v.items) t.set.keys };

    ghost invariant = { λ t. length t.set.keys < 2 ^ 32 };
}

impl NameTable {
    /// A table without names.
    pub fn new(alloc: Global) -> NameTable
        ensures { result ≡ [] }
    {
        NameTable {
            set: IndexSet::new(alloc),
        }
    }

    /// The set that holds them, in their order.
    pub fn into_set(self) -> IndexSet<Vec<u8>>
        ensures { map (λ v. v.items) result.keys ≡ self }
    {
        self.set
    }

    /// How many names it has.
    pub fn len(&self) -> usize
        ensures { result ≡ length self.now }
    {
        self.set.len()
    }

    /// Whether the name is among them.
    pub fn contains(&self, name: &[u8]) -> bool
        ensures { result ≡ is_some (place_of self.now name.now) }
    {
        self.set.contains(name)
    }

    /// The number of a name, which is added where it is new. `NoMemory` also where there are more
    /// names than numbers.
    pub fn number(&mut self, alloc: Global, name: &[u8]) -> Result<NameId, NoMemory>
        ensures number { IfOk result (λ id. id.0 ≡ number_in self.old name.now) }
        ensures names { OnOk result (self.new ≡ names_with self.old name.now) }
    {
        if let Some(place) = self.set.get_index_of(name) {
            return Ok(NameId(place as u32));
        }
        let number = self.set.len();
        if number >= u32::MAX as usize {
            return Err(NoMemory);
        }
        self.set.insert(name.to_vec(alloc)?)?;
        Ok(NameId(number as u32))
    }
}
