//! The places of each name in a content particle that is laid out.

use crate::models::NoMemory;
use std::alloc::Global;
use std::collections::HashMap;

/// How many places there are so far, and those of each name, in order.
#[derive(Debug, Drop)]
pub struct Places {
    by_name: HashMap<u32, Vec<usize>>,
    count: usize,
}

impl Places {
    ghost use Rattle.std.specs.Prelude.{◌≡◌, ℕ, ◌+◌, ◌==◌, [], ◌∷◌, ◌++◌, OnOk, IfOk};
    ghost use Rattle.std.specs.Prelude.{if◌then◌else◌};
    ghost use Rattle.pv_model.specs.LaidOut.{listed};

    /// No place yet.
    pub fn new(alloc: Global) -> Places
        ensures count { result.count ≡ 0 }
        ensures none { (y : ℕ) → listed result y ≡ [] }
    {
        Places {
            by_name: HashMap::new(alloc),
            count: 0,
        }
    }

    /// How many places there are.
    pub fn count(&self) -> usize
        ensures { result ≡ self.now.count }
    {
        self.count
    }

    /// The places of a name, in order.
    pub fn of(&self, name: u32) -> &[usize]
        ensures { result.now ≡ listed self.now name }
    {
        match self.by_name.get(&name) {
            Some(places) => places,
            None => &[],
        }
    }

    /// Adds a place that has no name, and returns it.
    pub fn add(&mut self) -> Result<usize, NoMemory>
        ensures place { IfOk result (λ place. place ≡ self.old.count) }
        ensures count { OnOk result (self.new.count ≡ self.old.count + 1) }
        ensures others { (y : ℕ) → listed self.new y ≡ listed self.old y }
    {
        let place = self.count;
        self.count = place.checked_add(1).ok_or(NoMemory)?;
        Ok(place)
    }

    /// Adds a place of a name, and returns it.
    pub fn add_name(&mut self, alloc: Global, name: u32) -> Result<usize, NoMemory>
        ensures place { IfOk result (λ place. place ≡ self.old.count) }
        ensures count { OnOk result (self.new.count ≡ self.old.count + 1) }
        ensures places { OnOk result ((y : ℕ) → listed self.new y ≡
            listed self.old y ++ (if name == y then self.old.count ∷ [] else [])) }
    {
        let place = self.add()?;
        let mut places = self.by_name.remove(&name).unwrap_or(Vec::new(alloc));
        places.push(place)?;
        self.by_name.insert(name, places)?;
        Ok(place)
    }
}
