//! How reaches come about.

use pv_chars::NoMemory;
use std::alloc::Global;

/// What a reach is made of. The numbers of the derivations of its parts are less than its own.
#[derive(Clone, Copy, Debug)]
pub enum Rule {
    /// The token itself.
    Token,
    /// A text, and the same column after it.
    Text { rest: u32 },
    /// A column alone: what may stand beside it is empty.
    One { part: u32, column: u32 },
    /// One column up to a place, and another one from there.
    Two { first: u32, cut: u32, second: u32 },
}

/// How a column reaches from a place up to another.
#[derive(Clone, Copy, Debug)]
pub struct Derivation {
    pub end: u32,
    pub rule: Rule,
}

/// The derivations of the reaches of a list, by number. None is ever changed, whatever becomes of
/// its reach. Where only the latest are looked at, the old ones are dropped.
#[derive(Debug, Drop)]
pub struct Derivations {
    older: Vec<Derivation>,
    made: Vec<Derivation>,
    /// How many were made before those that aren't older.
    before: usize,
}

impl Derivations {
    /// No derivation.
    pub fn none(alloc: Global) -> Derivations {
        Derivations {
            older: Vec::new(alloc),
            made: Vec::new(alloc),
            before: 0,
        }
    }

    /// Adds a derivation, and gives its number.
    pub fn add(&mut self, derivation: Derivation) -> Result<u32, NoMemory> {
        let number = u32::try_from(self.count()).unwrap_or(u32::MAX);
        self.made.push(derivation)?;
        Ok(number)
    }

    /// How many derivations there are.
    pub fn count(&self) -> usize {
        usize::saturating_add(self.before, self.made.len())
    }

    /// Drops all but the first ones, of which no reach is made any more.
    pub fn keep(&mut self, count: usize) {
        self.made
            .truncate(usize::saturating_sub(count, self.before));
    }

    /// Those that were made since the last time are older ones now; the older ones are dropped.
    pub fn turn(&mut self, alloc: Global) {
        self.before = self.count();
        self.older = std::mem::replace(&mut self.made, Vec::new(alloc));
    }

    /// The derivation of a number.
    pub fn get(&self, number: u32) -> Option<Derivation> {
        let number = number as usize;
        match usize::checked_sub(number, self.before) {
            Some(place) => self.made.get(place).copied(),
            None => {
                let first = usize::saturating_sub(self.before, self.older.len());
                self.older.get(usize::checked_sub(number, first)?).copied()
            }
        }
    }
}
