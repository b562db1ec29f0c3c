//! The tables that a walk over lists has made.

use pv_chars::{List, NoMemory};
use pv_span::{Entry, Table};
use pv_tables::MAX_ENTRIES;
use pv_tree::Path;
use std::alloc::Global;

/// The number of verdicts that are used, the tables so far, and how many entries more there may be.
#[derive(Drop)]
pub struct Made {
    pub used: u64,
    pub tables: Vec<Table>,
    pub room: u32,
}

impl Made {
    ghost use Rattle.std.specs.Prelude.{◌≡◌, ◌≤◌, ◌+◌, ◌++◌, ◌∷◌, [], OnOk, length};
    ghost use Rattle.pv_tables.specs.Tables.{most_entries};

    /// No table so far.
    pub fn new(alloc: Global) -> Made
        ensures used { result.used ≡ 0 }
        ensures tables { result.tables.items ≡ [] }
        ensures room { result.room ≡ most_entries }
    {
        Made {
            used: 0,
            tables: Vec::new(alloc),
            room: MAX_ENTRIES,
        }
    }

    /// Adds the table of the list at a path.
    pub fn add(&mut self, path: Path, entries: Vec<Entry>) -> Result<(), NoMemory>
        requires { length entries.items ≤ self.old.room }
        ensures used { self.new.used ≡ self.old.used }
        ensures tables { OnOk result (self.new.tables.items ≡
            self.old.tables.items ++ record {
              path = path;
              entries = entries.items;
            } ∷ []) }
        ensures room { OnOk result (self.new.room + length entries.items ≡ self.old.room) }
    {
        let room = self.room;
        self.room = room - entries.len() as u32;
        self.tables.push(Table {
            path,
            entries: List::of(entries),
        })?;
        Ok(())
    }
}
