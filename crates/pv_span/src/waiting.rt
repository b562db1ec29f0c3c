//! Columns whose values fell, which wait until those that mention them are lowered.

use crate::radix_heap::RadixHeap;
use pv_chars::NoMemory;
use std::alloc::Global;

/// The columns that wait, in the order of their values, with a flag for each column.
#[derive(Debug, Drop)]
pub struct Waiting {
    fallen: RadixHeap,
    flags: Vec<bool>,
}

/// Takes all flags back.
fn clear_flags(flags: &mut [bool]) {
    flags.fill(false);
}

impl Waiting {
    ghost use Rattle.std.specs.Prelude.{◌≡◌, ◌<◌, ◌⊎◌, ℕ, IfOk, IfSome, IsTrue, OnOk, Some};
    ghost use Rattle.std.specs.Prelude.{false, length};
    ghost use Rattle.pv_span.specs.Waits.{Waits};

    /// None of so many columns waits.
    pub fn new(alloc: Global, columns: usize) -> Result<Waiting, NoMemory>
        ensures { IfOk result (λ waiting. length waiting.flags.items ≡ columns) }
    {
        Ok(Waiting {
            fallen: RadixHeap::new(alloc)?,
            flags: vec![in alloc; false; columns]?,
        })
    }

    /// Forgets all columns.
    pub fn clear(&mut self)
        ensures long { length self.new.flags.items ≡ length self.old.flags.items }
    {
        self.fallen.clear();
        clear_flags(&mut self.flags);
    }

    /// Has a column wait with its value, which isn't less than that of the column taken last.
    pub fn push(&mut self, column: u32, value: u32) -> Result<(), NoMemory>
        requires { column < length self.old.flags.items }
        ensures waits { Waits self.new column }
        ensures kept { (d : ℕ) → Waits self.old d → Waits self.new d }
        ensures long { length self.new.flags.items ≡ length self.old.flags.items }
    {
        self.flags[column as usize] = true;
        self.fallen.push(column, value)
    }

    /// Ends the waiting of a column, and tells whether it waited.
    fn take(&mut self, column: u32) -> bool
        ensures taken { IsTrue result → column < length self.old.flags.items }
        ensures rest { IsTrue result → (d : ℕ) → Waits self.old d → (d ≡ column) ⊎
            Waits self.new d }
        ensures kept { result ≡ false → (d : ℕ) → Waits self.old d → Waits self.new d }
        ensures long { length self.new.flags.items ≡ length self.old.flags.items }
    {
        let place = column as usize;
        if place >= self.flags.len() || !self.flags[place] {
            return false;
        }
        self.flags[place] = false;
        true
    }

    /// Takes a column of the least value, where these are the values of all.
    pub fn next(&mut self, values: &[u32]) -> Option<u32>
        ensures within { IfSome result (λ c. c < length self.old.flags.items) }
        ensures rest { (d : ℕ) → Waits self.old d → (result ≡ Some d) ⊎ Waits self.new d }
        ensures long { length self.new.flags.items ≡ length self.old.flags.items }
    {
        for _ in 0..self.fallen.len() {
            let column = self.fallen.pop(values)?;
            if self.take(column) {
                return Some(column);
            }
        }
        None
    }

    /// Whether no column waits.
    pub fn is_empty(&self) -> bool
        ensures { IsTrue result → (d : ℕ) → Waits self.now d → ⊥ }
    {
        let mut some = false;
        for place in 0..self.flags.len() {
            some = some | self.flags[place];
        }
        !some
    }
}
