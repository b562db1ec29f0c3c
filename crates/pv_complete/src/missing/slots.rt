//! Where the entries of a hash stand: slots, in whose number they grow with the entries.

use std::alloc::{AllocError, Global};

/// The number of no entry.
pub const NO_ENTRY: u32 = u32::MAX;

/// How many slots there are at first, a power of two.
const FIRST_SLOTS: usize = 4_096;

/// How many bits of a number are folded on the others.
const FOLDED_BITS: u32 = 15;

/// The hash of an entry, and the number of the entry of its slot that was made before.
#[derive(Clone, Copy)]
pub struct Link {
    pub hash: u32,
    pub next: u32,
}

/// The slots of entries that are numbered from 0 on. A slot has the number of its last entry, each
/// entry that of the one before. There are at least as many slots as entries, and their number is a
/// power of two.
#[derive(Drop)]
pub struct Slots {
    last: Vec<u32>,
    links: Vec<Link>,
}

/// The slot of a hash, among so many.
fn slot_of(hash: u32, count: usize) -> usize {
    let mixed = hash.wrapping_mul(2_654_435_769);
    mixed.wrapping_add(mixed >> FOLDED_BITS) as usize & count.wrapping_sub(1)
}

impl Slots {
    /// No slots so far.
    pub fn none(alloc: Global) -> Slots {
        Slots {
            last: Vec::new(alloc),
            links: Vec::new(alloc),
        }
    }

    /// The number of the last entry in the slot of a hash.
    pub fn last_of(&self, hash: u32) -> u32 {
        match self.last.get(slot_of(hash, self.last.len())) {
            Some(number) => *number,
            None => NO_ENTRY,
        }
    }

    /// The hash of the entry of this number, and the one before it.
    pub fn link(&self, number: u32) -> Option<Link> {
        self.links.get(number as usize).copied()
    }

    /// Makes the slot of the entry of this number lead to it, and the entry to the one before.
    fn lead(&mut self, number: usize) {
        let Some(link) = self.links.get_mut(number) else {
            return;
        };
        let slot = slot_of(link.hash, self.last.len());
        if let Some(last) = self.last.get_mut(slot) {
            link.next = *last;
            *last = u32::try_from(number).unwrap_or(NO_ENTRY);
        }
    }

    /// Finds the slots of all entries again.
    fn lead_all(&mut self) {
        self.last.fill(NO_ENTRY);
        for number in 0..self.links.len() {
            self.lead(number);
        }
    }

    /// Makes twice as many slots where there are as many entries.
    fn grow(&mut self, alloc: Global) -> Result<(), AllocError> {
        let count = self.last.len();
        if self.links.len() < count {
            return Ok(());
        }
        let more = usize::saturating_mul(count, 2).max(FIRST_SLOTS);
        self.last = vec![in alloc; NO_ENTRY; more]?;
        self.lead_all();
        Ok(())
    }

    /// Takes the hash of an entry more.
    pub fn add(&mut self, alloc: Global, hash: u32) -> Result<(), AllocError> {
        self.grow(alloc)?;
        let number = self.links.len();
        let next = NO_ENTRY;
        self.links.push(Link { hash, next })?;
        self.lead(number);
        Ok(())
    }

    /// Leaves out the entries from this number on.
    pub fn keep_first(&mut self, count: usize) {
        self.links.truncate(count);
        self.lead_all();
    }

    /// Leaves out the entries before this number; the others are counted from 0 on.
    pub fn keep_from(&mut self, number: usize) {
        let count = self.links.len();
        let left = usize::saturating_sub(count, number);
        for place in 0..left {
            if let Some(link) = self.links.get(place + number).copied() {
                if let Some(here) = self.links.get_mut(place) {
                    *here = link;
                }
            }
        }
        self.keep_first(left);
    }
}
