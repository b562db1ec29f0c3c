//! Columns whose values fell, in the order of these values: a radix heap.

use crate::values::value_at;
use pv_chars::NoMemory;
use pv_productive::NO_SIZE;
use std::alloc::Global;

/// How many of the lowest bits of a value tell its bucket, where the others are those of the least
/// value.
const LOW_BITS: u32 = 6;

/// The greatest number of so many bits.
const LAST: u32 = 63;

/// How many buckets there are for these values, one for each.
const SINGLE: usize = 64;

/// How many buckets there are: those, and one for each other bit.
const BUCKETS: usize = 90;

/// The number of no entry.
const NO_ENTRY: u32 = u32::MAX;

/// A column in a bucket, and the number of the entry after it.
#[derive(Clone, Copy, Debug)]
struct Entry {
    column: u32,
    next: u32,
}

/// Columns whose values fell. A value that differs in its lowest bits alone from the least one, by
/// which the buckets are laid out, has a bucket of its own; another stands in that of the highest
/// bit in which it differs, so that those of the first such bucket that isn't empty are compared
/// once for many values (a radix heap: Ahuja, Mehlhorn, Orlin and Tarjan, "Faster algorithms for
/// the shortest path problem", 1990). A column that fell again is found by its new value.
#[derive(Debug, Drop)]
pub struct RadixHeap {
    buckets: Vec<u32>,
    entries: Vec<Entry>,
    least: u32,
    /// The buckets of single values before this one are empty.
    first: usize,
    /// How many entries are in the buckets.
    held: usize,
}

/// The bucket of a value among those of single values.
fn single_of(value: u32) -> usize {
    (value & LAST) as usize
}

/// The bucket of a value.
fn bucket_of(value: u32, least: u32) -> usize {
    let other = (value ^ least) >> LOW_BITS;
    if other == 0 {
        single_of(value)
    } else {
        SINGLE + u32::saturating_sub(31, other.leading_zeros()) as usize
    }
}

/// The first entry in a bucket.
fn first_on(buckets: &[u32], bucket: usize) -> u32 {
    if bucket < buckets.len() {
        buckets[bucket]
    } else {
        NO_ENTRY
    }
}

/// Makes an entry the first one in a bucket.
fn put_first(buckets: &mut [u32], bucket: usize, number: u32) {
    if bucket < buckets.len() {
        buckets[bucket] = number;
    }
}

/// Takes all entries out of the buckets.
fn clear_buckets(buckets: &mut [u32]) {
    buckets.fill(NO_ENTRY);
}

impl RadixHeap {
    /// No column.
    pub fn new(alloc: Global) -> Result<RadixHeap, NoMemory> {
        Ok(RadixHeap {
            buckets: vec![in alloc; NO_ENTRY; BUCKETS]?,
            entries: Vec::new(alloc),
            least: 0,
            first: 0,
            held: 0,
        })
    }

    /// Forgets all columns.
    pub fn clear(&mut self) {
        if self.held > 0 {
            clear_buckets(&mut self.buckets);
            self.held = 0;
        }
        self.entries.truncate(0);
        self.least = 0;
        self.first = 0;
    }

    /// How many entries are in the buckets.
    pub fn len(&self) -> usize {
        self.held
    }

    /// Puts an entry in the bucket of its column's value.
    fn link(&mut self, number: u32, value: u32) {
        let place = number as usize;
        if place < self.entries.len() {
            let bucket = bucket_of(value, self.least);
            let next = first_on(&self.buckets, bucket);
            self.entries[place].next = next;
            put_first(&mut self.buckets, bucket, number);
            self.first = self.first.min(bucket);
            self.held = usize::saturating_add(self.held, 1);
        }
    }

    /// Puts in a column with its value, which isn't less than that of the column taken last.
    pub fn push(&mut self, column: u32, value: u32) -> Result<(), NoMemory> {
        let place = self.entries.len();
        if place >= NO_ENTRY as usize {
            return Err(NoMemory);
        }
        self.entries.push(Entry {
            column,
            next: NO_ENTRY,
        })?;
        self.link(place as u32, value);
        Ok(())
    }

    fn entry(&self, number: u32) -> Option<Entry> {
        self.entries.get(number as usize).copied()
    }

    /// The least value in a bucket that is more than those that were taken.
    fn least_on(&self, bucket: usize, taken: u32, values: &[u32]) -> u32 {
        let mut least = NO_SIZE;
        let mut number = first_on(&self.buckets, bucket);
        for _ in 0..self.entries.len() {
            let Some(entry) = self.entry(number) else {
                break;
            };
            let value = value_at(values, entry.column as usize);
            if value > taken {
                least = least.min(value);
            }
            number = entry.next;
        }
        least
    }

    /// Puts entries, from a number on, into the buckets of their columns' values. Columns of no more
    /// than a value were taken before.
    fn sort_from(&mut self, first: u32, taken: u32, values: &[u32]) {
        let mut number = first;
        for _ in 0..self.entries.len() {
            let Some(entry) = self.entry(number) else {
                break;
            };
            self.held = usize::saturating_sub(self.held, 1);
            let value = value_at(values, entry.column as usize);
            if value > taken {
                self.link(number, value);
            }
            number = entry.next;
        }
    }

    /// Spreads what is in a bucket over those before it, which are empty: all columns of values with
    /// buckets of their own were taken.
    fn sort(&mut self, bucket: usize, values: &[u32]) {
        let first = first_on(&self.buckets, bucket);
        if first == NO_ENTRY {
            return;
        }
        let taken = self.least | LAST;
        let least = self.least_on(bucket, taken, values);
        put_first(&mut self.buckets, bucket, NO_ENTRY);
        if least < NO_SIZE {
            self.least = least;
            self.first = single_of(least);
        }
        self.sort_from(first, taken, values);
    }

    /// Takes a column out of a bucket.
    fn take_off(&mut self, bucket: usize) -> Option<u32> {
        let entry = self.entry(first_on(&self.buckets, bucket))?;
        put_first(&mut self.buckets, bucket, entry.next);
        self.held = usize::saturating_sub(self.held, 1);
        Some(entry.column)
    }

    /// Takes a column out of the first bucket of a single value that isn't empty.
    fn take(&mut self) -> Option<u32> {
        for bucket in self.first..SINGLE {
            self.first = bucket;
            if let Some(column) = self.take_off(bucket) {
                return Some(column);
            }
        }
        None
    }

    /// Takes a column of the least value, where these are the values of all.
    pub fn pop(&mut self, values: &[u32]) -> Option<u32> {
        for bucket in SINGLE..BUCKETS {
            if self.held == 0 {
                return None;
            }
            if let Some(column) = self.take() {
                return Some(column);
            }
            self.sort(bucket, values);
        }
        self.take()
    }
}
