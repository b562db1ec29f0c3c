//! Windows: what a column reaches from the places after one, by as few records as tell it.

ghost use Rattle.std.specs.Prelude.{◌≡◌, ◌≤◌, ◌<◌, ◌-◌, ℕ, IfOk, IsTrue, MatchOption};
ghost use Rattle.std.specs.Prelude.{length, slice_index_or};
ghost use Rattle.pv_bounds.specs.Fronts.{front_list};
ghost use Rattle.pv_bounds.specs.Windows.{AllFalling, AllTold, AreFalling, KeepsTold, TellsReach};
ghost use Rattle.pv_bounds.specs.Windows.{TellsEnd};
ghost use Rattle.pv_bounds.specs.declared.windows.Level.{Level};
ghost use Rattle.pv_bounds.specs.declared.windows.Stretch.{Stretch};

use crate::front::Front;
use crate::fronts::Reach;
use pv_chars::NoMemory;
use std::alloc::Global;

/// Reaches that begin at a place or after it end at a place or before it.
#[derive(Clone, Copy, Debug)]
pub struct Stretch {
    pub place: u32,
    pub end: u32,
}

/// The records of reaches of one cost or more. The places and the ends of later ones are nearer.
#[derive(Debug, Drop)]
pub struct Level {
    pub cost: u32,
    pub records: Vec<Stretch>,
}

// How many of the records, the first ones, begin after a place.
fn beginning_behind(records: &[Stretch], place: u32) -> usize
    requires { AreFalling records.now }
    ensures within { result ≤ length records.now }
    ensures behind { (m : ℕ) (d : Stretch) → m < result →
        place < (slice_index_or records.now m d).place }
{
    let mut low = 0;
    let mut high = records.len();
    'halves: while low < high {
        let middle = low + (high - low) / 2;
        if records[middle].place > place {
            low = middle + 1;
        } else {
            high = middle;
        }
    }
    low
}

// The nearest of the places of records and another place.
fn nearest(records: &[Stretch], place: u32) -> u32
    requires { AreFalling records.now }
    ensures other { result ≤ place }
    ensures all { (m : ℕ) (d : Stretch) → m < length records.now →
        result ≤ (slice_index_or records.now m d).place }
{
    if records.is_empty() {
        return place;
    }
    records[records.len() - 1].place.min(place)
}

/// The farthest end of the records that begin at a place or before it, if there are any.
pub fn furthest(records: &[Stretch], place: u32) -> Option<u32>
    requires { AreFalling records.now }
    ensures { MatchOption result ((k e : ℕ) → k ≤ place → ¬ TellsEnd records.now k e)
        (λ end. (k e : ℕ) → k ≤ place → TellsEnd records.now k e → e ≤ end) }
{
    if nearest(records, u32::MAX) > place {
        return None;
    }
    let first = beginning_behind(records, place);
    if first < records.len() {
        Some(records[first].end)
    } else {
        None
    }
}

/// Whether all records end at a place or before it.
pub fn end_by(records: &[Stretch], place: u32) -> bool
    requires { AreFalling records.now }
    ensures { IsTrue result → (k e : ℕ) → TellsEnd records.now k e → e ≤ place }
{
    records.is_empty() || records[0].end <= place
}

// How many of the records, the first ones, end after a place.
fn ending_behind(records: &[Stretch], end: u32) -> usize
    ensures within { result ≤ length records.now }
    ensures last { (d : Stretch) → 0 < result →
        end < (slice_index_or records.now (result - 1) d).end }
    ensures others { (m : ℕ) (d : Stretch) → result ≤ m → m < length records.now →
        (slice_index_or records.now m d).end ≤ end }
{
    let mut kept = records.len();
    'nearer: while kept > 0 {
        if records[kept - 1].end > end {
            return kept;
        }
        kept -= 1;
    }
    kept
}

impl Level {
    ghost use Rattle.std.specs.Prelude.{◌≡◌, ℕ, IfOk};
    ghost use Rattle.pv_bounds.specs.Windows.{AreFalling, TellsEnd};

    /// Tells of a reach of its cost, from a place up to an end. Records that end there or before
    /// are no longer needed.
    fn tell(&mut self, place: u32, end: u32) -> Result<(), NoMemory>
        requires { AreFalling self.old.records.items }
        ensures cost { self.new.cost ≡ self.old.cost }
        ensures falling { IfOk result (λ _. AreFalling self.new.records.items) }
        ensures told { IfOk result (λ _. TellsEnd self.new.records.items place end) }
        ensures kept { IfOk result (λ _. (k e : ℕ) → TellsEnd self.old.records.items k e →
            TellsEnd self.new.records.items k e) }
    {
        let near = nearest(&self.records, place);
        let kept = ending_behind(&self.records, end);
        self.records.truncate(kept);
        self.records.push(Stretch { place: near, end })?;
        Ok(())
    }
}

// Where the level of a cost stands, or is to stand, where the costs of levels grow.
fn place_of(levels: &[Level], cost: u32) -> usize {
    levels.partition_point(|level| level.cost < cost)
}

// The number of a level of a cost, or how many levels there are. They mostly come in the order of
// their costs.
fn level_of(levels: &[Level], cost: u32) -> usize
    ensures within { result ≤ length levels.now }
    ensures cost { (d : Level) → result < length levels.now →
        (slice_index_or levels.now result d).cost ≡ cost }
{
    let place = place_of(levels, cost);
    if place >= levels.len() {
        return levels.len();
    }
    if levels[place].cost == cost {
        return place;
    }
    for index in 0..levels.len() {
        if levels[index].cost == cost {
            return index;
        }
    }
    levels.len()
}

// The number of a level of a cost, which is put with the others where there is none.
fn level_for(alloc: Global, levels: &mut Vec<Level>, cost: u32) -> Result<usize, NoMemory>
    requires { AllFalling levels.old.items }
    ensures falling { IfOk result (λ _. AllFalling levels.new.items) }
    ensures kept { IfOk result (λ _. KeepsTold levels.old.items levels.new.items) }
    ensures within { IfOk result (λ index. index < length levels.new.items) }
    ensures cost { IfOk result (λ index. (d : Level) →
        (slice_index_or levels.new.items index d).cost ≡ cost) }
{
    let index = level_of(levels, cost);
    if index < levels.len() {
        return Ok(index);
    }
    levels.push(Level {
        cost,
        records: Vec::new(alloc),
    })?;
    Ok(index)
}

// Tells one of the levels of a reach.
fn tell_at(levels: &mut [Level], index: usize, reach: Reach, place: u32) -> Result<(), NoMemory>
    requires falling { AllFalling levels.old }
    requires within { index < length levels.old }
    requires cost { (d : Level) → (slice_index_or levels.old index d).cost ≤ reach.cost }
    ensures falling { IfOk result (λ _. AllFalling levels.new) }
    ensures told { IfOk result (λ _. TellsReach levels.new place reach) }
    ensures kept { IfOk result (λ _. KeepsTold levels.old levels.new) }
{
    levels[index].tell(place, reach.end)?;
    Ok(())
}

// Tells of a reach from a place.
fn tell(alloc: Global, levels: &mut Vec<Level>, reach: Reach, place: u32) -> Result<(), NoMemory>
    requires { AllFalling levels.old.items }
    ensures falling { IfOk result (λ _. AllFalling levels.new.items) }
    ensures told { IfOk result (λ _. TellsReach levels.new.items place reach) }
    ensures kept { IfOk result (λ _. KeepsTold levels.old.items levels.new.items) }
{
    let index = level_for(alloc, levels, reach.cost)?;
    tell_at(levels, index, reach, place)?;
    Ok(())
}

/// Tells of all reaches of a column from a place.
pub fn tell_all(
    alloc: Global,
    levels: &mut Vec<Level>,
    front: &Front<'_>,
    place: u32,
) -> Result<(), NoMemory>
    requires { AllFalling levels.old.items }
    ensures falling { IfOk result (λ _. AllFalling levels.new.items) }
    ensures told { IfOk result (λ _. AllTold levels.new.items place (front_list front.now)) }
    ensures kept { IfOk result (λ _. KeepsTold levels.old.items levels.new.items) }
{
    for index in 0..front.len() {
        tell(alloc, levels, front.get(index), place)?;
    }
    Ok(())
}
