//! The front of a column at a place.

ghost use Rattle.std.specs.Prelude.{◌≤◌, ◌+◌, length};

use crate::fronts::{Reach, least_to};
use pv_rules::HEAVIEST;

/// The reaches of a column at a place: near ones, and then those of ends that fronts share, of
/// which each costs one more than the one before it.
#[derive(Clone, Copy)]
pub struct Front<'a> {
    /// The near reaches.
    pub near: &'a [Reach],
    /// The ends that fronts share.
    pub ends: &'a [u32],
    /// The number of the first end of this front among these.
    pub from: u32,
    /// The number after its last one.
    pub to: u32,
    /// The cost up to the first one.
    pub cost: u32,
    pub ghost within: { to ≤ length ends.now },
    pub ghost fits: { cost + to ≤ 4294967295 },
}

impl<'a> Front<'a> {
    ghost use Rattle.std.specs.Prelude.{◌≡◌, ◌≤◌, ◌<◌, ◌+◌, ◌-◌, [], drop, length, min};
    ghost use Rattle.std.specs.Prelude.{slice_index_or, take};
    ghost use Rattle.pv_rules.specs.Derivations.{heaviest};
    ghost use Rattle.pv_bounds.specs.Fronts.{rising, front_list, least_to, shared_reach};
    ghost use Rattle.pv_bounds.specs.declared.fronts.Reach.{Reach};

    /// A front without a reach.
    pub fn none(ends: &'a [u32]) -> Front<'a>
        ensures reaches { front_list result ≡ [] }
        ensures ends { result.ends.now ≡ ends.now }
    {
        Front {
            near: &[],
            ends,
            from: 0,
            to: 0,
            cost: 0,
        }
    }

    // How many shared ends there are.
    fn shared_ends(&self) -> u32
        ensures { result ≡ self.now.to - self.now.from }
    {
        u32::saturating_sub(self.to, self.from)
    }

    /// How many reaches there are.
    pub fn len(&self) -> usize
        ensures { result ≡ length (front_list self.now) }
    {
        self.near.len() + self.shared_ends() as usize
    }

    // The reach up to one of the shared ends.
    fn shared(&self, number: u32) -> Reach
        requires { number < self.now.to - self.now.from }
        ensures { result ≡ shared_reach (self.now.cost + number)
            (slice_index_or self.now.ends.now (self.now.from + number) 0) }
    {
        Reach {
            cost: self.cost + number,
            end: self.ends[(self.from + number) as usize],
            via: 0,
        }
    }

    /// The reach with a number.
    pub fn get(&self, index: usize) -> Reach
        requires { index < length (front_list self.now) }
        ensures { (d : Reach) → slice_index_or (front_list self.now) index d ≡ result }
    {
        let near = self.near.len();
        if index < near {
            self.near[index]
        } else {
            self.shared((index - near) as u32)
        }
    }

    // The least cost up to a shared end that is at a place or after it, and no more than another
    // cost.
    fn least_shared(&self, place: u32, least: u32) -> u32
        requires { least ≤ heaviest }
        ensures { result ≡ min least (least_to place (rising self.now.cost
            (drop self.now.from (take self.now.to self.now.ends.now)))) }
    {
        for number in 0..self.shared_ends() {
            let reach = self.shared(number);
            if reach.end >= place {
                return least.min(reach.cost);
            }
        }
        least
    }

    /// The least cost of a reach that ends at a place or after it, or 1,000,001 where none does.
    pub fn least_to(&self, place: u32) -> u32
        ensures { result ≡ least_to place (front_list self.now) }
    {
        let least = least_to(self.near, place);
        if least <= self.cost {
            least
        } else {
            self.least_shared(place, least)
        }
    }

    /// The number of a reach: the first that ends at a place or after it, where each ends further
    /// than those before it.
    pub fn first_to(&self, end: u32) -> usize {
        let near = self.near.partition_point(|reach| reach.end < end);
        if near < self.near.len() {
            return near;
        }
        match self.ends.get(self.from as usize..self.to as usize) {
            Some(ends) => usize::saturating_add(near, ends.partition_point(|other| *other < end)),
            None => near,
        }
    }

    /// The number of another reach: the last that costs no more than so much, where each costs more
    /// than those before it.
    pub fn last_by(&self, most: u64) -> usize {
        let ends = self.shared_ends();
        if let Some(more) = u64::checked_sub(most, u64::from(self.cost)) {
            if ends > 0 {
                let number = more.min(u64::from(ends - 1)) as usize;
                return usize::saturating_add(self.near.len(), number);
            }
        }
        let near = self
            .near
            .partition_point(|reach| u64::from(reach.cost) <= most);
        usize::wrapping_sub(near, 1)
    }

    /// The cost of the first that goes so far, or 1,000,001 where there is none.
    pub fn cost_to(&self, end: u32) -> u32 {
        let first = self.first_to(end);
        if first < self.len() {
            self.get(first).cost
        } else {
            HEAVIEST
        }
    }
}
