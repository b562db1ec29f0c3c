//! A whole front: its own reaches, and the ends that it shares with others.

use crate::making::shared::Tail;
use pv_bounds::Reach;

/// A front: its own reaches, and the ends that follow them, the furthest first, with the cost up to
/// the nearest.
#[derive(Clone, Copy, Debug)]
pub struct Whole<'a> {
    pub near: &'a [Reach],
    pub ends: &'a [u32],
    pub tail: Option<Tail>,
}

fn number_of(count: usize) -> u32 {
    u32::try_from(count).unwrap_or(u32::MAX)
}

impl<'a> Whole<'a> {
    // The end of the reach with a number among those that follow the near ones.
    fn shared_end(&self, number: u32) -> Option<u32> {
        let place = usize::checked_sub(self.ends.len(), usize::saturating_add(number as usize, 1))?;
        self.ends.get(place).copied()
    }

    // How many of the ends that follow the near ones are short of a place.
    fn short_of(&self, end: u32) -> u32 {
        let far = self.ends.partition_point(|other| *other >= end);
        number_of(usize::saturating_sub(self.ends.len(), far))
    }

    /// What a reach up to a place or further costs at least.
    pub fn cost_to(&self, end: u32) -> Option<u32> {
        let number = self.near.partition_point(|reach| reach.end < end);
        if let Some(reach) = self.near.get(number) {
            return Some(reach.cost);
        }
        let tail = self.tail?;
        let short = self.short_of(end);
        self.shared_end(short)?;
        Some(u32::saturating_add(tail.cost, short))
    }

    /// How far it goes at a cost, or 0 where it goes nowhere.
    pub fn end_by(&self, cost: u32) -> u32 {
        if let Some(tail) = self.tail {
            if let Some(more) = u32::checked_sub(cost, tail.cost) {
                let last = u32::saturating_sub(number_of(self.ends.len()), 1);
                return self.shared_end(more.min(last)).unwrap_or(0);
            }
        }
        let number = self.near.partition_point(|reach| reach.cost <= cost);
        match self.near.get(usize::wrapping_sub(number, 1)) {
            Some(reach) => reach.end,
            None => 0,
        }
    }

    /// The cost of its furthest reach.
    pub fn top(&self) -> u32 {
        match self.tail {
            Some(tail) => {
                let more = u32::saturating_sub(number_of(self.ends.len()), 1);
                u32::saturating_add(tail.cost, more)
            }
            None => match self.near.last() {
                Some(reach) => reach.cost,
                None => 0,
            },
        }
    }

    /// The ends that follow the near ones, of a cost or more, at a place or after it.
    pub fn tail_from(&self, cost: u32, end: u32) -> Option<Tail> {
        let tail = self.tail?;
        let left_out = u32::saturating_sub(cost, tail.cost).max(self.short_of(end));
        let count = u32::checked_sub(tail.count, left_out)?;
        if count == 0 {
            return None;
        }
        Some(Tail {
            count,
            cost: u32::saturating_add(tail.cost, left_out),
            ..tail
        })
    }
}
