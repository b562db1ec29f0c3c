//! The ends that the fronts of a long list share.

use crate::making::whole::Whole;
use pv_bounds::{Far, Reach};
use pv_chars::NoMemory;
use std::alloc::Global;

/// So many chains of ends there may be, and so many of those that are looked at for one that fits.
const MOST_CHAINS: usize = 256;

/// How a front goes on after its own reaches: as far as the ends of a chain, so many of them from
/// the furthest on; the nearest of these at a cost, and each further one at one more.
#[derive(Clone, Copy, Debug, PartialEq, Eq)]
pub struct Tail {
    pub chain: u32,
    pub count: u32,
    pub cost: u32,
}

/// Chains of ends, of each the furthest first.
#[derive(Debug, Drop)]
pub struct Shared {
    chains: Vec<Vec<u32>>,
    ends: usize,
}

fn number_of(count: usize) -> u32 {
    u32::try_from(count).unwrap_or(u32::MAX)
}

// Whether so many ends of a chain, after some first ones, are the same.
fn goes_on(chain: &[u32], after: usize, end: u32, times: u32) -> bool {
    match chain.get(after..usize::saturating_add(after, times as usize)) {
        Some(ends) => ends.iter().all(|other| *other == end),
        None => false,
    }
}

// Whether a chain begins with these ends.
fn begins_with(chain: &[u32], first: &[u32]) -> bool {
    match chain.get(..first.len()) {
        Some(ends) => ends == first,
        None => false,
    }
}

// How many ends of a chain a front shares, whose reaches are these.
fn common(chain: &[u32], near: &[Reach]) -> usize {
    let mut count = 0usize;
    let mut cost = None;
    for reach in near.iter().rev() {
        let times = match cost {
            Some(dearer) => u32::saturating_sub(dearer, reach.cost),
            None => 1,
        };
        if !goes_on(chain, count, reach.end, times) {
            break;
        }
        count = usize::saturating_add(count, times as usize);
        cost = Some(reach.cost);
    }
    count
}

impl Shared {
    /// No chain.
    pub fn none(alloc: Global) -> Shared {
        Shared {
            chains: Vec::new(alloc),
            ends: 0,
        }
    }

    /// How many ends there are.
    pub fn count(&self) -> usize {
        self.ends
    }

    // The ends of a chain.
    fn chain(&self, number: u32) -> &[u32] {
        match self.chains.get(number as usize) {
            Some(chain) => chain.as_slice(),
            None => &[],
        }
    }

    /// A front of these reaches and this tail.
    pub fn whole<'a>(&'a self, near: &'a [Reach], tail: Option<Tail>) -> Whole<'a> {
        let ends = match tail {
            Some(tail) => match self.chain(tail.chain).get(..tail.count as usize) {
                Some(ends) => ends,
                None => &[],
            },
            None => &[],
        };
        Whole { near, ends, tail }
    }

    // Begins a chain with the first ends of another one.
    fn begin(&mut self, alloc: Global, number: u32, count: u32) -> Result<u32, NoMemory> {
        let chain = match self.chain(number).get(..count as usize) {
            Some(ends) => ends.to_vec(alloc)?,
            None => Vec::new(alloc),
        };
        self.ends = usize::saturating_add(self.ends, chain.len());
        let made = number_of(self.chains.len());
        self.chains.push(chain)?;
        Ok(made)
    }

    // The chain of which a front shares the most ends, if it shares any.
    fn best(&self, near: &[Reach]) -> Option<u32> {
        let mut most = 0usize;
        let mut best = None;
        for (number, chain) in self.chains.iter().enumerate() {
            let count = common(chain.as_slice(), near);
            if count > most {
                most = count;
                best = Some(number_of(number));
            }
        }
        best
    }

    // A chain that begins as one does and goes on with this end, if there is one.
    fn fitting(&self, tail: Tail, end: u32, times: u32) -> Option<u32> {
        let count = tail.count as usize;
        let first = self.chain(tail.chain).get(..count)?;
        for (number, chain) in self.chains.iter().enumerate() {
            if goes_on(chain.as_slice(), count, end, times)
                && begins_with(chain.as_slice(), first)
            {
                return Some(number_of(number));
            }
        }
        None
    }

    // Lets a chain go on with an end, so many times.
    fn lengthen(&mut self, number: u32, end: u32, times: u32) -> Result<(), NoMemory> {
        if let Some(chain) = self.chains.get_mut(number as usize) {
            for _time in 0..times {
                chain.push(end)?;
            }
            self.ends = usize::saturating_add(self.ends, times as usize);
        }
        Ok(())
    }

    // The chain on which a tail goes on with an end, where it may be lengthened or begun for it.
    fn chain_for(
        &mut self,
        alloc: Global,
        tail: Tail,
        end: u32,
        times: u32,
    ) -> Result<Option<u32>, NoMemory> {
        if let Some(found) = self.fitting(tail, end, times) {
            return Ok(Some(found));
        }
        let mut number = tail.chain;
        if self.chain(number).len() > tail.count as usize {
            if self.chains.len() >= MOST_CHAINS {
                return Ok(None);
            }
            number = self.begin(alloc, tail.chain, tail.count)?;
        }
        self.lengthen(number, end, times)?;
        Ok(Some(number))
    }

    // A tail without an end so far, for a front of these reaches.
    fn first_tail(&mut self, alloc: Global, near: &[Reach]) -> Result<Option<Tail>, NoMemory> {
        let Some(last) = near.last() else {
            return Ok(None);
        };
        let chain = match self.best(near) {
            Some(chain) => chain,
            None if self.chains.len() >= MOST_CHAINS => return Ok(None),
            None => self.begin(alloc, 0, 0)?,
        };
        Ok(Some(Tail {
            chain,
            count: 0,
            cost: u32::saturating_add(last.cost, 1),
        }))
    }

    // The tail that also has a reach before it, where more than so many reaches would stand alone,
    // or the ends are those of the chain.
    fn longer(
        &mut self,
        alloc: Global,
        tail: Tail,
        reach: Reach,
        may_grow: bool,
    ) -> Result<Option<Tail>, NoMemory> {
        let times = u32::saturating_sub(tail.cost, reach.cost);
        let mut chain = tail.chain;
        if !goes_on(self.chain(chain), tail.count as usize, reach.end, times) {
            if !may_grow {
                return Ok(None);
            }
            match self.chain_for(alloc, tail, reach.end, times)? {
                Some(number) => chain = number,
                None => return Ok(None),
            }
        }
        Ok(Some(Tail {
            chain,
            count: u32::saturating_add(tail.count, times),
            cost: reach.cost,
        }))
    }

    /// Moves the last reaches of a front to its tail, as far as others have these, or more than so
    /// many would stand alone.
    pub fn share(
        &mut self,
        alloc: Global,
        near: &mut Vec<Reach>,
        tail: Option<Tail>,
        alone: usize,
    ) -> Result<Option<Tail>, NoMemory> {
        let mut kept = tail;
        if kept.is_none() && near.len() > alone {
            kept = self.first_tail(alloc, near.as_slice())?;
        }
        let Some(mut tail) = kept else {
            return Ok(None);
        };
        for left in (0..near.len()).rev() {
            let Some(reach) = near.get(left).copied() else {
                break;
            };
            let Some(longer) = self.longer(alloc, tail, reach, left >= alone)? else {
                break;
            };
            tail = longer;
            near.truncate(left);
        }
        if tail.count == 0 {
            return Ok(None);
        }
        Ok(Some(tail))
    }

    /// Where each chain starts among all ends.
    pub fn bases(&self, alloc: Global) -> Result<Vec<u32>, NoMemory> {
        let mut bases = Vec::with_capacity(alloc, self.chains.len())?;
        let mut base = 0usize;
        for chain in self.chains.iter() {
            bases.push(number_of(base))?;
            base = usize::saturating_add(base, chain.len());
        }
        Ok(bases)
    }

    /// The ends of a tail among all ends.
    pub fn far(&self, bases: &[u32], tail: Option<Tail>) -> Far {
        let (base, tail) = match tail {
            Some(tail) => (bases.get(tail.chain as usize).copied().unwrap_or(0), tail),
            None => {
                return Far {
                    from: 0,
                    to: 0,
                    cost: 0,
                };
            }
        };
        let to = u32::saturating_add(base, number_of(self.chain(tail.chain).len()));
        Far {
            from: u32::saturating_sub(to, tail.count),
            to,
            cost: tail.cost,
        }
    }

    /// All ends, chain by chain, of each the nearest first.
    pub fn into_ends(self, alloc: Global) -> Result<Vec<u32>, NoMemory> {
        let Shared { chains, ends } = self;
        let mut all = Vec::with_capacity(alloc, ends)?;
        for mut chain in chains {
            chain.reverse();
            all.extend_from_slice(chain.as_slice())?;
        }
        Ok(all)
    }
}
