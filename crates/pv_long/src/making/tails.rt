//! Fronts of a long list. Each is made up to a window's end, and goes on from there as a part of
//! what leads there does: so far on, fronts share their ends.

use crate::making::derivations::Derivations;
use crate::making::here::Here;
use crate::making::next::whole_front;
use crate::making::shared::{Shared, Tail};
use crate::making::spreading::Known;
use crate::making::whole::Whole;
use pv_bounds::{Fronts, Reach, Row};
use pv_chars::NoMemory;
use std::alloc::Global;

/// So many reaches of a front may stand alone, whatever ends others share.
const ALONE: usize = 6;

/// A front: the reaches that it has alone, and the ends that it shares.
#[derive(Debug, Drop)]
pub struct Kept {
    pub near: Vec<Reach>,
    pub tail: Option<Tail>,
}

/// A class with the number of the derivation of its last reach.
#[derive(Clone, Copy, Debug)]
struct Turn {
    via: u32,
    class: u32,
}

/// The fronts of a list that are kept, by place, the last place first, and by class.
#[derive(Drop)]
pub struct Tails {
    shared: Shared,
    rows: Vec<Row>,
    tails: Vec<Vec<Option<Tail>>>,
    /// The fronts of the place at hand, by class.
    here: Vec<Kept>,
    reaches: usize,
    pub window: u32,
    pub tokens: u32,
}

fn number_of(count: usize) -> u32 {
    u32::try_from(count).unwrap_or(u32::MAX)
}

impl Tails {
    /// No front.
    pub fn none(alloc: Global, window: u32, tokens: u32) -> Tails {
        Tails {
            shared: Shared::none(alloc),
            rows: Vec::new(alloc),
            tails: Vec::new(alloc),
            here: Vec::new(alloc),
            reaches: 0,
            window,
            tokens,
        }
    }

    /// How many reaches and shared ends there are.
    pub fn count(&self) -> usize {
        usize::saturating_add(self.reaches, self.shared.count())
    }

    /// The fronts, which cost so much over no tokens, of columns of these classes.
    pub fn into_fronts(
        self,
        alloc: Global,
        empty: Vec<u32>,
        classes: Vec<u32>,
    ) -> Result<Fronts, NoMemory> {
        let Tails {
            shared,
            mut rows,
            tails,
            ..
        } = self;
        let bases = shared.bases(alloc)?;
        for (row, tails) in rows.iter_mut().zip(tails.iter()) {
            row.fars.reserve(tails.len())?;
            for tail in tails.iter() {
                row.fars.push(shared.far(bases.as_slice(), *tail))?;
            }
        }
        rows.reverse();
        let ends = shared.into_ends(alloc)?;
        Ok(Fronts {
            empty,
            classes,
            rows,
            ends,
        })
    }

    // The tail of a class in a row.
    fn tail(&self, number: usize, class: u32) -> Option<Tail> {
        match self.tails.get(number)?.get(class as usize) {
            Some(tail) => *tail,
            None => None,
        }
    }

    /// The whole front of a class at the place at hand or one further on.
    pub fn whole(&self, here: u32, place: u32, class: u32) -> Whole<'_> {
        if place == here {
            return match self.here.get(class as usize) {
                Some(kept) => self.shared.whole(kept.near.as_slice(), kept.tail),
                None => self.shared.whole(&[], None),
            };
        }
        let number = u32::saturating_sub(u32::saturating_sub(self.tokens, place), 1) as usize;
        let near = match self.rows.get(number) {
            Some(row) => row.at(class),
            None => &[],
        };
        self.shared.whole(near, self.tail(number, class))
    }

    // The classes in the order in which their last reaches were found.
    fn turns(&self, known: Known<'_>, here: &Here) -> Result<Vec<Turn>, NoMemory> {
        let mut turns = Vec::with_capacity(known.alloc, known.classes.count())?;
        for class in 0..known.classes.count() {
            let class = number_of(class);
            if let Some(last) = here.front(class).last() {
                turns.push(Turn {
                    via: last.via,
                    class,
                })?;
            }
        }
        turns.sort_by_key(|turn| turn.via)?;
        Ok(turns)
    }

    // No front of the place at hand.
    fn begin(&mut self, known: Known<'_>) -> Result<(), NoMemory> {
        self.here.truncate(0);
        for _class in 0..known.classes.count() {
            self.here.push(Kept {
                near: Vec::new(known.alloc),
                tail: None,
            })?;
        }
        Ok(())
    }

    // Keeps the fronts of the place at hand.
    fn end(&mut self, alloc: Global) -> Result<(), NoMemory> {
        let mut starts = Vec::with_capacity(alloc, usize::saturating_add(self.here.len(), 1))?;
        let mut reaches = Vec::new(alloc);
        let mut tails = Vec::with_capacity(alloc, self.here.len())?;
        for kept in self.here.iter() {
            starts.push(number_of(reaches.len()))?;
            reaches.extend_from_slice(kept.near.as_slice())?;
            tails.push(kept.tail)?;
        }
        starts.push(number_of(reaches.len()))?;
        self.reaches = usize::saturating_add(self.reaches, reaches.len());
        self.rows.push(Row {
            starts,
            reaches,
            fars: Vec::new(alloc),
        })?;
        self.tails.push(tails)?;
        Ok(())
    }

    /// Keeps the fronts of the place at hand, which are known up to the window's end.
    pub fn keep(
        &mut self,
        known: Known<'_>,
        here: &Here,
        derivations: &Derivations,
    ) -> Result<(), NoMemory> {
        self.begin(known)?;
        let turns = self.turns(known, here)?;
        for turn in turns.iter() {
            let kept = whole_front(self, known, here, derivations, turn.class)?;
            let Kept { mut near, tail } = kept;
            let tail = self.shared.share(known.alloc, &mut near, tail, ALONE)?;
            if let Some(place) = self.here.get_mut(turn.class as usize) {
                *place = Kept { near, tail };
            }
        }
        self.end(known.alloc)
    }
}
