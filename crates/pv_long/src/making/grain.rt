//! Which ends of reaches are told apart, where a list has too many.

use pv_bounds::Reach;

/// What becomes of the reaches whose ends aren't told apart.
#[derive(Clone, Copy, Debug, PartialEq, Eq)]
pub enum Way {
    /// Each goes up to the next end that is told apart: it costs no more than is known there.
    Further,
    /// Of those up to one of these ends, the cheapest and the furthest are kept.
    Fewer,
    /// Of those up to one of these ends, the cheapest and the furthest are kept, and others may be
    /// missing too.
    Fewest,
    /// Each that goes further ends there.
    Window,
    /// Each that goes further is left out, unless it goes up to the end of the list.
    Ahead,
}

/// Ends that are up to so many places away are told apart; further on those at each second place,
/// then at each fourth one, and so on. What was told apart from a place is so from all before it.
#[derive(Clone, Copy, Debug)]
pub struct Grain {
    pub near: u32,
    pub tokens: u32,
    pub way: Way,
}

/// A number, or the next one that is a multiple of a step.
fn up_to(number: u32, step: u32) -> u32 {
    if step == 0 {
        return number;
    }
    let over = number % step;
    if over == 0 {
        number
    } else {
        u32::saturating_add(number - over, step)
    }
}

/// What is told apart from all places is at most this part of what was from the last ones.
const PART: u64 = 8;

impl Grain {
    /// How far a reach from a place may go.
    pub fn limit(&self, place: u32) -> u32 {
        match self.way {
            Way::Window => u32::saturating_add(place, self.near).min(self.tokens),
            Way::Further => self.tokens,
            Way::Fewer => self.tokens,
            Way::Fewest => self.tokens,
            Way::Ahead => self.tokens,
        }
    }

    /// The last cut that is tried from a place.
    pub fn last_cut(&self, place: u32) -> u32 {
        let last = u32::saturating_sub(self.tokens, 1);
        match self.way {
            Way::Ahead => u32::saturating_add(place, self.near).min(last),
            _ => last,
        }
    }

    /// Up to where a reach from a place goes that is offered up to an end; 0 where it is left out.
    pub fn end_of(&self, place: u32, end: u32) -> u32 {
        match self.way {
            Way::Further => self.told(place, end),
            Way::Fewer => end,
            Way::Fewest => end,
            Way::Window => end.min(self.limit(place)),
            Way::Ahead => self.end_ahead(place, end),
        }
    }

    // The end of a reach, or 0 where it is neither near nor that of the list.
    fn end_ahead(&self, place: u32, end: u32) -> u32 {
        if end >= self.tokens || end <= u32::saturating_add(place, self.near) {
            end
        } else {
            0
        }
    }

    /// Whether fronts may lack reaches that others lead to.
    pub fn may_lack(&self) -> bool {
        self.way == Way::Fewest || self.way == Way::Ahead
    }

    /// Whether reaches are taken off fronts.
    pub fn is_thin(&self) -> bool {
        self.way == Way::Fewer || self.way == Way::Fewest
    }

    /// The first end at this one or after it that is told apart from a place.
    fn told(&self, place: u32, end: u32) -> u32 {
        let mut told = end;
        let mut step = 1u32;
        let mut reach = self.near;
        for _step in 0..32 {
            if u32::saturating_sub(told, place) <= reach || told >= self.tokens {
                break;
            }
            step = u32::saturating_mul(step, 2);
            reach = u32::saturating_mul(reach, 2);
            told = up_to(told, step);
        }
        told.min(self.tokens)
    }

    /// Takes off the last reach of a front, where a reach up to this end comes after it and they
    /// and the one before them aren't told apart.
    pub fn thin(&self, front: &mut Vec<Reach>, place: u32, end: u32) {
        let Some(number) = usize::checked_sub(front.len(), 2) else {
            return;
        };
        if let Some(before) = front.get(number) {
            if self.told(place, before.end) == self.told(place, end) {
                front.pop();
            }
        }
    }

    /// Fewer ends, where there were too many reaches from the last places, which are so many.
    pub fn coarser(&self, places: u32) -> Grain {
        let room = u64::from(places) * u64::from(places) / PART;
        let mut near = self.near / 2;
        let mut times = 1u64;
        for _half in 0..32 {
            let most = u64::from(self.tokens) * u64::from(near);
            if u64::saturating_mul(most, times) <= room {
                break;
            }
            near /= 2;
            times = u64::saturating_add(times, 1);
        }
        Grain {
            near: near.max(1),
            ..*self
        }
    }
}
