//! How a front of a long list goes on where its window ends: as another one does.

use crate::making::derivations::{Derivations, Rule};
use crate::making::fronts::end_of;
use crate::making::here::Here;
use crate::making::shared::Tail;
use crate::making::spreading::Known;
use crate::making::tails::{Kept, Tails};
use pv_bounds::Reach;
use pv_chars::NoMemory;
use pv_layout::Form;

/// A front may go on as that of its class does at one of so many places, but one.
const ALIKE: u32 = 9;

/// A class at a place, of which another one goes on so much dearer.
#[derive(Clone, Copy, Debug, PartialEq, Eq)]
struct Next {
    class: u32,
    place: u32,
    more: u32,
}

// The furthest reaches of a front, past half of the window.
fn far_half(front: &[Reach], half: u32) -> &[Reach] {
    let from = front.partition_point(|reach| reach.end <= half);
    match front.get(from..) {
        Some(reaches) => reaches,
        None => &[],
    }
}

// The reaches of a front but the last one, whose end is the window's.
fn known_part(front: &[Reach]) -> &[Reach] {
    match front.get(..usize::saturating_sub(front.len(), 1)) {
        Some(reaches) => reaches,
        None => &[],
    }
}

// As which class at which place one goes on after a reach.
fn next_of(
    tails: &Tails,
    known: Known<'_>,
    derivations: &Derivations,
    (place, class): (u32, u32),
    reach: Reach,
) -> Option<Next> {
    let (other, at) = match derivations.get(reach.via)?.rule {
        Rule::Token => return None,
        Rule::Text { .. } => (class, u32::saturating_add(place, 1)),
        Rule::One { column, .. } => (column, place),
        Rule::Two { cut, .. } => match known.form(class) {
            Some(Form::Then(_, rest)) => (known.classes.of(*rest), cut),
            _ => (class, cut),
        },
    };
    let cost = tails.whole(place, at, other).cost_to(reach.end)?;
    Some(Next {
        class: other,
        place: at,
        more: u32::saturating_sub(reach.cost, cost),
    })
}

// Whether a front goes as far as some reaches, at their costs, and no further between them.
fn goes_so_far(tails: &Tails, here: u32, next: Next, reaches: &[Reach]) -> bool {
    let whole = tails.whole(here, next.place, next.class);
    let mut before = u32::MAX;
    for reach in reaches {
        let Some(cost) = u32::checked_sub(reach.cost, next.more) else {
            return false;
        };
        let is_less = before < whole.end_by(u32::saturating_sub(cost, 1));
        if is_less || whole.end_by(cost) < reach.end {
            return false;
        }
        before = reach.end;
    }
    true
}

// The one of some fronts that goes on furthest and cheapest, among those that go as far as some
// reaches.
fn best_of(tails: &Tails, here: u32, all: &[Next], reaches: &[Reach]) -> Option<Next> {
    let mut best = None;
    let mut furthest = 0u32;
    let mut least = u32::MAX;
    for next in all {
        let whole = tails.whole(here, next.place, next.class);
        let cost = u32::saturating_add(whole.top(), next.more);
        let end = whole.end_by(u32::MAX);
        let is_better = end > furthest || (end == furthest && cost < least);
        if is_better && goes_so_far(tails, here, *next, reaches) {
            best = Some(*next);
            furthest = end;
            least = cost;
        }
    }
    best
}

// As which classes a front may go on, by its last reaches, the last one first.
fn all_next(
    tails: &Tails,
    known: Known<'_>,
    here: &Here,
    derivations: &Derivations,
    class: u32,
) -> Result<Vec<Next>, NoMemory> {
    let front = here.front(class);
    let half = u32::saturating_add(here.place, tails.window / 2);
    let mut found = Vec::new(known.alloc);
    for reach in front.iter().rev() {
        if reach.end <= half {
            break;
        }
        if let Some(next) = next_of(tails, known, derivations, (here.place, class), *reach) {
            if !found.contains(&next) {
                found.push(next)?;
            }
        }
    }
    Ok(found)
}

// The class itself at the next places, as which its front may go on too.
fn all_alike(
    tails: &Tails,
    known: Known<'_>,
    here: &Here,
    class: u32,
) -> Result<Vec<Next>, NoMemory> {
    let mut found = Vec::new(known.alloc);
    let Some(last) = known_part(here.front(class)).last() else {
        return Ok(found);
    };
    for shift in 1..ALIKE {
        let place = u32::saturating_add(here.place, shift);
        if let Some(cost) = tails.whole(here.place, place, class).cost_to(last.end) {
            if let Some(more) = u32::checked_sub(last.cost, cost) {
                found.push(Next { class, place, more })?;
            }
        }
    }
    Ok(found)
}

// The front of a class goes on as another one does.
fn go_on(
    tails: &Tails,
    known: Known<'_>,
    here: &Here,
    class: u32,
    next: Next,
) -> Result<Kept, NoMemory> {
    let front = here.front(class);
    let whole = tails.whole(here.place, next.place, next.class);
    let mut near = known_part(front).to_vec(known.alloc)?;
    let (cost, end) = match front.last() {
        Some(last) => (last.cost, last.end),
        None => (0, 0),
    };
    for reach in whole.near {
        let dearer = u32::saturating_add(reach.cost, next.more);
        if dearer >= cost && reach.end >= end {
            near.push(Reach {
                cost: dearer,
                end: reach.end,
                via: 0,
            })?;
        }
    }
    let tail = whole.tail_from(u32::saturating_sub(cost, next.more), end);
    let tail = match tail {
        Some(tail) => Some(Tail {
            cost: u32::saturating_add(tail.cost, next.more),
            ..tail
        }),
        None => None,
    };
    Ok(Kept { near, tail })
}

// The furthest end that one of some others reaches at a cost.
fn furthest_of(tails: &Tails, here: u32, all: &[Next], cost: u32) -> u32 {
    let mut end = 0u32;
    for next in all {
        if let Some(left) = u32::checked_sub(cost, next.more) {
            end = end.max(tails.whole(here, next.place, next.class).end_by(left));
        }
    }
    end
}

// The greatest cost of one of some others.
fn top_of(tails: &Tails, here: u32, all: &[Next]) -> u32 {
    let mut top = 0u32;
    for next in all {
        let whole = tails.whole(here, next.place, next.class);
        top = top.max(u32::saturating_add(whole.top(), next.more));
    }
    top
}

// The front of a class goes on as the best of some others does.
fn go_on_by_all(
    tails: &Tails,
    known: Known<'_>,
    here: &Here,
    class: u32,
    all: &[Next],
) -> Result<Kept, NoMemory> {
    let front = here.front(class);
    let mut near = known_part(front).to_vec(known.alloc)?;
    let mut furthest = end_of(near.as_slice());
    let first = match front.last() {
        Some(last) => last.cost,
        None => 0,
    };
    let top = top_of(tails, here.place, all);
    for cost in first..u32::saturating_add(top, 1) {
        let end = furthest_of(tails, here.place, all, cost);
        if end > furthest {
            near.push(Reach { cost, end, via: 0 })?;
            furthest = end;
        }
    }
    Ok(Kept { near, tail: None })
}

/// The whole front of a class at the place at hand, where the fronts that it is made of are known.
pub fn whole_front(
    tails: &Tails,
    known: Known<'_>,
    here: &Here,
    derivations: &Derivations,
    class: u32,
) -> Result<Kept, NoMemory> {
    let front = here.front(class);
    let limit = u32::saturating_add(here.place, tails.window);
    if end_of(front) < limit || limit >= tails.tokens {
        return Ok(Kept {
            near: front.to_vec(known.alloc)?,
            tail: None,
        });
    }
    let half = far_half(front, u32::saturating_add(here.place, tails.window / 2));
    let alike = all_alike(tails, known, here, class)?;
    if let Some(next) = best_of(tails, here.place, alike.as_slice(), half) {
        return go_on(tails, known, here, class, next);
    }
    let all = all_next(tails, known, here, derivations, class)?;
    match best_of(tails, here.place, all.as_slice(), half) {
        Some(next) => go_on(tails, known, here, class, next),
        None => go_on_by_all(tails, known, here, class, all.as_slice()),
    }
}
