//! The front of a column at a place: its reaches, the cheap ones first, each further than those
//! before it.

use pv_bounds::Reach;
use pv_chars::NoMemory;
use pv_rules::HEAVIEST;

/// How far a front goes.
pub fn end_of(front: &[Reach]) -> u32 {
    match front.last() {
        Some(reach) => reach.end,
        None => 0,
    }
}

/// Puts a reach at the end of a front, in place of one that costs as much.
pub fn put(front: &mut Vec<Reach>, reach: Reach) -> Result<(), NoMemory> {
    if let Some(last) = front.last() {
        if last.cost >= reach.cost {
            front.pop();
        }
    }
    front.push(reach)?;
    Ok(())
}

/// The cheapest reach that goes this far.
pub fn reach_to(front: &[Reach], end: u32) -> Option<Reach> {
    let number = front.partition_point(|reach| reach.end < end);
    front.get(number).copied()
}

/// The reaches that go further than this.
pub fn beyond(front: &[Reach], end: u32) -> &[Reach] {
    let number = front.partition_point(|reach| reach.end <= end);
    match front.get(number..) {
        Some(reaches) => reaches,
        None => &[],
    }
}

// What a front costs up to a place.
fn cost_to(front: &[Reach], end: u32) -> u32 {
    match reach_to(front, end) {
        Some(reach) => reach.cost,
        None => HEAVIEST,
    }
}

/// How much more a front costs than another one, as far as that goes, up to a limit.
pub fn more_than(front: &[Reach], other: &[Reach], limit: u32) -> u32 {
    match other.last() {
        Some(last) => {
            let end = last.end.min(limit);
            u32::saturating_sub(cost_to(front, end), cost_to(other, end))
        }
        None => 0,
    }
}

/// Whether a front costs at most so much more than another one, as far as that goes, up to a limit.
pub fn costs_at_most(front: &[Reach], other: &[Reach], more: u32, limit: u32) -> bool {
    other.iter().all(|reach| {
        cost_to(front, reach.end.min(limit)) <= u32::saturating_add(reach.cost, more)
    })
}

/// Whether a front costs as much more at least, as far as it goes past a place.
pub fn costs_at_least(front: &[Reach], other: &[Reach], more: u32, place: u32) -> bool {
    front.iter().all(|reach| {
        reach.end <= place || u32::saturating_add(cost_to(other, reach.end), more) <= reach.cost
    })
}
