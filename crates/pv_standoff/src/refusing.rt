//! The ranges that no document stands for.

ghost use Rattle.std.specs.Prelude.{◌≡◌, ◌<◌, ◌↔◌, List, [], ◌∷◌, IsTrue, IfOk, MatchOption};
ghost use Rattle.std.specs.List.{AllByRecursion};
ghost use Rattle.pv_standoff.specs.Ranges.{IsInsideText, HaveSamePlace, AreSorted, NoneTwice};
ghost use Rattle.pv_standoff.specs.Ranges.{NoneCrossLater};
ghost use Rattle.pv_standoff.specs.PlainForms.{seen, innermost_first};
ghost use Rattle.pv_standoff.specs.RefusedRanges.{IsFirstOutside, IsFirstTwice, IsFirstCrossing};
ghost use Rattle.pv_standoff.specs.Stacks.{AreStillOpen};
ghost use Rattle.pv_standoff.specs.declared.ranges.Range.{Range};

use crate::ranges::Range;
use pv_chars::NoMemory;
use std::alloc::Global;

// Whether a range holds a unit and ends within a text of so many.
fn is_inside(range: &Range, len: usize) -> bool
    ensures { IsTrue result ↔ IsInsideText len range.now }
{
    range.from < range.to && range.to as usize <= len
}

// Whether two ranges have the same place.
fn have_same_place(a: &Range, b: &Range) -> bool
    ensures { IsTrue result ↔ HaveSamePlace a.now b.now }
{
    a.from == b.from && a.to == b.to && a.level == b.level
}

/// The number of the first range that is empty or doesn't end within a text of so many units.
pub(crate) fn first_outside(len: usize, ranges: &[Range]) -> Option<usize>
    ensures { MatchOption result (AllByRecursion (IsInsideText len) ranges.now)
        (IsFirstOutside len ranges.now) }
{
    for (k, range) in ranges.iter().enumerate() {
        if !is_inside(range, len) {
            return Some(k);
        }
    }
    None
}

/// The first of the ranges in sorted order that has the place of the one after it.
pub(crate) fn first_twice<'a>(sorted: &[&'a Range]) -> Option<&'a Range>
    requires { AreSorted (seen sorted.now) }
    ensures { MatchOption result (NoneTwice (seen sorted.now))
        (λ r. IsFirstTwice (seen sorted.now) r.now) }
{
    for i in 1..sorted.len() {
        if have_same_place(sorted[i - 1], sorted[i]) {
            return Some(sorted[i - 1]);
        }
    }
    None
}

// The innermost range that doesn't end up to unit number `from`, with those further in dropped.
fn innermost<'a>(stack: &mut Vec<&'a Range>, from: u32) -> Option<&'a Range>
    ensures { (done : List Range) → AreStillOpen from done (innermost_first stack.old.items) →
        MatchOption result
        ((innermost_first stack.new.items ≡ []) × AreStillOpen from done [])
        (λ top. (from < top.now.to)
        × AreStillOpen from done (top.now ∷ innermost_first stack.new.items)) }
{
    'ended: while let Some(top) = stack.pop() {
        if top.to > from {
            return Some(top);
        }
    }
    None
}

/// The first of the ranges in sorted order that crosses one before it, after the last that it
/// crosses.
pub(crate) fn first_crossing<'a>(
    alloc: Global,
    sorted: &[&'a Range],
) -> Result<Option<(&'a Range, &'a Range)>, NoMemory>
    requires { AreSorted (seen sorted.now) }
    ensures { IfOk result (λ o. MatchOption o (NoneCrossLater (seen sorted.now))
        (λ p. IsFirstCrossing (seen sorted.now) p.0.now p.1.now)) }
{
    let mut stack: Vec<&Range> = Vec::new(alloc);
    'each: for range in sorted {
        if let Some(top) = innermost(&mut stack, range.from) {
            if top.to < range.to {
                return Ok(Some((top, *range)));
            }
            stack.push(top)?;
        }
        stack.push(*range)?;
    }
    Ok(None)
}
