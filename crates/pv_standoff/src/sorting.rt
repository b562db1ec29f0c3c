//! Ranges in sorted order.

ghost use Rattle.std.specs.Prelude.{◌≡◌, IfOk, map};
ghost use Rattle.pv_standoff.specs.Ranges.{IsSortedFrom};
ghost use Rattle.pv_standoff.specs.RangeOrder.{place_cmp};
ghost use Rattle.pv_standoff.specs.PlainForms.{seen};

use crate::ranges::Range;
use pv_chars::NoMemory;
use std::alloc::Global;
use std::cmp::Ordering;

// A range with its place beside it: sorting compares places and doesn't look the ranges up, which
// stand anywhere in memory.
#[derive(Clone, Copy)]
struct Placed<'a> {
    from: u32,
    to: u32,
    level: u32,
    range: &'a Range,
    ghost is_from: { from ≡ range.now.from },
    ghost is_to: { to ≡ range.now.to },
    ghost is_level: { level ≡ range.now.level },
}

// How two ranges stand in sorted order.
fn compare(a: &Placed<'_>, b: &Placed<'_>) -> Ordering
    ensures { result ≡ place_cmp a.now.range.now b.now.range.now }
{
    a.from
        .cmp(&b.from)
        .then(b.to.cmp(&a.to))
        .then(a.level.cmp(&b.level))
}

// A range with its place.
fn with_place(range: &Range) -> Placed<'_>
    ensures { result.range.now ≡ range.now }
{
    Placed {
        from: range.from,
        to: range.to,
        level: range.level,
        range,
    }
}

// The ranges with their places, in their order.
fn with_places<'a>(alloc: Global, ranges: &'a [Range]) -> Result<Vec<Placed<'a>>, NoMemory>
    ensures { IfOk result (λ v. map (λ p. p.range.now) v.items ≡ ranges.now) }
{
    let mut places = Vec::with_capacity(alloc, ranges.len())?;
    for range in ranges {
        places.push(with_place(range))?;
    }
    Ok(places)
}

// References to the ranges, without their places.
fn references<'a>(alloc: Global, places: &[Placed<'a>]) -> Result<Vec<&'a Range>, NoMemory>
    ensures { IfOk result (λ v. seen v.items ≡ map (λ p. p.range.now) places.now) }
{
    let mut ranges = Vec::with_capacity(alloc, places.len())?;
    for place in places {
        ranges.push(place.range)?;
    }
    Ok(ranges)
}

/// The ranges in sorted order.
pub(crate) fn in_order<'a>(alloc: Global, ranges: &'a [Range]) -> Result<Vec<&'a Range>, NoMemory>
    ensures { IfOk result (λ v. IsSortedFrom ranges.now (seen v.items)) }
{
    let mut places = with_places(alloc, ranges)?;
    places.sort_unstable_by(|a, b| compare(a, b));
    references(alloc, places.as_slice())
}
