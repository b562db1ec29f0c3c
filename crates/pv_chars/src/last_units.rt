//! Where in the bytes of a text its last units begin, found from the right.

ghost use Rattle.std.specs.Prelude.{◌≡◌, ◌≢◌, ◌≤◌, ◌-◌, [], true, false, drop, MatchOption};
ghost use Rattle.pv_chars.specs.Texts.{joined};
ghost use Rattle.pv_chars.specs.Units.{IsCut, units_in};
ghost use Rattle.pv_chars.specs.UnitPlaces.{ends_in_reference, nests_none, begins_character};
ghost use Rattle.pv_chars.specs.UnitPlaces.{EndsOpen, EndsOpening, EndsUnit};

use crate::utf8::continues;

/// The last `count` units of a text that has `all`.
pub(crate) fn last_units(bytes: &[u8], all: usize, count: usize) -> &[u8]
    requires units { IsCut bytes.now all }
    requires within { count ≤ all }
    ensures { result.now ≡ joined (drop (all - count) (units_in bytes.now)) }
{
    let mut front = bytes;
    let mut left = count;
    'units: while left > 0 && !front.is_empty() {
        front = before_unit(front);
        left -= 1;
    }
    bytes.split_at(front.len()).1
}

// What stands before the last unit.
fn before_unit(bytes: &[u8]) -> &[u8]
    requires some { bytes.now ≢ [] }
    requires begins_character { begins_character bytes.now ≡ true }
    requires closed { ends_in_reference false bytes.now ≡ false }
    requires nests_none { nests_none false bytes.now ≡ true }
    ensures { EndsUnit bytes.now result.now }
{
    let (front, first) = last_opening(bytes);
    if first != b';' {
        return front;
    }
    match before_reference(front) {
        Some(before) => before,
        None => front,
    }
}

// The last byte that continues no character, and what stands before it.
fn last_opening(bytes: &[u8]) -> (&[u8], u8)
    requires some { bytes.now ≢ [] }
    requires begins_character { begins_character bytes.now ≡ true }
    ensures { EndsOpening bytes.now result.0.now result.1 }
{
    let mut rest = bytes;
    'bytes: while let [front @ .., b] = rest {
        if !continues(*b) {
            return (front, *b);
        }
        rest = front;
    }
    unreachable!()
}

// What stands before the `&` of the reference that is open at the end, if one is.
fn before_reference(bytes: &[u8]) -> Option<&[u8]>
    ensures { MatchOption result (ends_in_reference false bytes.now ≡ false)
        (λ front. EndsOpen bytes.now front.now) }
{
    let mut rest = bytes;
    'bytes: while let [front @ .., b] = rest {
        if *b == b'&' {
            return Some(front);
        }
        if *b == b';' {
            return None;
        }
        rest = front;
    }
    None
}
