//! Where in the bytes of a text its units begin.

ghost use Rattle.std.specs.Prelude.{◌≡◌, ◌≢◌, ◌<◌, ◌≤◌, [], length, drop};
ghost use Rattle.pv_chars.specs.Texts.{joined};
ghost use Rattle.pv_chars.specs.Units.{BeginsAmpersand, IsCut, units_in};
ghost use Rattle.pv_chars.specs.UnitPlaces.{openings, EndsBeforeAmpersand};

use crate::delimiters::up_to_byte;
use crate::last_units::last_units;
use crate::utf8::continues;

/// How many units are passed from the left in the time that one takes from the right.
const LEFT: usize = 8;

/// What stands after so many units of a text that has `all`.
pub(crate) fn behind_units(bytes: &[u8], all: usize, count: usize) -> &[u8]
    requires units { IsCut bytes.now all }
    requires within { count ≤ all }
    ensures { result.now ≡ joined (drop count (units_in bytes.now)) }
{
    if all == bytes.len() {
        return bytes.split_at(count).1;
    }
    if all - count < count / LEFT {
        return last_units(bytes, all, all - count);
    }
    walk(bytes, count)
}

// What stands after so many units, found from the left.
fn walk(bytes: &[u8], count: usize) -> &[u8]
    ensures { result.now ≡ joined (drop count (units_in bytes.now)) }
{
    let mut rest = bytes;
    let mut left = count;
    'runs: while left > 0 && !rest.is_empty() {
        let (passed, more) = after_run(rest, left);
        left -= passed;
        rest = more;
    }
    after_character(rest)
}

// How many units begin in some bytes at the front, at most so many, and what stands after them: a
// run without references, which isn't longer than that, and the reference after it.
fn after_run(bytes: &[u8], most: usize) -> (usize, &[u8])
    requires some { bytes.now ≢ [] }
    requires one { 0 < most }
    ensures passed { drop result.0 (units_in bytes.now) ≡ units_in result.1.now }
    ensures within { result.0 ≤ most }
    ensures shorter { length result.1.now < length bytes.now }
{
    let run = bytes.split_at(most.min(bytes.len())).0;
    let front = before_ampersand(run);
    let rest = bytes.split_at(front.len()).1;
    let passed = openings(front);
    if front.len() == run.len() {
        return (passed, rest);
    }
    (passed + 1, after_reference(rest))
}

// What stands before the first `&`.
fn before_ampersand(bytes: &[u8]) -> &[u8]
    ensures { EndsBeforeAmpersand bytes.now result.now }
{
    match up_to_byte(b'&', bytes) {
        Some((before, _)) => before,
        None => bytes,
    }
}

// What stands after the reference at the front. It is short, and mostly not worth a search.
fn after_reference(bytes: &[u8]) -> &[u8]
    requires { BeginsAmpersand bytes.now }
    ensures passed { drop 1 (units_in bytes.now) ≡ units_in result.now }
    ensures shorter { length result.now < length bytes.now }
{
    let mut rest = bytes;
    'bytes: while let [b, more @ ..] = rest {
        rest = more;
        if *b == b';' {
            return rest;
        }
    }
    rest
}

// How many of the bytes continue no character. All are looked at, so that many can be at a time.
fn openings(bytes: &[u8]) -> usize
    ensures value { result ≡ openings bytes.now }
    ensures within { result ≤ length bytes.now }
{
    let mut count = 0;
    for b in bytes {
        if !continues(*b) {
            count += 1;
        }
    }
    count
}

// What stands after the bytes at the front that continue a character.
fn after_character(bytes: &[u8]) -> &[u8]
    ensures { result.now ≡ joined (units_in bytes.now) }
{
    let mut rest = bytes;
    'bytes: while let [b, more @ ..] = rest {
        if !continues(*b) {
            return rest;
        }
        rest = more;
    }
    rest
}
