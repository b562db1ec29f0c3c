//! Whether a site weighs no more than entries of a first site and a second site after each.

ghost use Rattle.std.specs.Prelude.{◌≡◌, ◌<◌, ◌≤◌, ◌+◌, ◌-◌, ◌↔◌, IfSome, IsTrue, get_or, true};
ghost use Rattle.std.specs.Prelude.{List, length, ℕ, if◌then◌else◌};
ghost use Rattle.pv_tables.specs.TableLaws.{ListedOrNot};
ghost use Rattle.std.specs.List.{AllPairs, Contains};
ghost use Rattle.pv_rules.specs.PlainForms.{plain_site};
ghost use Rattle.pv_rules.specs.Rules.{over};
ghost use Rattle.pv_rules.specs.Sites.{PlainSite};
ghost use Rattle.pv_tables.specs.Tables.{Precedes};
ghost use Rattle.pv_tables.specs.Values.{listed_value};
ghost use Rattle.pv_tables.specs.declared.tables.Entry.{Entry};
ghost use Rattle.pv_table_check.specs.ClosedForms.{WeighsBehind};
ghost use Rattle.pv_table_check.specs.Lookup.{AreAscendingEntries};
ghost use Rattle.pv_table_check.specs.Rows.{AreOverPlaces, AreValueRows, AreValuesFrom};
ghost use Rattle.pv_table_check.specs.Sums.{AreNoLess, IsNoLess};
ghost use Rattle.pv_table_check.specs.Tested.{CanBeTested};

use crate::lookup::{entries_of, place_of, row_of, value_near};
use crate::rows::{Row, rows_of};
use crate::tested::Tested;
use pv_rules::Site;
use pv_tables::laws::listed_or_not_law;
use pv_tables::{Entry, is_same_site};

/// A site, and the second of two sites that it may not weigh more than. The first of the two has to
/// take a token where `outer` says so, and the second where `inner` does.
#[derive(Clone, Copy)]
pub struct Pair {
    pub left: Site,
    pub second: Site,
    pub outer: bool,
    pub inner: bool,
}

// Whether a site, whose entries from a place on these are, weighs no more than two entries say of
// which the second is after the first.
fn is_within_both(row: &[Entry], left: Site, one: &Entry, inner: bool, two: &Entry) -> bool
    requires { AllPairs Precedes row.now }
    ensures { IsTrue result ↔ ((inner ≡ true → one.now.to < two.now.to) →
        listed_value row.now (over (plain_site left) one.now.from two.now.to) ≤
        one.now.value + two.now.value) }
{
    if inner && two.to <= one.to {
        return true;
    }
    let value = value_near(row, place_of(row, two.to), left, one.from, two.to);
    u64::from(value) <= u64::from(one.value) + u64::from(two.value)
}

// Whether a site weighs no more than an entry says and a second site after it, by the entries of
// the one and of the other.
fn behind_holds(
    lefts: &[Entry],
    left: Site,
    one: &Entry,
    seconds: &[Entry],
    second: Site,
    inner: bool,
) -> bool
    requires lefts { AreAscendingEntries lefts.now }
    requires seconds { AreAscendingEntries seconds.now }
    ensures { IsTrue result ↔ WeighsBehind lefts.now seconds.now (plain_site left) one.now.from
        one.now.to one.now.value (plain_site second) inner }
{
    listed_or_not_law();
    let row = row_of(lefts, left, one.from);
    let found = row_of(seconds, second, one.to);
    for two in found {
        if !is_within_both(row, left, one, inner, two) {
            return false;
        }
    }
    true
}

// Whether a site weighs no more than an entry and a second site after it, unless the entry takes no
// token and has to.
fn first_holds(
    lefts: &[Entry],
    left: Site,
    outer: bool,
    one: &Entry,
    seconds: &[Entry],
    second: Site,
    inner: bool,
) -> bool
    requires lefts { AreAscendingEntries lefts.now }
    requires seconds { AreAscendingEntries seconds.now }
    ensures { IsTrue result ↔ ((outer ≡ true → one.now.from < one.now.to) →
        WeighsBehind lefts.now seconds.now (plain_site left) one.now.from one.now.to one.now.value
        (plain_site second) inner) }
{
    outer && one.to <= one.from || behind_holds(lefts, left, one, seconds, second, inner)
}

// Whether the site weighs no more than each entry and the second site after it, looked up entry by
// entry.
fn listed_sums_hold(entries: &[Entry], pair: &Pair, firsts: &[Entry]) -> bool
    requires { AreAscendingEntries entries.now }
    ensures { IsTrue result ↔ AreNoLess entries.now pair.now firsts.now }
{
    listed_or_not_law();
    let lefts = entries_of(entries, pair.left);
    let seconds = entries_of(entries, pair.second);
    for one in firsts {
        if !first_holds(
            lefts,
            pair.left,
            pair.outer,
            one,
            seconds,
            pair.second,
            pair.inner,
        ) {
            return false;
        }
    }
    true
}

// Whether values are no more than others with this one added, by their places.
fn are_within(lefts: &[u32], value: u32, seconds: &[u32]) -> bool
    requires { length seconds.now ≤ length lefts.now }
    ensures { IsTrue result ↔ ((k : ℕ) → k < length seconds.now →
        get_or lefts.now k 0 ≤ value + get_or seconds.now k 0) }
{
    for (place, second) in seconds.iter().enumerate() {
        if u64::from(lefts[place]) > u64::from(value) + u64::from(*second) {
            return false;
        }
    }
    true
}

// How many tokens a site takes at least.
fn least_taken(inner: bool) -> usize
    ensures { result ≡ (if inner then 1 else 0) }
{
    if inner { 1 } else { 0 }
}

// Whether the left site weighs no more than an entry and the second site after it, by the values
// of the one from where the entry begins and of the other from where it ends.
fn row_holds(one: &Entry, inner: bool, lefts: &Row, seconds: &Row) -> bool
    requires span { one.now.from ≤ one.now.to }
    requires long { one.now.from + length lefts.now.values.items ≡
        one.now.to + length seconds.now.values.items }
    requires some { 0 < length seconds.now.values.items }
    ensures { ListedOrNot → (es : List Entry) (l s : PlainSite) (most : ℕ) →
        AreOverPlaces es most →
        AreValuesFrom es l most one.now.from lefts.now.values.items →
        AreValuesFrom es s most one.now.to seconds.now.values.items →
        IsTrue result ↔ WeighsBehind es es l one.now.from one.now.to one.now.value s inner }
{
    let skipped = least_taken(inner);
    let start = (one.to - one.from) as usize + skipped;
    are_within(
        &lefts.values[start..],
        one.value,
        &seconds.values[skipped..],
    )
}

// Whether the site weighs no more than an entry and the second site after it, by their values.
fn laid_sum_holds(
    entries: &[Entry],
    pair: &Pair,
    most: u32,
    one: &Entry,
    lefts: &[Row],
    seconds: &[Row],
) -> bool
    requires over { AreOverPlaces entries.now most }
    requires lefts { AreValueRows entries.now (plain_site pair.now.left) most lefts.now }
    requires seconds { AreValueRows entries.now (plain_site pair.now.second) most seconds.now }
    requires span { (one.now.from ≤ one.now.to) × (one.now.to ≤ most) }
    ensures { IsTrue result ↔ IsNoLess entries.now pair.now one.now }
{
    listed_or_not_law();
    if pair.outer && one.to <= one.from {
        return true;
    }
    let left = &lefts[one.from as usize];
    let second = &seconds[one.to as usize];
    row_holds(one, pair.inner, left, second)
}

// Whether the site weighs no more than each of some entries and the second site after it, by their
// values.
fn laid_sums_hold(
    entries: &[Entry],
    pair: &Pair,
    most: u32,
    firsts: &[Entry],
    lefts: &[Row],
    seconds: &[Row],
) -> bool
    requires over { AreOverPlaces entries.now most }
    requires lefts { AreValueRows entries.now (plain_site pair.now.left) most lefts.now }
    requires seconds { AreValueRows entries.now (plain_site pair.now.second) most seconds.now }
    requires firsts { (e : Entry) → Contains firsts.now e → Contains entries.now e }
    ensures { IsTrue result ↔ AreNoLess entries.now pair.now firsts.now }
{
    for one in firsts {
        if !laid_sum_holds(entries, pair, most, one, lefts, seconds) {
            return false;
        }
    }
    true
}

// Whether the site weighs no more than the entries of a row and the second site after it, by values
// that are laid out for it; none where there is no memory for them.
fn row_sums_hold(tested: &Tested<'_>, pair: &Pair, firsts: &[Entry]) -> Option<bool>
    requires sound { CanBeTested tested.now }
    requires firsts { (e : Entry) → Contains firsts.now e → Contains tested.now.entries.now e }
    ensures { IfSome result (λ held. IsTrue held ↔
        AreNoLess tested.now.entries.now pair.now firsts.now) }
{
    listed_or_not_law();
    let entries = tested.entries;
    let most = tested.word.len() as u32;
    let lefts = rows_of(tested.alloc, entries, pair.left, most).ok()?;
    if is_same_site(pair.left, pair.second) {
        let held = laid_sums_hold(entries, pair, most, firsts, &lefts, &lefts);
        return Some(held);
    }
    let seconds = rows_of(tested.alloc, entries, pair.second, most).ok()?;
    let held = laid_sums_hold(entries, pair, most, firsts, &lefts, &seconds);
    Some(held)
}

// Whether it is worth while to lay out the values: where there are entries of many spans of the
// second site, and of more than a few spans of the first one.
fn are_many(tested: &Tested<'_>, pair: &Pair, firsts: &[Entry]) -> bool
    requires { CanBeTested tested.now }
{
    let places = tested.word.len() as u64 + 1;
    let spans = places.saturating_mul(places) / 2;
    let seconds = entries_of(tested.entries, pair.second).len() as u64;
    firsts.len() as u64 > places && seconds > spans / 4
}

/// Whether the left site weighs no more than each of some entries and the second site after it.
///
/// Where most spans are listed, the values of the two sites are laid out by their places, so that
/// a sum takes two reads and no search.
pub fn sums_hold(tested: &Tested<'_>, pair: &Pair, firsts: &[Entry]) -> bool
    requires sound { CanBeTested tested.now }
    requires firsts { (e : Entry) → Contains firsts.now e → Contains tested.now.entries.now e }
    ensures { IsTrue result ↔ AreNoLess tested.now.entries.now pair.now firsts.now }
{
    if !are_many(tested, pair, firsts) {
        return listed_sums_hold(tested.entries, pair, firsts);
    }
    match row_sums_hold(tested, pair, firsts) {
        Some(held) => held,
        None => listed_sums_hold(tested.entries, pair, firsts),
    }
}
