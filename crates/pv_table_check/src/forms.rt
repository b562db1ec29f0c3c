//! Whether a table is closed under the rules of one form.

ghost use Rattle.std.specs.Prelude.{◌≡◌, ◌≤◌, ◌+◌, ◌↔◌, false, true, IsTrue};
ghost use Rattle.std.specs.List.{AllPairs};
ghost use Rattle.pv_rules.specs.PlainForms.{plain_site};
ghost use Rattle.pv_rules.specs.Rules.{over};
ghost use Rattle.pv_rules.specs.Sites.{PlainSite};
ghost use Rattle.pv_tables.specs.Tables.{Precedes, kind_rank};
ghost use Rattle.pv_tables.specs.Values.{listed_value};
ghost use Rattle.pv_table_check.specs.ClosedForms.{WeighsAsOne, WeighsAsTwo, WeighsNothing};
ghost use Rattle.pv_table_check.specs.Lookup.{AreAscendingEntries};
ghost use Rattle.pv_table_check.specs.Members.{AreMembers, IsMemberSite};
ghost use Rattle.pv_table_check.specs.Tested.{CanBeTested};

use crate::least::least_of;
use crate::lookup::{entries_between, entries_of, value_at, value_near};
use crate::sums::{Pair, sums_hold};
use crate::tested::Tested;
use pv_rules::Site;
use pv_tables::Entry;
use pv_tables::laws::listed_or_not_law;

/// Whether a site weighs nothing at each place up to this one.
pub fn nothing_holds(entries: &[Entry], left: Site, most: u32) -> bool
    requires { AreAscendingEntries entries.now }
    ensures { IsTrue result ↔ WeighsNothing entries.now (plain_site left) most }
{
    listed_or_not_law();
    let found = entries_of(entries, left);
    for place in 0..=most {
        if value_at(found, left, place, place) != 0 {
            return false;
        }
    }
    true
}

// Whether a site, whose entries these are, weighs no more than an entry says, with this cost; its
// own entry is looked for at a place first.
fn is_within(lefts: &[Entry], place: usize, left: Site, cost: u32, entry: &Entry) -> bool
    requires { AllPairs Precedes lefts.now }
    ensures { IsTrue result ↔ (listed_value lefts.now
        (over (plain_site left) entry.now.from entry.now.to) ≤ cost + entry.now.value) }
{
    let value = value_near(lefts, place, left, entry.from, entry.to);
    u64::from(value) <= u64::from(cost) + u64::from(entry.value)
}

/// Whether a site weighs no more than another over each span, with this cost.
pub fn one_holds(entries: &[Entry], left: Site, right: Site, cost: u32) -> bool
    requires { AreAscendingEntries entries.now }
    ensures { IsTrue result ↔ WeighsAsOne entries.now (plain_site left) (plain_site right) cost }
{
    listed_or_not_law();
    let found = entries_of(entries, right);
    let lefts = entries_of(entries, left);
    for (place, entry) in found.iter().enumerate() {
        if !is_within(lefts, place, left, cost, entry) {
            return false;
        }
    }
    true
}

/// Whether a site weighs no more than a first one and a second one after it; the first has to take
/// a token where `outer` says so, and the second where `inner` does.
pub fn two_holds(
    tested: &Tested<'_>,
    left: Site,
    first: Site,
    outer: bool,
    second: Site,
    inner: bool,
) -> bool
    requires { CanBeTested tested.now }
    ensures { IsTrue result ↔ WeighsAsTwo tested.now.entries.now (plain_site left)
        (plain_site first) (plain_site second) outer inner }
{
    listed_or_not_law();
    let pair = Pair {
        left,
        second,
        outer,
        inner,
    };
    sums_hold(tested, &pair, entries_of(tested.entries, first))
}

/// Whether a site weighs no more than each of some members, which have to take a token, and itself
/// after it; these are entries of the members, as few as tell it.
pub fn members_hold(tested: &Tested<'_>, left: Site, low: Site, high: Site, found: &[Entry]) -> bool
    requires sound { CanBeTested tested.now }
    requires members { AreMembers tested.now.entries.now (plain_site low) (plain_site high)
        found.now }
    ensures { IsTrue result ↔ ((s : PlainSite) → IsMemberSite (plain_site low) (plain_site high) s →
        WeighsAsTwo tested.now.entries.now (plain_site left) s (plain_site left) true false) }
{
    listed_or_not_law();
    let pair = Pair {
        left,
        second: left,
        outer: true,
        inner: false,
    };
    sums_hold(tested, &pair, found)
}

/// Whether a site weighs no more than each of some members and itself after it, by entries that are
/// found for it.
pub fn each_member_holds(tested: &Tested<'_>, left: Site, low: Site, high: Site) -> bool
    requires sound { CanBeTested tested.now }
    requires kind { kind_rank (plain_site low) ≡ kind_rank (plain_site high) }
    ensures { IsTrue result ↔ ((s : PlainSite) → IsMemberSite (plain_site low) (plain_site high) s →
        WeighsAsTwo tested.now.entries.now (plain_site left) s (plain_site left) true false) }
{
    let found = entries_between(tested.entries, low, high);
    match least_of(tested.alloc, found, tested.word.len()) {
        Some(least) => members_hold(tested, left, low, high, &least),
        None => members_hold(tested, left, low, high, found),
    }
}
