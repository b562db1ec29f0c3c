//! The entries of a table, looked up.

ghost use Rattle.std.specs.Prelude.{◌≡◌, ◌<◌, ◌≤◌, ◌↔◌, ℕ, false, true, IfSome, IsTrue};
ghost use Rattle.std.specs.Prelude.{length, slice_get, Some};
ghost use Rattle.std.specs.List.{AllPairs};
ghost use Rattle.pv_rules.specs.PlainForms.{plain_site};
ghost use Rattle.pv_rules.specs.Rules.{over};
ghost use Rattle.pv_tables.specs.Tables.{Precedes, kind_rank};
ghost use Rattle.pv_tables.specs.Values.{goal_of, listed_value};
ghost use Rattle.pv_tables.specs.declared.tables.Entry.{Entry};
ghost use Rattle.pv_table_check.specs.Members.{AreMembers};
ghost use Rattle.pv_table_check.specs.Lookup.{AreLike, IsLeastProbe, IsLike, least_entry};

use pv_rules::{HEAVIEST, Site};
use pv_tables::laws::{listed_or_not_law, sites_law};
use pv_tables::{Entry, is_same_site, precedes};

// Whether the entry at a place stands before another one.
fn is_before(entries: &[Entry], place: usize, probe: &Entry) -> bool
    requires { place < length entries.now }
    ensures { (e : Entry) → slice_get entries.now place ≡ Some e →
        IsTrue result ↔ Precedes e probe.now }
{
    precedes(&entries[place], probe)
}

// How many of the entries stand before another one.
fn count_before(entries: &[Entry], probe: &Entry) -> usize
    requires { AllPairs Precedes entries.now }
    ensures within { result ≤ length entries.now }
    ensures before { (k : ℕ) (e : Entry) → k < result → slice_get entries.now k ≡ Some e →
        Precedes e probe.now }
    ensures behind { (k : ℕ) (e : Entry) → result ≤ k → slice_get entries.now k ≡ Some e →
        ¬ Precedes e probe.now }
{
    let mut low = 0;
    let mut high = entries.len();
    'halves: while low < high {
        let middle = low + (high - low) / 2;
        if is_before(entries, middle, probe) {
            low = middle + 1;
        } else {
            high = middle;
        }
    }
    low
}

/// Whether two entries have the same site and span.
pub fn is_same_goal(one: &Entry, other: &Entry) -> bool
    ensures { IsTrue result ↔ (goal_of one.now ≡ goal_of other.now) }
{
    is_same_site(one.site, other.site) && one.from == other.from && one.to == other.to
}

/// The value of a site over a span; past the cut where it isn't listed.
pub fn value_at(entries: &[Entry], site: Site, from: u32, to: u32) -> u32
    requires { AllPairs Precedes entries.now }
    ensures { result ≡ listed_value entries.now (over (plain_site site) from to) }
{
    listed_or_not_law();
    let probe = Entry {
        site,
        from,
        to,
        value: 0,
    };
    let place = count_before(entries, &probe);
    let Some(entry) = entries.get(place) else {
        return HEAVIEST;
    };
    if !is_same_goal(entry, &probe) {
        return HEAVIEST;
    }
    entry.value
}

// The value of the entry at a place, where it has the site and the span of another one.
fn value_there(entries: &[Entry], place: usize, probe: &Entry) -> Option<u32>
    requires { AllPairs Precedes entries.now }
    ensures { IfSome result (λ value. value ≡ listed_value entries.now (goal_of probe.now)) }
{
    listed_or_not_law();
    let Some(entry) = entries.get(place) else {
        return None;
    };
    if !is_same_goal(entry, probe) {
        return None;
    }
    Some(entry.value)
}

/// The value of a site over a span, as `value_at` gives it, looked for at a place first.
pub fn value_near(entries: &[Entry], place: usize, site: Site, from: u32, to: u32) -> u32
    requires { AllPairs Precedes entries.now }
    ensures { result ≡ listed_value entries.now (over (plain_site site) from to) }
{
    let probe = Entry {
        site,
        from,
        to,
        value: 0,
    };
    match value_there(entries, place, &probe) {
        Some(value) => value,
        None => value_at(entries, site, from, to),
    }
}

// Whether an entry has the site of another, and begins where that does or anywhere.
fn is_like(probe: &Entry, anywhere: bool, entry: &Entry) -> bool
    ensures { IsTrue result ↔ IsLike anywhere probe.now entry.now }
{
    is_same_site(entry.site, probe.site) && (anywhere || entry.from == probe.from)
}

// Whether the entry at a place is like another one.
fn is_like_at(entries: &[Entry], place: usize, probe: &Entry, anywhere: bool) -> bool
    requires { place < length entries.now }
    ensures { (e : Entry) → slice_get entries.now place ≡ Some e →
        IsTrue result ↔ IsLike anywhere probe.now e }
{
    is_like(probe, anywhere, &entries[place])
}

/// The entries that are like one which ends at the first place, and which begins there too where
/// they may begin anywhere.
pub fn entries_like<'a>(entries: &'a [Entry], probe: &Entry, anywhere: bool) -> &'a [Entry]
    requires ascend { AllPairs Precedes entries.now }
    requires least { IsLeastProbe anywhere probe.now }
    ensures like { AreLike entries.now anywhere probe.now result.now }
    ensures ascend { AllPairs Precedes result.now }
{
    sites_law();
    let start = count_before(entries, probe);
    let mut end = start;
    let mut high = entries.len();
    let mut step = 1_usize;
    'halves: while end < high {
        let ahead = step.min((high - end) / 2);
        if is_like_at(entries, end + ahead, probe, anywhere) {
            end = end + ahead + 1;
            step = step.saturating_mul(2);
        } else {
            high = end + ahead;
        }
    }
    &entries[start..end]
}

/// The entries of the sites of a kind whose numbers go from that of one up to that of another.
pub fn entries_between<'a>(entries: &'a [Entry], low: Site, high: Site) -> &'a [Entry]
    requires ascend { AllPairs Precedes entries.now }
    requires kind { kind_rank (plain_site low) ≡ kind_rank (plain_site high) }
    ensures { AreMembers entries.now (plain_site low) (plain_site high) result.now }
{
    let first = Entry {
        site: low,
        from: 0,
        to: 0,
        value: 0,
    };
    let behind = Entry {
        site: high,
        ..first
    };
    let start = count_before(entries, &first);
    let end = count_before(entries, &behind);
    if end <= start {
        return &[];
    }
    &entries[start..end]
}

/// The entries of a site.
pub fn entries_of<'a>(entries: &'a [Entry], site: Site) -> &'a [Entry]
    requires { AllPairs Precedes entries.now }
    ensures like { AreLike entries.now true (least_entry site 0) result.now }
    ensures ascend { AllPairs Precedes result.now }
{
    let probe = Entry {
        site,
        from: 0,
        to: 0,
        value: 0,
    };
    entries_like(entries, &probe, true)
}

/// The entries of a site that begin at a place.
pub fn row_of<'a>(entries: &'a [Entry], site: Site, from: u32) -> &'a [Entry]
    requires { AllPairs Precedes entries.now }
    ensures like { AreLike entries.now false (least_entry site from) result.now }
    ensures ascend { AllPairs Precedes result.now }
{
    let probe = Entry {
        site,
        from,
        to: 0,
        value: 0,
    };
    entries_like(entries, &probe, false)
}

/// Where the entry that ends at a place stands among those of a site that begin at one, if each of
/// these ends one token after the one before it.
pub fn place_of(row: &[Entry], to: u32) -> usize {
    let Some(first) = row.first() else {
        return 0;
    };
    to.saturating_sub(first.to) as usize
}
