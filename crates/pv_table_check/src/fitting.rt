//! Whether entries are over a word, and in order.

ghost use Rattle.std.specs.Prelude.{◌≡◌, ◌<◌, ◌≤◌, ◌-◌, ◌↔◌, IsTrue, Some, length, map, slice_get};
ghost use Rattle.std.specs.Prelude.{ℕ};
ghost use Rattle.std.specs.List.{AllPairs};
ghost use Rattle.pv_model.specs.PlainForms.{plain_token};
ghost use Rattle.pv_dtd.specs.PlainForms.{plain_dtd};
ghost use Rattle.pv_rules.specs.PlainForms.{IsFlat};
ghost use Rattle.pv_tables.specs.Tables.{Precedes};
ghost use Rattle.pv_tables.specs.declared.tables.Entry.{Entry};
ghost use Rattle.pv_table_check.specs.ClosedEntries.{AreOver, IsEntryOver};

use pv_dtd::Dtd;
use pv_model::Token;
use pv_rules::{FlatDtd, HEAVIEST, has_site};
use pv_tables::{Entry, precedes};

// Whether an entry names a site of the DTD and a span of the word, and is light.
fn is_over(dtd: &Dtd, flat: &FlatDtd, word: &[Token], entry: &Entry) -> bool
    requires { IsFlat (plain_dtd dtd.now) flat.now }
    ensures { IsTrue result ↔ IsEntryOver (plain_dtd dtd.now) (map plain_token word.now) entry.now }
{
    if !has_site(dtd, flat, entry.site) {
        return false;
    }
    entry.from <= entry.to && entry.to as usize <= word.len() && entry.value < HEAVIEST
}

// Whether the entry at a place stands before the next one.
fn ascends_at(entries: &[Entry], place: usize) -> bool
    requires { (0 < place) × (place < length entries.now) }
    ensures { (d : Entry) → (e : Entry) → slice_get entries.now (place - 1) ≡ Some d →
        slice_get entries.now place ≡ Some e → IsTrue result ↔ Precedes d e }
{
    precedes(&entries[place - 1], &entries[place])
}

// Whether entries ascend strictly.
fn ascend(entries: &[Entry]) -> bool
    ensures { IsTrue result ↔ AllPairs Precedes entries.now }
{
    for place in 1..entries.len() {
        if !ascends_at(entries, place) {
            return false;
        }
    }
    true
}

/// Whether entries are over a word, and ascend strictly.
pub fn are_over(dtd: &Dtd, flat: &FlatDtd, word: &[Token], entries: &[Entry]) -> bool
    requires { IsFlat (plain_dtd dtd.now) flat.now }
    ensures { IsTrue result ↔ AreOver (plain_dtd dtd.now) (map plain_token word.now) entries.now }
{
    for entry in entries {
        if !is_over(dtd, flat, word, entry) {
            return false;
        }
    }
    ascend(entries)
}
