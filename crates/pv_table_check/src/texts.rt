//! Whether a table is closed under the rules that look at a token.

ghost use Rattle.std.specs.Prelude.{◌≡◌, ◌<◌, ◌≤◌, ◌-◌, ◌^◌, ◌↔◌, Some, ℕ, IsTrue, length, map};
ghost use Rattle.std.specs.Prelude.{slice_get, suc};
ghost use Rattle.std.specs.Option.{option_map};
ghost use Rattle.pv_model.specs.Plain.{named, text};
ghost use Rattle.pv_model.specs.declared.models.NameId.{NameId};
ghost use Rattle.pv_model.specs.PlainForms.{plain_token};
ghost use Rattle.pv_rules.specs.Rules.{over};
ghost use Rattle.pv_rules.specs.Sites.{content_site, name_site};
ghost use Rattle.pv_tables.specs.Values.{listed_value};
ghost use Rattle.pv_table_check.specs.ClosedForms.{KeepsNames, WeighsAsBehindText};
ghost use Rattle.pv_table_check.specs.Lookup.{AreAscendingEntries};

use crate::lookup::{entries_like, value_at};
use pv_model::{NameId, Token};
use pv_rules::Site;
use pv_tables::Entry;
use pv_tables::laws::listed_or_not_law;

// Whether a text stands at a place of the word.
fn is_text_at(word: &[Token], place: usize) -> bool
    ensures { IsTrue result ↔ (slice_get (map plain_token word.now) place ≡ Some text) }
{
    matches!(word.get(place), Some(Token::Text))
}

// Whether content from the text before an entry on weighs no more than the entry says.
fn is_within_text(entries: &[Entry], word: &[Token], name: NameId, entry: &Entry) -> bool
    requires { AreAscendingEntries entries.now }
    ensures { IsTrue result ↔ ((i : ℕ) → suc i ≡ entry.now.from →
        slice_get (map plain_token word.now) i ≡ Some text →
        listed_value entries.now (over (content_site name.0) i entry.now.to) ≤ entry.now.value) }
{
    let Some(before) = entry.from.checked_sub(1) else {
        return true;
    };
    !is_text_at(word, before as usize)
        || value_at(entries, Site::Content(name), before, entry.to) <= entry.value
}

/// Whether content from a text on weighs no more than the content after the text.
pub fn text_holds(entries: &[Entry], word: &[Token], name: NameId) -> bool
    requires { AreAscendingEntries entries.now }
    ensures { IsTrue result ↔ WeighsAsBehindText entries.now (map plain_token word.now) name.0 }
{
    listed_or_not_law();
    let probe = Entry {
        site: Site::Content(name),
        from: 0,
        to: 0,
        value: 0,
    };
    let found = entries_like(entries, &probe, true);
    for entry in found {
        if !is_within_text(entries, word, name, entry) {
            return false;
        }
    }
    true
}

// The name that stands at a place of the word.
fn name_at(word: &[Token], place: usize) -> Option<NameId>
    ensures { (x : ℕ) → (slice_get (map plain_token word.now) place ≡ Some (named x)) ↔
        (option_map (λ (id : NameId). id.0) result ≡ Some x) }
{
    match word.get(place) {
        Some(Token::Name(id)) => Some(*id),
        Some(Token::Text | Token::Other) | None => None,
    }
}

// Whether the name that stands at a place of the word weighs nothing there.
fn is_kept_at(entries: &[Entry], word: &[Token], place: usize) -> bool
    requires order { AreAscendingEntries entries.now }
    requires few { place < 2 ^ 32 - 1 }
    ensures { IsTrue result ↔ ((x : ℕ) →
        slice_get (map plain_token word.now) place ≡ Some (named x) →
        listed_value entries.now (over (name_site x) place (suc place)) ≡ 0) }
{
    let Some(id) = name_at(word, place) else {
        return true;
    };
    let from = place as u32;
    value_at(entries, Site::Name(id), from, from + 1) == 0
}

/// Whether each name in the word weighs nothing where it stands.
pub fn names_hold(entries: &[Entry], word: &[Token]) -> bool
    requires order { AreAscendingEntries entries.now }
    requires few { length word.now < 2 ^ 32 }
    ensures { IsTrue result ↔ KeepsNames entries.now (map plain_token word.now) }
{
    for place in 0..word.len() {
        if !is_kept_at(entries, word, place) {
            return false;
        }
    }
    true
}
