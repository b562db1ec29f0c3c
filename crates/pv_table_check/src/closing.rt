//! Whether a table is closed.

ghost use Rattle.std.specs.Prelude.{◌≡◌, ◌<◌, ◌^◌, ◌↔◌, IsTrue, length, ℕ};
ghost use Rattle.pv_dtd.specs.Plain.{parts_in_models};
ghost use Rattle.pv_rules.specs.Derivations.{IsClosed};
ghost use Rattle.pv_rules.specs.Rules.{IsKnownWord, Rule};
ghost use Rattle.pv_rules.specs.Sites.{content_site, name_site, part_site, rest_site};
ghost use Rattle.pv_tables.specs.Values.{listed_value};
ghost use Rattle.pv_table_check.specs.ClosedForms.{WeighsAsOne};
ghost use Rattle.pv_table_check.specs.Tested.{AreDeclared, IsClosedIn, CanBeTested, dtd_in, word_in};

use crate::contents::content_closed;
use crate::forms::one_holds;
use crate::least::least_of;
use crate::lookup::entries_between;
use crate::particles::{part_closed, rest_closed};
use crate::tested::Tested;
use crate::texts::names_hold;
use pv_model::NameId;
use pv_rules::Site;
use pv_rules::laws::closed_at_sites_law;
use pv_tables::Entry;
use pv_tables::laws::listed_or_not_law;

/// Whether a table is closed at the names of the DTD, where it is at those that stand in the word;
/// these are entries of the declared names.
fn names_closed(tested: &Tested<'_>, declared: &[Entry]) -> bool
    requires sound { CanBeTested tested.now }
    requires declared { AreDeclared tested.now declared.now }
    ensures { IsTrue result ↔ ((x : ℕ) → x < length (dtd_in tested.now).names →
        WeighsAsOne tested.now.entries.now (name_site x) (content_site x) 1 ×
        IsClosedIn tested.now (content_site x)) }
{
    for name in 0..tested.dtd.names() {
        let id = NameId(name);
        if !one_holds(tested.entries, Site::Name(id), Site::Content(id), 1) {
            return false;
        }
        if !content_closed(tested, declared, name) {
            return false;
        }
    }
    true
}

/// Whether a table is closed at the names of the DTD, by the least values of the declared names,
/// which are found once.
fn all_names_closed(tested: &Tested<'_>) -> bool
    requires { CanBeTested tested.now }
    ensures { IsTrue result ↔ ((x : ℕ) → x < length (dtd_in tested.now).names →
        WeighsAsOne tested.now.entries.now (name_site x) (content_site x) 1 ×
        IsClosedIn tested.now (content_site x)) }
{
    let end = Site::Name(NameId(tested.dtd.count()));
    let declared = entries_between(tested.entries, Site::Name(NameId(0)), end);
    match least_of(tested.alloc, declared, tested.word.len()) {
        Some(least) => names_closed(tested, &least),
        None => names_closed(tested, declared),
    }
}

/// Whether a table is closed at the parts of the DTD.
fn parts_closed(tested: &Tested<'_>) -> bool
    requires { CanBeTested tested.now }
    ensures { IsTrue result ↔ ((q : ℕ) → q < parts_in_models (dtd_in tested.now).models →
        IsClosedIn tested.now (part_site q) × IsClosedIn tested.now (rest_site q)) }
{
    for number in 0..tested.dtd.parts() {
        if !part_closed(tested, number) {
            return false;
        }
        if !rest_closed(tested, number) {
            return false;
        }
    }
    true
}

/// Whether a table is closed, whatever isn't listed having the value 1,000,001.
pub fn is_closed(tested: &Tested<'_>) -> bool
    requires sound { CanBeTested tested.now }
    requires known { IsKnownWord (dtd_in tested.now) (word_in tested.now) }
    ensures { IsTrue result ↔ IsClosed (Rule (dtd_in tested.now) (word_in tested.now))
        (listed_value tested.now.entries.now) }
{
    listed_or_not_law();
    closed_at_sites_law();
    if !names_hold(tested.entries, tested.word) {
        return false;
    }
    if !all_names_closed(tested) {
        return false;
    }
    parts_closed(tested)
}
