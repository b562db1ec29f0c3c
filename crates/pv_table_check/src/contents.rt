//! Whether a table is closed at the contents of names.

ghost use Rattle.std.specs.Prelude.{◌≡◌, ◌+◌, ◌<◌, ◌^◌, ◌↔◌, IsTrue, List, Some, length, ℕ};
ghost use Rattle.pv_model.specs.Plain.{any, mixed};
ghost use Rattle.pv_dtd.specs.Plain.{model_of};
ghost use Rattle.pv_rules.specs.Numbering.{first_part};
ghost use Rattle.pv_rules.specs.Sites.{content_site};
ghost use Rattle.pv_table_check.specs.Tested.{AreDeclared, IsClosedIn, CanBeTested, dtd_in};

use crate::forms::{each_member_holds, members_hold, nothing_holds, one_holds};
use crate::tested::Tested;
use crate::texts::text_holds;
use pv_model::NameId;
use pv_rules::{ContentKind, Site};
use pv_tables::Entry;
use pv_tables::laws::listed_or_not_law;

/// Texts, and elements of the names that are listed as the parts from `first` up to `end`.
fn mixed_closed(tested: &Tested<'_>, id: NameId, first: u32, end: u32) -> bool
    requires sound { CanBeTested tested.now }
    requires mixed { (ys : List ℕ) × (model_of (dtd_in tested.now) id.0 ≡ Some (mixed ys)) ×
        (first ≡ first_part (dtd_in tested.now) id.0) ×
        (end ≡ first_part (dtd_in tested.now) id.0 + length ys) }
    ensures { IsTrue result ↔ IsClosedIn tested.now (content_site id.0) }
{
    listed_or_not_law();
    let own = Site::Content(id);
    if !nothing_holds(tested.entries, own, tested.word.len() as u32) {
        return false;
    }
    if !text_holds(tested.entries, tested.word, id) {
        return false;
    }
    each_member_holds(tested, own, Site::Part(first), Site::Part(end))
}

/// Texts, and elements of any declared name; these are entries of the declared names.
fn any_closed(tested: &Tested<'_>, declared: &[Entry], id: NameId) -> bool
    requires sound { CanBeTested tested.now }
    requires declared { AreDeclared tested.now declared.now }
    requires any { model_of (dtd_in tested.now) id.0 ≡ Some any }
    ensures { IsTrue result ↔ IsClosedIn tested.now (content_site id.0) }
{
    listed_or_not_law();
    let own = Site::Content(id);
    if !nothing_holds(tested.entries, own, tested.word.len() as u32) {
        return false;
    }
    if !text_holds(tested.entries, tested.word, id) {
        return false;
    }
    let end = Site::Name(NameId(tested.dtd.count()));
    members_hold(tested, own, Site::Name(NameId(0)), end, declared)
}

/// Whether a table is closed at the content of a name; these are entries of the declared names, as
/// few as tell what is asked of them.
pub fn content_closed(tested: &Tested<'_>, declared: &[Entry], name: u32) -> bool
    requires sound { CanBeTested tested.now }
    requires declared { AreDeclared tested.now declared.now }
    ensures { IsTrue result ↔ IsClosedIn tested.now (content_site name) }
{
    listed_or_not_law();
    let Some(content) = tested.flat.content(name) else {
        return true;
    };
    let id = NameId(name);
    let own = Site::Content(id);
    match content.kind {
        ContentKind::Empty => nothing_holds(tested.entries, own, tested.word.len() as u32),
        ContentKind::Any => any_closed(tested, declared, id),
        ContentKind::Mixed => mixed_closed(tested, id, content.first, content.end),
        ContentKind::Children => one_holds(tested.entries, own, Site::Part(content.first), 0),
    }
}
