//! The item at the front, where it is in no fault.

ghost use Rattle.std.specs.Prelude.{◌≡◌, ◌≢◌, ◌<◌, ◌↔◌, length, IsTrue, IfOk, IfErr};
ghost use Rattle.pv_tree.specs.declared.nodes.Mark.{Mark};
ghost use Rattle.pv_tree.specs.Marks.{blank_mark};
ghost use Rattle.pv_read.specs.Left.{Left};
ghost use Rattle.pv_read.specs.Limits.{IsDeepest};
ghost use Rattle.pv_read.specs.Kinds.{BeginsSubset, opens_element};
ghost use Rattle.pv_read.specs.Meaning.{DocumentRestMeans};
ghost use Rattle.pv_read.specs.Errors.{Refuses};
ghost use Rattle.pv_read.specs.PlainItems.{plain_item};
ghost use Rattle.pv_read.specs.PlainPlaces.{plain_place};
ghost use Rattle.pv_read.specs.Places.{AsksForItem, place_reached, takes_doctype_at, open_at};
ghost use Rattle.pv_read.specs.Steps.{TakesItem};

use crate::errors::DocError;
use crate::forms::{Item, begins_subset, has_known_references, item_at};
use crate::places::{Place, is_other_doctype, opens_element};

// Whether a document type declaration with an internal subset stands where one may stand.
fn has_subset(place: &Place<'_>, rest: &[u8]) -> bool
    ensures { IsTrue result
        ↔ (IsTrue (takes_doctype_at (plain_place place.now)) × BeginsSubset rest.now) }
{
    place.takes_doctype() && begins_subset(rest)
}

// Whether no element may stand inside so many.
fn is_deepest(most_depth: Option<usize>, open_elements: usize) -> bool
    ensures { IsTrue result ↔ IsDeepest most_depth open_elements }
{
    match most_depth {
        Some(most) => most <= open_elements,
        None => false,
    }
}

// Whether the item opens an element inside as many as may be open.
fn is_too_deep(most_depth: Option<usize>, place: &Place<'_>, item: &Item<'_>) -> bool
    ensures { IsTrue result ↔ (IsTrue (opens_element (plain_item item.now))
        × IsDeepest most_depth (open_at (plain_place place.now))) }
{
    opens_element(item) && is_deepest(most_depth, place.open_elements())
}

/// The item at the front and what stands after it, or the first kind of fault there, after so
/// many items at this place, where an item is to stand. Elements stand at most so deep, or at any
/// depth.
pub fn next_item<'a>(
    most_depth: Option<usize>,
    place: &Place<'_>,
    root: &[u8],
    rest: &'a [u8],
    count: u64,
) -> Result<(Item<'a>, &'a [u8]), DocError>
    requires { AsksForItem (plain_place place.now) rest.now }
    ensures taken { IfOk result (λ r. (left : Left Mark) →
        place_reached left ≡ plain_place place.now →
        TakesItem most_depth blank_mark root.now left rest.now (plain_item r.0) r.1.now) }
    ensures refused { IfErr result (λ e. (left : Left Mark) →
        place_reached left ≡ plain_place place.now →
        Refuses (DocumentRestMeans most_depth blank_mark root.now count left rest.now) e) }
    ensures no_want { IfErr result (λ e. e ≢ DocError.NoMemory) }
    ensures within { IfOk result (λ r. length r.1.now < length rest.now) }
{
    if has_subset(place, rest) {
        return Err(DocError::Subset);
    }
    let Some((item, more)) = item_at(rest) else {
        return Err(DocError::Syntax(count));
    };
    if !place.may_hold(&item) {
        return Err(DocError::Syntax(count));
    }
    if !has_known_references(&item) {
        return Err(DocError::Entity(count));
    }
    if place.is_mismatch(&item) {
        return Err(DocError::Mismatch(count));
    }
    if is_other_doctype(root, &item) {
        return Err(DocError::DoctypeName);
    }
    if is_too_deep(most_depth, place, &item) {
        return Err(DocError::Deep(count));
    }
    Ok((item, more))
}
