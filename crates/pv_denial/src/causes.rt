//! Why a list is impossible.

ghost use Rattle.std.specs.Prelude.{◌≡◌, ◌<◌, ◌↔◌, IfSome, IsTrue, List, Some, ℕ, length};
ghost use Rattle.std.specs.Option.{option_map};
ghost use Rattle.pv_model.specs.Plain.{empty};
ghost use Rattle.pv_dtd.specs.Plain.{model_of, number_of};
ghost use Rattle.pv_model.specs.declared.models.NameId.{NameId as PlainId};
ghost use Rattle.pv_productive.specs.PlainForms.{dtd_of};
ghost use Rattle.pv_tree.specs.Lists.{Listed};
ghost use Rattle.pv_tree.specs.declared.nodes.Mark.{Mark as PlainMark};
ghost use Rattle.pv_denial.specs.Causes.{HasKidsInEmpty, HoldsOfList, IsCause, IsUnproductive};
ghost use Rattle.pv_denial.specs.Places.{IsPlaceOf};
ghost use Rattle.pv_denial.specs.declared.denials.Cause.TheVariants as cause;

use crate::denials::Cause;
use crate::places::OwnedList;
use pv_model::{ContentModel, NameId};
use pv_productive::Grammar;

/// The number of the name of the list's owner, where the DTD has it.
fn owner_id(grammar: &Grammar, place: &OwnedList<'_>) -> Option<NameId>
    ensures named { option_map (λ (id : PlainId). id.0) result ≡
        number_of (dtd_of grammar.now) place.now.name.now }
    ensures known { IfSome result (λ id. id.0 < length (dtd_of grammar.now).names) }
{
    grammar.dtd().name_id(place.name)
}

/// Whether a name is declared EMPTY.
fn is_empty(grammar: &Grammar, id: NameId) -> bool
    requires { id.0 < length (dtd_of grammar.now).names }
    ensures { IsTrue result ↔ (model_of (dtd_of grammar.now) id.0 ≡ Some empty) }
{
    match grammar.dtd().model_of(id) {
        Some(ContentModel::Empty) => true,
        Some(_) => false,
        None => false,
    }
}

/// Whether the owner of the list has a name of the DTD that isn't productive.
fn is_unproductive(grammar: &Grammar, place: &OwnedList<'_>) -> bool
    ensures { (root : List ℕ) (list : Listed PlainMark) → IsPlaceOf root list place.now →
        IsTrue result ↔ IsUnproductive (dtd_of grammar.now) root list.owner }
{
    match owner_id(grammar, place) {
        Some(id) => !grammar.is_productive(id),
        None => false,
    }
}

/// Whether the list has kids in an element that is declared EMPTY.
fn has_kids_in_empty(grammar: &Grammar, place: &OwnedList<'_>) -> bool
    ensures { (root : List ℕ) (list : Listed PlainMark) → IsPlaceOf root list place.now →
        IsTrue result ↔ HasKidsInEmpty (dtd_of grammar.now) list.owner list.kids }
{
    if place.of_document {
        return false;
    }
    if place.kids.is_empty() {
        return false;
    }
    match owner_id(grammar, place) {
        Some(id) => is_empty(grammar, id),
        None => false,
    }
}

/// Whether the DTD has the name of the list's owner.
fn has_name(grammar: &Grammar, place: &OwnedList<'_>) -> bool
    ensures { (root : List ℕ) (list : Listed PlainMark) → IsPlaceOf root list place.now →
        IsTrue result ↔ HoldsOfList (dtd_of grammar.now) root list cause.Word }
{
    match owner_id(grammar, place) {
        Some(_id) => true,
        None => false,
    }
}

/// Whether a cause holds of the list at a place; that of the word, where the DTD has the owner's
/// name.
pub fn holds(grammar: &Grammar, place: &OwnedList<'_>, cause: Cause) -> bool
    ensures { (root : List ℕ) (list : Listed PlainMark) → IsPlaceOf root list place.now →
        IsTrue result ↔ HoldsOfList (dtd_of grammar.now) root list cause }
{
    match cause {
        Cause::Undeclared => grammar.dtd().name_id(place.name).is_none(),
        Cause::Unproductive => is_unproductive(grammar, place),
        Cause::Empty => has_kids_in_empty(grammar, place),
        Cause::Word => has_name(grammar, place),
    }
}

/// The first cause that fits an impossible list.
pub fn cause_of(grammar: &Grammar, place: &OwnedList<'_>) -> Cause
    ensures { (root : List ℕ) (list : Listed PlainMark) → IsPlaceOf root list place.now →
        IsCause (dtd_of grammar.now) root list result }
{
    if holds(grammar, place, Cause::Undeclared) {
        Cause::Undeclared
    } else if is_unproductive(grammar, place) {
        Cause::Unproductive
    } else if has_kids_in_empty(grammar, place) {
        Cause::Empty
    } else {
        Cause::Word
    }
}
