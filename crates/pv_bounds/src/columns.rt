//! Whether columns cost no more than their rules lead to that cut no span.

ghost use Rattle.std.specs.Prelude.{◌≡◌, ◌≤◌, ◌<◌, ◌-◌, ℕ, IsTrue, Some, length, map, slice_get};
ghost use Rattle.std.specs.Prelude.{slice_index_or, suc};
ghost use Rattle.pv_model.specs.Plain.{named};
ghost use Rattle.pv_model.specs.PlainForms.{plain_token};
ghost use Rattle.pv_layout.specs.ColumnRules.{IsOneOf};
ghost use Rattle.pv_layout.specs.Columns.{no_column};
ghost use Rattle.pv_layout.specs.FormForms.{plain_all, plain_form};
ghost use Rattle.pv_layout.specs.Forms.{form_at, of_star, of_two};
ghost use Rattle.pv_bounds.specs.Fronts.{cost_from, empty_cost};
ghost use Rattle.pv_bounds.specs.HoldingForms.{ColumnHolds, CostsNoMore, TextsHold};

use crate::claim::Claim;
use crate::covers::covers;
use crate::fronts::Fronts;
use pv_layout::Form;
use pv_model::{NameId, is_element_over, is_text_at};

// Whether a column costs no more than another over the same tokens, and so much.
fn costs_no_more(claim: &Claim<'_>, column: u32, other: u32, extra: u32, place: u32) -> bool
    ensures { IsTrue result → CostsNoMore (map plain_token claim.now.word.now)
        (empty_cost claim.now.fronts.now.empty.items) (cost_from claim.now.fronts.now)
        column place extra other }
{
    let here = claim.fronts.at(column, place);
    covers(&here, &claim.fronts.at(other, place), extra)
}

// Whether the column of an element costs nothing where the element is there.
fn kept_holds(claim: &Claim<'_>, column: u32, id: NameId, place: u32) -> bool
    requires { place < claim.now.tokens }
    ensures { IsTrue result →
        slice_get (map plain_token claim.now.word.now) place ≡ Some (named id.0) →
        cost_from claim.now.fronts.now column place (suc place) ≡ 0 }
{
    !is_element_over(claim.word, id, place, place + 1)
        || claim.fronts.cost(column, place, place + 1) == 0
}

// Whether a member has the class of the one before it, and so its reaches.
fn is_as_before(fronts: &Fronts, members: &[u32], index: usize) -> bool
    requires { index < length members.now }
    ensures { IsTrue result → (0 < index) × ((i j : ℕ) →
        cost_from fronts.now (slice_index_or members.now index 0) i j ≡
        cost_from fronts.now (slice_index_or members.now (index - 1) 0) i j) }
{
    index > 0 && fronts.class_of(members[index]) == fronts.class_of(members[index - 1])
}

// Whether a column costs no more at a place than each of some columns.
fn members_hold(claim: &Claim<'_>, column: u32, members: &[u32], place: u32) -> bool
    ensures { IsTrue result → (d : ℕ) → IsOneOf d members.now →
        CostsNoMore (map plain_token claim.now.word.now)
        (empty_cost claim.now.fronts.now.empty.items) (cost_from claim.now.fronts.now)
        column place 0 d }
{
    let here = claim.fronts.at(column, place);
    for index in 0..members.len() {
        if !is_as_before(claim.fronts, members, index)
            && !covers(&here, &claim.fronts.at(members[index], place), 0)
        {
            return false;
        }
    }
    true
}

// Whether a column among which texts stand costs no more than itself after a text.
fn texts_hold(claim: &Claim<'_>, column: u32, place: u32) -> bool
    requires { place < claim.now.tokens }
    ensures { IsTrue result → TextsHold (map plain_token claim.now.word.now)
        (empty_cost claim.now.fronts.now.empty.items) (cost_from claim.now.fronts.now)
        column place }
{
    if !is_text_at(claim.word, place) {
        return true;
    }
    let here = claim.fronts.at(column, place);
    let behind = claim.fronts.at(column, place + 1);
    claim.fronts.cost(column, place, place + 1) <= claim.fronts.empty_at(column)
        && covers(&here, &behind, 0)
}

// A column with any number of another, and texts where they may stand there.
fn star_holds(claim: &Claim<'_>, column: u32, one: u32, texts: bool, place: u32) -> bool
    requires { place < claim.now.tokens }
    ensures { IsTrue result → ColumnHolds (map plain_token claim.now.word.now)
        (empty_cost claim.now.fronts.now.empty.items) (cost_from claim.now.fronts.now)
        column place (of_star one texts) }
{
    (!texts || texts_hold(claim, column, place))
        && costs_no_more(claim, column, one, claim.fronts.empty_at(column), place)
}

// A column with one, and another after it.
fn two_hold(claim: &Claim<'_>, column: u32, one: u32, two: u32, place: u32) -> bool
    ensures { IsTrue result → ColumnHolds (map plain_token claim.now.word.now)
        (empty_cost claim.now.fronts.now.empty.items) (cost_from claim.now.fronts.now)
        column place (of_two one two) }
{
    costs_no_more(claim, column, one, claim.fronts.empty_at(two), place)
        && costs_no_more(claim, column, two, claim.fronts.empty_at(one), place)
}

// A column, in which this stands.
fn column_holds(claim: &Claim<'_>, form: &Form, column: u32, place: u32) -> bool
    requires { place < claim.now.tokens }
    ensures { IsTrue result → ColumnHolds (map plain_token claim.now.word.now)
        (empty_cost claim.now.fronts.now.empty.items) (cost_from claim.now.fronts.now)
        column place (plain_form form.now) }
{
    match form {
        Form::Never => true,
        Form::Element(id, content) => {
            kept_holds(claim, column, *id, place)
                && costs_no_more(claim, column, *content, 1, place)
        }
        Form::Nothing => true,
        Form::OneOf(members) => members_hold(claim, column, members, place),
        Form::Opt(one) => costs_no_more(claim, column, *one, 0, place),
        Form::Star(one, texts) => star_holds(claim, column, *one, *texts, place),
        Form::Plus(one) => costs_no_more(claim, column, *one, 0, place),
        Form::Then(one, two) => two_hold(claim, column, *one, *two, place),
    }
}

// Whether all columns, in which these stand, cost no more at a place.
fn columns_hold(claim: &Claim<'_>, forms: &[Form], place: u32) -> bool
    requires few { length forms.now ≤ no_column }
    requires within { place < claim.now.tokens }
    ensures { IsTrue result → (c : ℕ) → c < length forms.now →
        ColumnHolds (map plain_token claim.now.word.now)
        (empty_cost claim.now.fronts.now.empty.items) (cost_from claim.now.fronts.now)
        c place (form_at (plain_all forms.now) c) }
{
    for number in 0..forms.len() {
        if !column_holds(claim, &forms[number], number as u32, place) {
            return false;
        }
    }
    true
}

/// Whether all columns, in which these stand, cost no more than their rules lead to that cut no
/// span, over the tokens from all places.
pub fn places_hold(claim: &Claim<'_>, forms: &[Form]) -> bool
    requires { length forms.now ≤ no_column }
    ensures { IsTrue result → (c i : ℕ) → c < length forms.now → i < claim.now.tokens →
        ColumnHolds (map plain_token claim.now.word.now)
        (empty_cost claim.now.fronts.now.empty.items) (cost_from claim.now.fronts.now)
        c i (form_at (plain_all forms.now) c) }
{
    for place in 0..claim.tokens {
        if !columns_hold(claim, forms, place) {
            return false;
        }
    }
    true
}
