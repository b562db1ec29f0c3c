//! Whether columns cost no more than their rules lead to over no tokens.

ghost use Rattle.std.specs.Prelude.{◌≡◌, ◌≤◌, ◌<◌, ℕ, IsTrue, length};
ghost use Rattle.pv_layout.specs.ColumnRules.{IsOneOf};
ghost use Rattle.pv_layout.specs.Columns.{no_column};
ghost use Rattle.pv_layout.specs.FormForms.{plain_all, plain_form};
ghost use Rattle.pv_layout.specs.Forms.{form_at};
ghost use Rattle.pv_bounds.specs.Fronts.{empty_cost};
ghost use Rattle.pv_bounds.specs.HoldingForms.{EmptyHolds};

use crate::fronts::Fronts;
use pv_layout::Form;

// Whether each of some columns costs no less.
fn members_cost(fronts: &Fronts, cost: u32, members: &[u32]) -> bool
    ensures { IsTrue result → (d : ℕ) → IsOneOf d members.now →
        cost ≤ empty_cost fronts.now.empty.items d }
{
    for index in 0..members.len() {
        if fronts.empty_at(members[index]) < cost {
            return false;
        }
    }
    true
}

// One column, in which this stands.
fn empty_holds(fronts: &Fronts, form: &Form, column: u32) -> bool
    ensures { IsTrue result → EmptyHolds (empty_cost fronts.now.empty.items) column
        (plain_form form.now) }
{
    let cost = fronts.empty_at(column);
    match form {
        Form::Never => true,
        Form::Element(_, content) => cost <= 1 + fronts.empty_at(*content),
        Form::Nothing => cost == 0,
        Form::OneOf(members) => members_cost(fronts, cost, members),
        Form::Opt(_) => cost == 0,
        Form::Star(_, _) => cost == 0,
        Form::Plus(one) => cost <= fronts.empty_at(*one),
        Form::Then(one, two) => cost <= fronts.empty_at(*one) + fronts.empty_at(*two),
    }
}

/// Whether all columns cost no more than their rules lead to over no tokens.
pub fn empties_hold(fronts: &Fronts, forms: &[Form]) -> bool
    requires { length forms.now ≤ no_column }
    ensures { IsTrue result → (c : ℕ) → c < length forms.now →
        EmptyHolds (empty_cost fronts.now.empty.items) c (form_at (plain_all forms.now) c) }
{
    for number in 0..forms.len() {
        if !empty_holds(fronts, &forms[number], number as u32) {
            return false;
        }
    }
    true
}
