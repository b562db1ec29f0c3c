//! What the rules of a column give by values over the whole span at hand: of the cuts of the span,
//! by its first and its last one.

ghost use Rattle.std.specs.Prelude.{◌≡◌, ◌≤◌, ◌<◌, Bool, List, length, map};
ghost use Rattle.pv_model.specs.Plain.{PlainToken};
ghost use Rattle.pv_model.specs.PlainForms.{plain_token};
ghost use Rattle.pv_span.specs.Charts.{value_of};
ghost use Rattle.pv_layout.specs.ColumnRules.{cell};
ghost use Rattle.pv_layout.specs.FormForms.{plain_all};
ghost use Rattle.pv_layout.specs.Forms.{PlainForm, form_at, of_element, of_opt, of_plus, of_star};
ghost use Rattle.pv_layout.specs.Forms.{of_two};
ghost use Rattle.pv_span.specs.Least.{IsSumAt};
ghost use Rattle.pv_span.specs.PlainForms.{plain_chart};

use crate::charts::Chart;
use crate::cuts::{sum_at_first, sum_at_last};
use crate::least::least_of_members;
use pv_layout::Form;
use pv_model::{NameId, Token};
use pv_productive::NO_SIZE;

/// A missing element of a name.
#[inline(always)]
fn sum_of_missing(chart: &Chart, number: u32, id: NameId, content: u32) -> u64
    ensures { (f : List PlainForm) (w : List PlainToken) → chart.now.to ≤ length w →
        form_at f number ≡ of_element id.0 content → IsSumAt f w
        (value_of (plain_chart chart.now)) (cell number chart.now.from chart.now.to) result }
{
    1 + u64::from(chart.here(content))
}

/// One of a column.
#[inline(always)]
fn sum_of_one(chart: &Chart, number: u32, one: u32) -> u64
    ensures opt { (f : List PlainForm) (w : List PlainToken) → chart.now.to ≤ length w →
        form_at f number ≡ of_opt one → IsSumAt f w
        (value_of (plain_chart chart.now)) (cell number chart.now.from chart.now.to) result }
    ensures plus { (f : List PlainForm) (w : List PlainToken) → chart.now.to ≤ length w →
        form_at f number ≡ of_plus one → IsSumAt f w
        (value_of (plain_chart chart.now)) (cell number chart.now.from chart.now.to) result }
{
    u64::from(chart.here(one))
}

/// Any number of a column, of which one stands for the whole span.
#[inline(always)]
fn sum_of_star(chart: &Chart, number: u32, one: u32) -> u64
    ensures { (f : List PlainForm) (w : List PlainToken) (b : Bool) → chart.now.to ≤ length w →
        form_at f number ≡ of_star one b → IsSumAt f w
        (value_of (plain_chart chart.now)) (cell number chart.now.from chart.now.to) result }
{
    if chart.from < chart.to {
        sum_at_last(chart, one, number)
    } else {
        u64::from(NO_SIZE)
    }
}

/// Two columns, of which one stands for the whole span.
#[inline(always)]
fn sum_of_two(chart: &Chart, number: u32, one: u32, two: u32) -> u64
    ensures { (f : List PlainForm) (w : List PlainToken) → chart.now.to ≤ length w →
        form_at f number ≡ of_two one two → IsSumAt f w
        (value_of (plain_chart chart.now)) (cell number chart.now.from chart.now.to) result }
{
    sum_at_first(chart, one, two).min(sum_at_last(chart, one, two))
}

/// What the rules of a column give by values over the whole span.
pub fn sum_at_ends(forms: &[Form], word: &[Token], chart: &Chart, number: u32) -> u64
    requires long { chart.now.tokens ≡ length word.now }
    requires number { number < length forms.now }
    ensures { IsSumAt (plain_all forms.now) (map plain_token word.now)
        (value_of (plain_chart chart.now)) (cell number chart.now.from chart.now.to) result }
{
    match &forms[number as usize] {
        Form::Never => u64::from(NO_SIZE),
        Form::Element(id, content) => sum_of_missing(chart, number, *id, *content),
        Form::Nothing => u64::from(NO_SIZE),
        Form::OneOf(members) => least_of_members(chart, members),
        Form::Opt(one) => sum_of_one(chart, number, *one),
        Form::Star(one, _) => sum_of_star(chart, number, *one),
        Form::Plus(one) => sum_of_one(chart, number, *one),
        Form::Then(one, two) => sum_of_two(chart, number, *one, *two),
    }
}
