//! The least value that the rules of a column give it over the span at hand.

ghost use Rattle.std.specs.Prelude.{◌≡◌, ◌≤◌, ◌<◌, List, length, map};
ghost use Rattle.pv_model.specs.Plain.{PlainToken};
ghost use Rattle.pv_model.specs.PlainForms.{plain_token};
ghost use Rattle.pv_productive.specs.Tables.{no_size};
ghost use Rattle.pv_span.specs.Charts.{value_of};
ghost use Rattle.pv_layout.specs.ColumnRules.{cell};
ghost use Rattle.pv_layout.specs.FormForms.{plain_all};
ghost use Rattle.pv_layout.specs.Forms.{PlainForm, form_at, of_element, of_opt, of_plus, of_star};
ghost use Rattle.pv_layout.specs.Forms.{of_two};
ghost use Rattle.pv_span.specs.Least.{IsLeastAt, IsLeastMember, IsTextValue};
ghost use Rattle.pv_span.specs.PlainForms.{plain_chart};

use crate::charts::Chart;
use crate::cuts::{least_behind, least_of_all, least_within};
use pv_layout::Form;
use pv_model::{NameId, Token, is_element_over, is_text_at};
use pv_productive::NO_SIZE;

/// An element of a name: it is there, or it is missing round what a column stands for.
fn least_of_element(word: &[Token], chart: &Chart, number: u32, id: NameId, content: u32) -> u64
    requires long { chart.now.tokens ≡ length word.now }
    ensures { (f : List PlainForm) → form_at f number ≡ of_element id.0 content →
        IsLeastAt f (map plain_token word.now) (value_of (plain_chart chart.now))
        (cell number chart.now.from chart.now.to) result }
{
    if is_element_over(word, id, chart.from, chart.to) {
        0
    } else {
        1 + u64::from(chart.here(content))
    }
}

/// Nothing, over no tokens.
fn least_of_nothing(chart: &Chart) -> u64
    ensures none { chart.now.from ≡ chart.now.to → result ≡ 0 }
    ensures some { chart.now.from < chart.now.to → result ≡ no_size }
{
    if chart.from == chart.to {
        0
    } else {
        u64::from(NO_SIZE)
    }
}

/// One of some columns.
pub fn least_of_members(chart: &Chart, members: &[u32]) -> u64
    ensures { IsLeastMember (value_of (plain_chart chart.now)) members.now chart.now.from
        chart.now.to result }
{
    let mut least = NO_SIZE;
    for index in 0..members.len() {
        least = least.min(chart.here(members[index]));
    }
    u64::from(least)
}

/// One of a column or none: over no tokens none.
fn least_of_opt(chart: &Chart, number: u32, one: u32) -> u64
    ensures { (f : List PlainForm) (w : List PlainToken) → chart.now.to ≤ length w →
        form_at f number ≡ of_opt one → IsLeastAt f w
        (value_of (plain_chart chart.now)) (cell number chart.now.from chart.now.to) result }
{
    if chart.from == chart.to {
        0
    } else {
        u64::from(chart.here(one))
    }
}

/// The value of a column after a text, where texts may stand there.
fn behind_text(word: &[Token], chart: &Chart, number: u32, texts: bool) -> u64
    requires long { chart.now.tokens ≡ length word.now }
    requires some { chart.now.from < chart.now.to }
    ensures { IsTextValue (map plain_token word.now) (value_of (plain_chart chart.now)) number texts
        chart.now.from chart.now.to result }
{
    if texts && is_text_at(word, chart.from) {
        u64::from(chart.at(number, chart.from + 1, chart.to))
    } else {
        u64::from(NO_SIZE)
    }
}

/// Any number of a column, and texts where they may stand there: over no tokens none.
fn least_of_star(word: &[Token], chart: &Chart, number: u32, one: u32, texts: bool) -> u64
    requires long { chart.now.tokens ≡ length word.now }
    ensures { (f : List PlainForm) → form_at f number ≡ of_star one texts →
        IsLeastAt f (map plain_token word.now) (value_of (plain_chart chart.now))
        (cell number chart.now.from chart.now.to) result }
{
    if chart.from == chart.to {
        return 0;
    }
    let text = behind_text(word, chart, number, texts);
    text.min(least_behind(chart, number, one, number))
}

/// One of a column, or more.
fn least_of_plus(chart: &Chart, number: u32, one: u32) -> u64
    ensures { (f : List PlainForm) (w : List PlainToken) → chart.now.to ≤ length w →
        form_at f number ≡ of_plus one → IsLeastAt f w
        (value_of (plain_chart chart.now)) (cell number chart.now.from chart.now.to) result }
{
    let alone = u64::from(chart.here(one));
    alone.min(least_within(chart, number, one, number))
}

/// One column, and another after it.
fn least_of_two(chart: &Chart, number: u32, one: u32, two: u32) -> u64
    ensures { (f : List PlainForm) (w : List PlainToken) → chart.now.to ≤ length w →
        form_at f number ≡ of_two one two → IsLeastAt f w
        (value_of (plain_chart chart.now)) (cell number chart.now.from chart.now.to) result }
{
    least_of_all(chart, number, one, two)
}

/// The least value that the rules of a column give it over the span at hand.
pub fn least_of(forms: &[Form], word: &[Token], chart: &Chart, number: u32) -> u64
    requires long { chart.now.tokens ≡ length word.now }
    requires number { number < length forms.now }
    ensures { IsLeastAt (plain_all forms.now) (map plain_token word.now)
        (value_of (plain_chart chart.now)) (cell number chart.now.from chart.now.to) result }
{
    match &forms[number as usize] {
        Form::Never => u64::from(NO_SIZE),
        Form::Element(id, content) => least_of_element(word, chart, number, *id, *content),
        Form::Nothing => least_of_nothing(chart),
        Form::OneOf(members) => least_of_members(chart, members),
        Form::Opt(one) => least_of_opt(chart, number, *one),
        Form::Star(one, texts) => least_of_star(word, chart, number, *one, *texts),
        Form::Plus(one) => least_of_plus(chart, number, *one),
        Form::Then(one, two) => least_of_two(chart, number, *one, *two),
    }
}
