//! Lowering the values over the span at hand in the order of their size, so that nearly each is
//! found once (Knuth, "A generalization of Dijkstra's algorithm", 1977): first what is told within
//! the span, then from each value, the least first, those of the columns that mention its column.
//! A column whose value fell waits until these are lowered, so where none waits the rules lower
//! nothing.

ghost use Rattle.std.specs.Prelude.{◌≡◌, ◌<◌, ◌^◌, ◌⊎◌, ℕ, IfOk, IsTrue, List, OnOk, length, map};
ghost use Rattle.pv_model.specs.PlainForms.{plain_token};
ghost use Rattle.pv_productive.specs.Tables.{no_size, size_at};
ghost use Rattle.pv_span.specs.Charts.{AreSettled, value_of};
ghost use Rattle.pv_layout.specs.ColumnRules.{IsOneOf, cell};
ghost use Rattle.pv_layout.specs.FormForms.{plain_all, plain_form};
ghost use Rattle.pv_layout.specs.Forms.{of_one};
ghost use Rattle.pv_span.specs.Least.{IsLeastAt, IsSumFrom};
ghost use Rattle.pv_layout.specs.Mentions.{AreTold};
ghost use Rattle.pv_span.specs.PlainForms.{DiffersInRow, IsAttainedSoFar, plain_chart};
ghost use Rattle.pv_span.specs.Waits.{AllWait, AreHeld, HaveFallen, IsHeld, IsHeldFrom};
ghost use Rattle.pv_span.specs.Waits.{IsLoweredTo, IsToldByOthers, Waits};

use crate::charts::Chart;
use crate::ends::sum_at_ends;
use crate::least::least_of;
use crate::lowering::{cut, settle};
use crate::values::{lower, value_at};
use crate::waiting::Waiting;
use pv_chars::NoMemory;
use pv_layout::{Form, Mentions, mentioned};
use pv_model::{Token, is_element_over};

/// Lowers the value of a column where the rules give less, and tells whether they do.
#[inline(always)]
fn lower_one(forms: &[Form], word: &[Token], number: u32, chart: &mut Chart) -> bool
    requires attained { IsAttainedSoFar (plain_all forms.now) (map plain_token word.now) chart.old }
    requires number { number < length forms.now }
    ensures attained { IsAttainedSoFar (plain_all forms.now) (map plain_token word.now) chart.new }
    ensures same { DiffersInRow chart.old chart.new }
    ensures lowered { IsLoweredTo (IsLeastAt (plain_all forms.now) (map plain_token word.now)
        (value_of (plain_chart chart.old)) (cell number chart.old.from chart.old.to))
        chart.old.row.items chart.new.row.items number result }
{
    let least = cut(least_of(forms, word, chart, number));
    lower(&mut chart.row, number as usize, least)
}

/// Whether one of other columns stands in a column: its value is told by theirs alone.
fn is_one_of(form: &Form) -> bool
    ensures { IsTrue result → (ds : List ℕ) × (plain_form form.now ≡ of_one ds) }
{
    match form {
        Form::OneOf(_) => true,
        Form::Never => false,
        Form::Element(_, _) => false,
        Form::Nothing => false,
        Form::Opt(_) => false,
        Form::Star(_, _) => false,
        Form::Plus(_) => false,
        Form::Then(_, _) => false,
    }
}

/// Whether each rule of a column goes over to one other column over the span at hand.
fn is_told_by_others(form: &Form, word: &[Token], chart: &Chart) -> bool
    requires { chart.now.tokens ≡ length word.now }
    ensures { IsTrue result → IsToldByOthers (map plain_token word.now) chart.now.from chart.now.to
        (plain_form form.now) }
{
    match form {
        Form::Never => true,
        Form::Element(id, _) => !is_element_over(word, *id, chart.from, chart.to),
        Form::Nothing => chart.from < chart.to,
        Form::OneOf(_) => true,
        Form::Opt(_) => chart.from < chart.to,
        Form::Star(_, _) => false,
        Form::Plus(_) => false,
        Form::Then(_, _) => false,
    }
}

/// Lowers the value of a column but one that is told by others, and has it wait where it fell.
fn lower_first(
    forms: &[Form],
    word: &[Token],
    number: u32,
    waiting: &mut Waiting,
    chart: &mut Chart,
) -> Result<(), NoMemory>
    requires attained { IsAttainedSoFar (plain_all forms.now) (map plain_token word.now) chart.old }
    requires number { number < length forms.now }
    requires long { length waiting.old.flags.items ≡ length forms.now }
    requires wait { AllWait waiting.old chart.old.row.items }
    ensures attained { IsAttainedSoFar (plain_all forms.now) (map plain_token word.now) chart.new }
    ensures same { DiffersInRow chart.old chart.new }
    ensures fallen { HaveFallen waiting.old waiting.new chart.old.row.items chart.new.row.items }
    ensures held { IsHeld (plain_all forms.now) (map plain_token word.now) chart.old.from
        chart.old.to (Waits waiting.new) (plain_chart chart.new) number }
{
    if is_told_by_others(&forms[number as usize], word, chart) {
        return Ok(());
    }
    if !lower_one(forms, word, number, chart) {
        return Ok(());
    }
    let value = value_at(&chart.row, number as usize);
    waiting.push(number, value)
}

/// Lowers the values of all columns but those that are told by others, each once, and has them wait
/// where they fell.
fn begin(
    forms: &[Form],
    word: &[Token],
    waiting: &mut Waiting,
    chart: &mut Chart,
) -> Result<(), NoMemory>
    requires attained { IsAttainedSoFar (plain_all forms.now) (map plain_token word.now) chart.old }
    requires few { length forms.now < 2 ^ 32 }
    requires long { length waiting.old.flags.items ≡ length forms.now }
    requires blank { (s : ℕ) → size_at chart.old.row.items s ≡ no_size }
    ensures attained { IsAttainedSoFar (plain_all forms.now) (map plain_token word.now) chart.new }
    ensures same { DiffersInRow chart.old chart.new }
    ensures long { length waiting.new.flags.items ≡ length waiting.old.flags.items }
    ensures held { OnOk result (AreHeld (plain_all forms.now) (map plain_token word.now)
        chart.old.from chart.old.to (Waits waiting.new) (plain_chart chart.new)) }
{
    for number in 0..forms.len() {
        lower_first(forms, word, number as u32, waiting, chart)?;
    }
    Ok(())
}

/// A column from whose value those that mention it are lowered; the one at hand has this number
/// among these.
#[derive(Clone, Copy)]
struct Source<'a> {
    mentions: &'a Mentions,
    column: u32,
    value: u32,
    number: usize,
}

/// Whether a column is one of those of which one stands in a column, and stands at this place.
fn is_member_at(form: &Form, place: usize, column: u32) -> bool
    ensures { IsTrue result →
        (ds : List ℕ) × (plain_form form.now ≡ of_one ds) × IsOneOf column ds }
{
    if !is_one_of(form) {
        return false;
    }
    match mentioned(form, place) {
        Some(member) => member == column,
        None => false,
    }
}

/// What the rules of a column give by values over the whole span that aren't less than that of the
/// source: where this is one of those of which one stands in the column, its value.
#[inline(always)]
fn sum_from(forms: &[Form], word: &[Token], number: u32, source: &Source<'_>, chart: &Chart) -> u64
    requires long { chart.now.tokens ≡ length word.now }
    requires number { number < length forms.now }
    ensures { IsSumFrom (plain_all forms.now) (map plain_token word.now)
        (value_of (plain_chart chart.now)) (cell number chart.now.from chart.now.to)
        source.now.value result }
{
    let place = source.mentions.place_in(source.column, source.number);
    if chart.here(source.column) == source.value
        && is_member_at(&forms[number as usize], place, source.column)
    {
        return u64::from(source.value);
    }
    sum_at_ends(forms, word, chart, number)
}

/// Lowers the value of a column where these values give less, and tells whether they do.
#[inline(always)]
fn lower_from(
    forms: &[Form],
    word: &[Token],
    number: u32,
    source: &Source<'_>,
    chart: &mut Chart,
) -> bool
    requires attained { IsAttainedSoFar (plain_all forms.now) (map plain_token word.now) chart.old }
    requires number { number < length forms.now }
    ensures attained { IsAttainedSoFar (plain_all forms.now) (map plain_token word.now) chart.new }
    ensures same { DiffersInRow chart.old chart.new }
    ensures lowered { IsLoweredTo (IsSumFrom (plain_all forms.now) (map plain_token word.now)
        (value_of (plain_chart chart.old)) (cell number chart.old.from chart.old.to)
        source.now.value) chart.old.row.items chart.new.row.items number result }
{
    let sum = cut(sum_from(forms, word, number, source, chart));
    lower(&mut chart.row, number as usize, sum)
}

/// Lowers the value of a column where it is more than the source's and these values give less; the
/// column waits where it fell.
#[inline(always)]
fn lower_next(
    forms: &[Form],
    word: &[Token],
    number: u32,
    source: &Source<'_>,
    waiting: &mut Waiting,
    chart: &mut Chart,
) -> Result<(), NoMemory>
    requires attained { IsAttainedSoFar (plain_all forms.now) (map plain_token word.now) chart.old }
    requires long { length waiting.old.flags.items ≡ length forms.now }
    ensures attained { IsAttainedSoFar (plain_all forms.now) (map plain_token word.now) chart.new }
    ensures same { DiffersInRow chart.old chart.new }
    ensures fallen { HaveFallen waiting.old waiting.new chart.old.row.items chart.new.row.items }
    ensures held { IsHeldFrom (plain_all forms.now) (map plain_token word.now) chart.old.from
        chart.old.to (Waits waiting.new) (plain_chart chart.old) (plain_chart chart.new) number
        source.now.value }
{
    if number as usize >= forms.len() {
        return Ok(());
    }
    if value_at(&chart.row, number as usize) <= source.value {
        return Ok(());
    }
    if !lower_from(forms, word, number, source, chart) {
        return Ok(());
    }
    let fallen = value_at(&chart.row, number as usize);
    waiting.push(number, fallen)
}

/// Lowers the values of the columns that mention this one, where they are more than its own.
fn lower_above(
    forms: &[Form],
    mentions: &Mentions,
    word: &[Token],
    column: u32,
    waiting: &mut Waiting,
    chart: &mut Chart,
) -> Result<(), NoMemory>
    requires attained { IsAttainedSoFar (plain_all forms.now) (map plain_token word.now) chart.old }
    requires long { length waiting.old.flags.items ≡ length forms.now }
    requires column { column < length forms.now }
    requires some { 0 < length mentions.now.above.items }
    requires told { ∥ AreTold (plain_all forms.now) mentions.now ∥₁ }
    requires held { AreHeld (plain_all forms.now) (map plain_token word.now) chart.old.from
        chart.old.to (λ d. (column ≡ d) ⊎ Waits waiting.old d) (plain_chart chart.old) }
    ensures attained { IsAttainedSoFar (plain_all forms.now) (map plain_token word.now) chart.new }
    ensures same { DiffersInRow chart.old chart.new }
    ensures long { length waiting.new.flags.items ≡ length waiting.old.flags.items }
    ensures held { OnOk result (AreHeld (plain_all forms.now) (map plain_token word.now)
        chart.old.from chart.old.to (Waits waiting.new) (plain_chart chart.new)) }
{
    let value = value_at(&chart.row, column as usize);
    let above = mentions.above(column);
    for number in 0..above.len() {
        let source = Source {
            mentions,
            column,
            value,
            number,
        };
        lower_next(forms, word, above[number], &source, waiting, chart)?;
    }
    Ok(())
}

/// Lowers the values of the columns that mention the one of the least value of those that wait, and
/// tells whether there is one.
fn spread_next(
    forms: &[Form],
    mentions: &Mentions,
    word: &[Token],
    waiting: &mut Waiting,
    chart: &mut Chart,
) -> Result<bool, NoMemory>
    requires attained { IsAttainedSoFar (plain_all forms.now) (map plain_token word.now) chart.old }
    requires long { length waiting.old.flags.items ≡ length forms.now }
    requires some { 0 < length mentions.now.above.items }
    requires told { ∥ AreTold (plain_all forms.now) mentions.now ∥₁ }
    requires held { AreHeld (plain_all forms.now) (map plain_token word.now) chart.old.from
        chart.old.to (Waits waiting.old) (plain_chart chart.old) }
    ensures attained { IsAttainedSoFar (plain_all forms.now) (map plain_token word.now) chart.new }
    ensures same { DiffersInRow chart.old chart.new }
    ensures long { length waiting.new.flags.items ≡ length waiting.old.flags.items }
    ensures held { IfOk result (λ _. AreHeld (plain_all forms.now) (map plain_token word.now)
        chart.old.from chart.old.to (Waits waiting.new) (plain_chart chart.new)) }
{
    let Some(column) = waiting.next(&chart.row) else {
        return Ok(false);
    };
    lower_above(forms, mentions, word, column, waiting, chart)?;
    Ok(true)
}

/// Lowers the values over the span at hand, as far as mentions are laid out, and tells whether the
/// rules lower none any more.
fn spread(
    forms: &[Form],
    mentions: &Mentions,
    word: &[Token],
    waiting: &mut Waiting,
    chart: &mut Chart,
) -> Result<bool, NoMemory>
    requires attained { IsAttainedSoFar (plain_all forms.now) (map plain_token word.now) chart.old }
    requires few { length forms.now < 2 ^ 32 }
    requires long { length waiting.old.flags.items ≡ length forms.now }
    requires told { ∥ AreTold (plain_all forms.now) mentions.now ∥₁ }
    requires blank { (s : ℕ) → size_at chart.old.row.items s ≡ no_size }
    ensures attained { IsAttainedSoFar (plain_all forms.now) (map plain_token word.now) chart.new }
    ensures same { DiffersInRow chart.old chart.new }
    ensures long { length waiting.new.flags.items ≡ length waiting.old.flags.items }
    ensures settled { IfOk result (λ b. IsTrue b → AreSettled (plain_all forms.now)
        (map plain_token word.now) chart.old.from chart.old.to (length forms.now)
        (plain_chart chart.new)) }
{
    if mentions.is_empty() {
        return Ok(false);
    }
    waiting.clear();
    begin(forms, word, waiting, chart)?;
    // A column is taken at most once: its value doesn't fall after that.
    for _ in 0..forms.len() {
        if !spread_next(forms, mentions, word, waiting, chart)? {
            break;
        }
    }
    Ok(waiting.is_empty())
}

/// Lowers the values over the span at hand until the rules lower none. So many columns, the first
/// ones, are of names.
pub fn fill_span(
    forms: &[Form],
    mentions: &Mentions,
    names: u32,
    word: &[Token],
    waiting: &mut Waiting,
    chart: &mut Chart,
) -> Result<(), NoMemory>
    requires attained { IsAttainedSoFar (plain_all forms.now) (map plain_token word.now) chart.old }
    requires few { length forms.now < 2 ^ 32 }
    requires long { length waiting.old.flags.items ≡ length forms.now }
    requires told { ∥ AreTold (plain_all forms.now) mentions.now ∥₁ }
    requires blank { (s : ℕ) → size_at chart.old.row.items s ≡ no_size }
    ensures attained { IsAttainedSoFar (plain_all forms.now) (map plain_token word.now) chart.new }
    ensures same { DiffersInRow chart.old chart.new }
    ensures long { length waiting.new.flags.items ≡ length waiting.old.flags.items }
    ensures settled { OnOk result (AreSettled (plain_all forms.now) (map plain_token word.now)
        chart.new.from chart.new.to (length forms.now) (plain_chart chart.new)) }
{
    if spread(forms, mentions, word, waiting, chart)? {
        return Ok(());
    }
    settle(forms, names, word, chart);
    Ok(())
}
