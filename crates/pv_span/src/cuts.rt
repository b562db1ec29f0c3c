//! The least sum of two values where the span at hand is cut between them.

ghost use Rattle.std.specs.Prelude.{◌≤◌, ◌<◌, ◌+◌, ◌≡◌, suc};
ghost use Rattle.pv_productive.specs.Tables.{no_size};
ghost use Rattle.pv_span.specs.Charts.{value_of};
ghost use Rattle.pv_layout.specs.ColumnRules.{cell};
ghost use Rattle.pv_span.specs.Least.{IsLeastCut};
ghost use Rattle.pv_span.specs.PlainForms.{plain_chart};

use crate::charts::Chart;
use pv_productive::NO_SIZE;

/// The sum where the span is cut at a place: `one` before it, `two` after. What has no value
/// before the place isn't looked for after it.
#[inline(always)]
fn sum_at(chart: &Chart, one: u32, two: u32, place: u32) -> u64
    requires { (chart.now.from ≤ place) × (place ≤ chart.now.to) }
    ensures below { result ≤ value_of (plain_chart chart.now) (cell one chart.now.from place)
        + value_of (plain_chart chart.now) (cell two place chart.now.to) }
    ensures attained { result < no_size → result ≡
        value_of (plain_chart chart.now) (cell one chart.now.from place)
        + value_of (plain_chart chart.now) (cell two place chart.now.to) }
{
    let before = chart.at(one, chart.from, place);
    if before >= NO_SIZE {
        return u64::from(NO_SIZE);
    }
    u64::from(before) + u64::from(chart.at(two, place, chart.to))
}

/// The sum where the span is cut at its first place.
#[inline(always)]
pub fn sum_at_first(chart: &Chart, one: u32, two: u32) -> u64
    ensures below { result ≤
        value_of (plain_chart chart.now) (cell one chart.now.from chart.now.from)
        + value_of (plain_chart chart.now) (cell two chart.now.from chart.now.to) }
    ensures attained { result < no_size → result ≡
        value_of (plain_chart chart.now) (cell one chart.now.from chart.now.from)
        + value_of (plain_chart chart.now) (cell two chart.now.from chart.now.to) }
{
    let behind = chart.here(two);
    if behind >= NO_SIZE {
        return u64::from(NO_SIZE);
    }
    u64::from(chart.at(one, chart.from, chart.from)) + u64::from(behind)
}

/// The sum where the span is cut at its last place.
#[inline(always)]
pub fn sum_at_last(chart: &Chart, one: u32, two: u32) -> u64
    ensures below { result ≤
        value_of (plain_chart chart.now) (cell one chart.now.from chart.now.to)
        + value_of (plain_chart chart.now) (cell two chart.now.to chart.now.to) }
    ensures attained { result < no_size → result ≡
        value_of (plain_chart chart.now) (cell one chart.now.from chart.now.to)
        + value_of (plain_chart chart.now) (cell two chart.now.to chart.now.to) }
{
    let before = chart.here(one);
    if before >= NO_SIZE {
        return u64::from(NO_SIZE);
    }
    u64::from(before) + u64::from(chart.at(two, chart.to, chart.to))
}

/// The least sum of the cuts strictly within the span, where each place is looked at.
fn least_of_places(chart: &Chart, one: u32, two: u32) -> u64
    ensures { IsLeastCut (value_of (plain_chart chart.now)) one two chart.now.from chart.now.to
        (suc chart.now.from) chart.now.to result }
{
    let mut least = u64::from(NO_SIZE);
    if chart.from == chart.to {
        return least;
    }
    for place in chart.from + 1..chart.to {
        least = least.min(sum_at(chart, one, two, place));
    }
    least
}

/// The least sum of the cuts strictly within the span; the line of this number tells it, where
/// there is one.
#[inline(always)]
pub fn least_within(chart: &Chart, number: u32, one: u32, two: u32) -> u64
    ensures { IsLeastCut (value_of (plain_chart chart.now)) one two chart.now.from chart.now.to
        (suc chart.now.from) chart.now.to result }
{
    match chart.least_inside(number, one, two) {
        Some(least) => u64::from(least),
        None => least_of_places(chart, one, two),
    }
}

/// The least sum of the cuts after the first place of the span, its last place among them.
#[inline(always)]
pub fn least_behind(chart: &Chart, number: u32, one: u32, two: u32) -> u64
    requires { chart.now.from < chart.now.to }
    ensures { IsLeastCut (value_of (plain_chart chart.now)) one two chart.now.from chart.now.to
        (suc chart.now.from) (suc chart.now.to) result }
{
    let within = least_within(chart, number, one, two);
    within.min(sum_at_last(chart, one, two))
}

/// The least sum of the cuts at all places of the span.
#[inline(always)]
pub fn least_of_all(chart: &Chart, number: u32, one: u32, two: u32) -> u64
    ensures { IsLeastCut (value_of (plain_chart chart.now)) one two chart.now.from chart.now.to
        chart.now.from (suc chart.now.to) result }
{
    let first = sum_at_first(chart, one, two);
    if chart.from == chart.to {
        return first;
    }
    let behind = least_behind(chart, number, one, two);
    behind.min(first)
}
