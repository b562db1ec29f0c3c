//! Lowering the values over the span at hand by the rules, until the rules lower none.

ghost use Rattle.std.specs.Prelude.{◌≡◌, ◌≤◌, ◌<◌, length, map};
ghost use Rattle.pv_model.specs.PlainForms.{plain_token};
ghost use Rattle.pv_productive.specs.Tables.{capped};
ghost use Rattle.pv_span.specs.Charts.{AreSettled, AreSettledFrom, IsAttainedChart, IsSettling};
ghost use Rattle.pv_span.specs.Charts.{IsSettledAt};
ghost use Rattle.pv_layout.specs.ColumnRules.{cell};
ghost use Rattle.pv_layout.specs.FormForms.{plain_all};
ghost use Rattle.pv_span.specs.PlainForms.{DiffersInRow, plain_chart};

use crate::charts::Chart;
use crate::least::least_of;
use crate::values::lower;
use pv_layout::Form;
use pv_model::Token;
use pv_productive::NO_SIZE;
use pv_rules::HEAVIEST;

/// A sum of values, cut.
pub fn cut(sum: u64) -> u32
    ensures { result ≡ capped sum }
{
    if sum < u64::from(HEAVIEST) {
        sum as u32
    } else if sum < u64::from(NO_SIZE) {
        HEAVIEST
    } else {
        NO_SIZE
    }
}

/// Lowers the value of a column where the rules give less, and tells whether they do.
#[inline(always)]
pub fn lower_column(forms: &[Form], word: &[Token], number: u32, chart: &mut Chart) -> bool
    requires attained { IsAttainedChart (plain_all forms.now) (map plain_token word.now)
        chart.old.from
        chart.old.to (plain_chart chart.old) }
    requires number { number < length forms.now }
    ensures settling { IsSettling (plain_all forms.now) (map plain_token word.now) chart.old.from
        chart.old.to (λ t. IsSettledAt (plain_all forms.now) (map plain_token word.now)
        t (cell number chart.old.from chart.old.to))
        (plain_chart chart.old) (plain_chart chart.new) result }
    ensures same { DiffersInRow chart.old chart.new }
{
    let least = cut(least_of(forms, word, chart, number));
    lower(&mut chart.row, number as usize, least)
}

/// Lowers the values of the columns of numbers from `first` up to `end`, each once.
fn lower_some(forms: &[Form], word: &[Token], first: usize, end: usize, chart: &mut Chart) -> bool
    requires attained { IsAttainedChart (plain_all forms.now) (map plain_token word.now)
        chart.old.from
        chart.old.to (plain_chart chart.old) }
    requires end { end ≤ length forms.now }
    ensures settling { IsSettling (plain_all forms.now) (map plain_token word.now) chart.old.from
        chart.old.to (AreSettledFrom (plain_all forms.now) (map plain_token word.now)
        chart.old.from chart.old.to first end) (plain_chart chart.old) (plain_chart chart.new)
        result }
    ensures same { DiffersInRow chart.old chart.new }
{
    let mut changed = false;
    for number in first..end {
        let is_less = lower_column(forms, word, number as u32, chart);
        changed = changed | is_less;
    }
    changed
}

/// Lowers the values of all columns, each once. The first ones, of names, come last: what stands in
/// the others, and within them, was made before them, so that few rounds are needed.
fn lower_all(forms: &[Form], names: u32, word: &[Token], chart: &mut Chart) -> bool
    requires { IsAttainedChart (plain_all forms.now) (map plain_token word.now) chart.old.from
        chart.old.to (plain_chart chart.old) }
    ensures settling { IsSettling (plain_all forms.now) (map plain_token word.now) chart.old.from
        chart.old.to (AreSettled (plain_all forms.now) (map plain_token word.now) chart.old.from
        chart.old.to (length forms.now)) (plain_chart chart.old) (plain_chart chart.new) result }
    ensures same { DiffersInRow chart.old chart.new }
{
    let end = forms.len();
    let first = (names as usize).min(end);
    let others = lower_some(forms, word, first, end, chart);
    let named = lower_some(forms, word, 0, first, chart);
    others | named
}

/// Lowers the values over the span at hand until the rules lower none. So many columns, the first
/// ones, are of names.
pub fn settle(forms: &[Form], names: u32, word: &[Token], chart: &mut Chart)
    requires { IsAttainedChart (plain_all forms.now) (map plain_token word.now) chart.old.from
        chart.old.to (plain_chart chart.old) }
    ensures attained { IsAttainedChart (plain_all forms.now) (map plain_token word.now)
        chart.new.from
        chart.new.to (plain_chart chart.new) }
    ensures settled { AreSettled (plain_all forms.now) (map plain_token word.now) chart.new.from
        chart.new.to (length forms.now) (plain_chart chart.new) }
    ensures same { DiffersInRow chart.old chart.new }
{
    while lower_all(forms, names, word, chart) {}
}
