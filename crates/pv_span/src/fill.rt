//! Charts of whole words.

ghost use Rattle.std.specs.Prelude.{◌≡◌, ◌<◌, ◌^◌, ℕ, IfOk, OnOk, length, map};
ghost use Rattle.pv_model.specs.PlainForms.{plain_token};
ghost use Rattle.pv_productive.specs.Tables.{no_size, size_at};
ghost use Rattle.pv_span.specs.Charts.{AreSettled, HasDone, IsFilled};
ghost use Rattle.pv_span.specs.DoneSpans.{rows_done};
ghost use Rattle.pv_layout.specs.FormForms.{plain_all};
ghost use Rattle.pv_layout.specs.Mentions.{AreTold};
ghost use Rattle.pv_span.specs.PlainForms.{DiffersInRow, IsAttainedSoFar, plain_chart};
ghost use Rattle.pv_span.specs.Repeats.{AreSameTokens};

use crate::charts::Chart;
use crate::pairs::lines_of;
use crate::repeats::Repeats;
use crate::spreading::fill_span;
use crate::waiting::Waiting;
use pv_chars::NoMemory;
use pv_layout::{Form, Mentions};
use pv_model::Token;
use std::alloc::Global;

/// Finds the values over the span at hand: where its tokens stand again in a span that is done, by
/// those over that one. So many columns, the first ones, are of names.
fn fill_next(
    forms: &[Form],
    mentions: &Mentions,
    names: u32,
    word: &[Token],
    repeats: &Repeats,
    waiting: &mut Waiting,
    chart: &mut Chart,
) -> Result<(), NoMemory>
    requires attained { IsAttainedSoFar (plain_all forms.now) (map plain_token word.now) chart.old }
    requires few { length forms.now < 2 ^ 32 }
    requires long { length waiting.old.flags.items ≡ length forms.now }
    requires told { ∥ AreTold (plain_all forms.now) mentions.now ∥₁ }
    requires repeats { AreSameTokens word.now repeats.now }
    requires blank { (s : ℕ) → size_at chart.old.row.items s ≡ no_size }
    ensures attained { IsAttainedSoFar (plain_all forms.now) (map plain_token word.now) chart.new }
    ensures same { DiffersInRow chart.old chart.new }
    ensures long { length waiting.new.flags.items ≡ length waiting.old.flags.items }
    ensures settled { OnOk result (AreSettled (plain_all forms.now) (map plain_token word.now)
        chart.new.from chart.new.to (length forms.now) (plain_chart chart.new)) }
{
    if repeats.covers(chart) {
        chart.copy_from(repeats.again);
        return Ok(());
    }
    fill_span(forms, mentions, names, word, waiting, chart)
}

/// Finds the values over the spans that aren't done: those over each span are found in the order of
/// their size, and settled then. So many columns, the first ones, are of names.
fn fill_spans(
    alloc: Global,
    forms: &[Form],
    mentions: &Mentions,
    names: u32,
    word: &[Token],
    chart: &mut Chart,
) -> Result<(), NoMemory>
    requires short { length word.now < 2 ^ 13 }
    requires few { length forms.now < 2 ^ 32 }
    requires told { ∥ AreTold (plain_all forms.now) mentions.now ∥₁ }
    requires begun { HasDone (plain_all forms.now) (map plain_token word.now)
        (length (rows_done chart.old.done)) (plain_chart chart.old) }
    ensures { OnOk result (IsFilled (plain_all forms.now) (map plain_token word.now)
        (plain_chart chart.new)) }
{
    let mut waiting = Waiting::new(alloc, forms.len())?;
    let mut repeats = Repeats::new(alloc, word.len() as u32)?;
    'spans: while !chart.is_full() {
        repeats.go_to(word, chart.from);
        fill_next(forms, mentions, names, word, &repeats, &mut waiting, chart)?;
        chart.next();
    }
    Ok(())
}

/// The values of all columns over all spans of a word. So many columns, the first ones, are of
/// names.
fn fill(
    alloc: Global,
    forms: &[Form],
    mentions: &Mentions,
    names: u32,
    word: &[Token],
) -> Result<Chart, NoMemory>
    requires short { length word.now < 2 ^ 13 }
    requires few { length forms.now < 2 ^ 32 }
    requires told { ∥ AreTold (plain_all forms.now) mentions.now ∥₁ }
    ensures { IfOk result (λ chart. IsFilled (plain_all forms.now) (map plain_token word.now)
        (plain_chart chart)) }
{
    let tokens = word.len() as u32;
    let lines = lines_of(alloc, forms, tokens)?;
    let mut chart = Chart::new(alloc, tokens, forms.len() as u32, lines)?;
    fill_spans(alloc, forms, mentions, names, word, &mut chart)?;
    Ok(chart)
}

/// The values of all columns over all spans of a word that has fewer than 8,192 tokens.
pub fn chart_of(
    alloc: Global,
    forms: &[Form],
    mentions: &Mentions,
    names: u32,
    word: &[Token],
) -> Result<Chart, NoMemory>
    requires few { length forms.now < 2 ^ 32 }
    requires told { ∥ AreTold (plain_all forms.now) mentions.now ∥₁ }
    ensures { IfOk result (λ chart. length word.now < 2 ^ 13 → IsFilled (plain_all forms.now)
        (map plain_token word.now) (plain_chart chart)) }
{
    if word.len() < 8192 {
        fill(alloc, forms, mentions, names, word)
    } else {
        fill(alloc, forms, mentions, names, &[])
    }
}
