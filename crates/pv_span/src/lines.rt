//! Lines: for two columns, one after the other, the least sums of cuts, so that a cut is looked at
//! once for all spans from its first place.

ghost use Rattle.std.specs.Prelude.{◌≡◌, ◌≤◌, ◌<◌, ◌+◌, ◌-◌, ◌^◌, ℕ, length, min, suc};
ghost use Rattle.pv_productive.specs.Tables.{no_size, size_at};
ghost use Rattle.pv_span.specs.Charts.{AreFew, span_number};
ghost use Rattle.pv_layout.specs.ColumnRules.{cell};
ghost use Rattle.pv_span.specs.DoneSpans.{rows_done};
ghost use Rattle.pv_span.specs.Lines.{AreBlank, AreSpanLines, IsBlankLine, IsLine, done_value};

use crate::done::DoneSpans;
use crate::spans::span_number;
use pv_productive::NO_SIZE;

/// The least sums of a value of `one` before a place and a value of `two` after it, by the last
/// place of the span.
#[derive(Debug, Drop)]
pub struct Line {
    pub one: u32,
    pub two: u32,
    pub least: Vec<u32>,
}

/// The values over the spans that are done, one of which goes from `from` up to `to`.
#[derive(Clone, Copy)]
pub struct Finished<'a> {
    pub done: &'a DoneSpans,
    pub tokens: u32,
    pub from: u32,
    pub to: u32,
    pub ghost short: { tokens < 2 ^ 13 },
    pub ghost within: { (from ≤ to) × (to ≤ tokens) },
    pub ghost finished: { span_number tokens from to < done.now.count },
}

impl Finished<'_> {
    ghost use Rattle.std.specs.Prelude.{◌≡◌};
    ghost use Rattle.pv_layout.specs.ColumnRules.{cell};
    ghost use Rattle.pv_span.specs.DoneSpans.{rows_done};
    ghost use Rattle.pv_span.specs.Lines.{done_value};

    /// The value of a column over this span.
    fn value(&self, column: u32) -> u32
        ensures { result ≡ done_value self.now.tokens (rows_done self.now.done.now)
            (cell column self.now.from self.now.to) }
    {
        self.done
            .at(column, span_number(self.tokens, self.from, self.to))
    }
}

/// Lowers what stands from a place on to the sums of `before` and the values after, where these
/// are less.
fn lower_sums(least: &mut [u32], place: usize, before: u32, behind: &[u32])
    requires long { place + length behind.now ≤ length least.old }
    requires before { before ≤ no_size }
    requires behind { AreFew behind.now }
    ensures lowered { (p : ℕ) → place ≤ p → p < place + length behind.now →
        size_at least.new p ≡ min (size_at least.old p) (before + size_at behind.now (p - place)) }
    ensures kept { (p : ℕ) → place + length behind.now ≤ p →
        size_at least.new p ≡ size_at least.old p }
{
    for number in 0..behind.len() {
        least[place + number] = least[place + number].min(before + behind[number]);
    }
}

/// Takes in the cut at the last place of the span, before which `one` has this value.
fn add_cut(last: &Finished<'_>, line: &mut Line, before: u32)
    requires inside { last.now.from < last.now.to }
    requires before { before ≤ no_size }
    requires few { (p : ℕ) → last.now.to ≤ p → p ≤ last.now.tokens →
        p < length line.old.least.items → size_at line.old.least.items p ≤ no_size }
    ensures one { line.new.one ≡ line.old.one }
    ensures two { line.new.two ≡ line.old.two }
    ensures long { length line.new.least.items ≡ length line.old.least.items }
    ensures each { (p : ℕ) → last.now.to < p → p ≤ last.now.tokens →
        p < length line.old.least.items → size_at line.new.least.items p ≡
        min (size_at line.old.least.items p) (before + done_value last.now.tokens
        (rows_done last.now.done.now) (cell line.old.two last.now.to p)) }
{
    let first = last.to as usize;
    let end = line.least.len().min(last.tokens as usize + 1);
    if first < end {
        let span = span_number(last.tokens, last.to, last.to);
        let behind = last.done.column(line.two, span, end - first);
        lower_sums(&mut line.least, first, before, behind);
    }
}

/// Takes in the cut at the last place of a span that is done, as all spans after it are.
fn extend_line(last: &Finished<'_>, line: &mut Line)
    requires { IsLine last.now.tokens (rows_done last.now.done.now) last.now.from last.now.to
        line.old }
    ensures { IsLine last.now.tokens (rows_done last.now.done.now) last.now.from (suc last.now.to)
        line.new }
{
    if last.from >= last.to || last.to as usize >= line.least.len() {
        return;
    }
    let before = last.value(line.one);
    if before < NO_SIZE {
        add_cut(last, line, before);
    }
}

/// Takes in the cuts at the last place of a span that is done, on all lines.
pub fn extend_lines(last: &Finished<'_>, lines: &mut [Line])
    requires { AreSpanLines last.now.tokens (rows_done last.now.done.now) last.now.from last.now.to
        lines.old }
    ensures { AreSpanLines last.now.tokens (rows_done last.now.done.now) last.now.from
        (suc last.now.to) lines.new }
{
    for number in 0..lines.len() {
        extend_line(last, &mut lines[number]);
    }
}

/// Forgets what is known on a line.
fn forget_line(line: &mut Line)
    ensures { IsBlankLine line.new }
{
    for place in 0..line.least.len() {
        line.least[place] = NO_SIZE;
    }
}

/// Forgets what is known on all lines.
pub fn forget_lines(lines: &mut [Line])
    ensures { AreBlank lines.new }
{
    for number in 0..lines.len() {
        forget_line(&mut lines[number]);
    }
}
