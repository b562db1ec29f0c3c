//! Charts: values of the columns of a DTD over the spans of a word.

ghost use Rattle.std.specs.Prelude.{◌≡◌, ◌<◌, ◌≤◌, ◌^◌, length, suc};
ghost use Rattle.pv_span.specs.Charts.{span_number, spans_before};
ghost use Rattle.pv_span.specs.DoneSpans.{rows_done};
ghost use Rattle.pv_span.specs.Lines.{AreSpanLines};

use crate::done::DoneSpans;
use crate::lines::{Finished, Line, extend_lines, forget_lines};
use crate::spans::span_number;
use crate::values::{forget, value_at};
use pv_chars::NoMemory;
use pv_productive::NO_SIZE;
use std::alloc::Global;

/// The values over the spans that are done, in their order, and the row of the span at hand, which
/// goes from `from` up to `to`. The lines, where there are any, have the cuts of the spans from
/// there.
#[derive(Debug, Drop)]
pub struct Chart {
    tokens: u32,
    done: DoneSpans,
    pub row: Vec<u32>,
    pub from: u32,
    pub to: u32,
    lines: Vec<Line>,
    pub ghost short: { tokens < 2 ^ 13 },
    pub ghost place: { (from ≤ to) × (to ≤ tokens) },
    pub ghost next: { done.count < done.spans → span_number tokens from to ≡ done.count },
    pub ghost spans: { done.spans ≡ spans_before (suc tokens) },
    pub ghost sized: { length row.items ≡ done.columns },
    pub ghost lined: { ∥ AreSpanLines tokens (rows_done done) from to lines.items ∥₁ },
}

impl Chart {
    ghost use Rattle.std.specs.Prelude.{◌≡◌, ◌<◌, ◌≤◌, ◌↔◌, ◌++◌, ◌∷◌, ◌+◌, ◌-◌, [], ℕ, IfOk};
    ghost use Rattle.std.specs.Prelude.{IfSome, IsTrue};
    ghost use Rattle.std.specs.Prelude.{length, suc};
    ghost use Rattle.pv_productive.specs.Tables.{no_size, size_at};
    ghost use Rattle.pv_span.specs.Charts.{AreFew, spans_before, value_of};
    ghost use Rattle.pv_layout.specs.ColumnRules.{cell};
    ghost use Rattle.pv_span.specs.Least.{IsLeastCut};
    ghost use Rattle.pv_span.specs.PlainForms.{DiffersInRow, plain_chart};
    ghost use Rattle.pv_span.specs.Repeats.{IsDoneFrom};

    /// The chart of a word of so many tokens in which no span is done, of so many columns.
    pub fn new(
        alloc: Global,
        tokens: u32,
        columns: u32,
        lines: Vec<Line>,
    ) -> Result<Chart, NoMemory>
        requires { tokens < 2 ^ 13 }
        ensures begun { IfOk result (λ chart. plain_chart chart ≡ record
            { tokens = tokens; rows = []; row = chart.row.items }) }
        ensures sized { IfOk result (λ chart. length chart.row.items ≡ columns) }
        ensures blank { IfOk result (λ chart. (s : ℕ) → size_at chart.row.items s ≡ no_size) }
    {
        let mut lines = lines;
        forget_lines(&mut lines);
        let spans = span_number(tokens, 0, tokens) + 1;
        let done = DoneSpans::new(alloc, columns, spans)?;
        let row = vec![in alloc; NO_SIZE; columns as usize]?;
        Ok(Chart {
            tokens,
            done,
            row,
            from: tokens,
            to: tokens,
            lines,
        })
    }

    /// The value of a column over a span.
    #[inline(always)]
    pub fn at(&self, column: u32, from: u32, to: u32) -> u32
        requires { (from ≤ to) × (to ≤ self.now.tokens) }
        ensures { result ≡ value_of (plain_chart self.now) (cell column from to) }
    {
        let number = span_number(self.tokens, from, to);
        if number < self.done.count {
            self.done.at(column, number)
        } else {
            value_at(&self.row, column as usize)
        }
    }

    /// The value of a column over the span at hand.
    #[inline(always)]
    pub fn here(&self, column: u32) -> u32
        ensures { result ≡ value_of (plain_chart self.now)
            (cell column self.now.from self.now.to) }
    {
        if self.done.count < self.done.spans {
            value_at(&self.row, column as usize)
        } else {
            self.at(column, self.from, self.to)
        }
    }

    /// Whether all spans are done.
    pub fn is_full(&self) -> bool
        ensures { IsTrue result ↔ (spans_before (suc self.now.tokens) ≤
            length (plain_chart self.now).rows) }
    {
        self.done.count >= self.done.spans
    }

    /// The least sum of the cuts strictly within the span at hand, where the line of a number
    /// tells it.
    #[inline(always)]
    pub fn least_inside(&self, number: u32, one: u32, two: u32) -> Option<u32>
        ensures { IfSome result (λ k. IsLeastCut (value_of (plain_chart self.now)) one two
            self.now.from self.now.to (suc self.now.from) self.now.to k) }
    {
        if self.is_full() {
            return None;
        }
        let line = self.lines.get(number as usize)?;
        if line.one != one || line.two != two {
            return None;
        }
        if self.to as usize >= line.least.len() {
            return None;
        }
        Some(line.least[self.to as usize])
    }

    /// Whether the span from a place on that is as long as the one at hand is done.
    pub fn is_done_from(&self, place: u32) -> bool
        ensures { IsTrue result → IsDoneFrom self.now place }
    {
        let long = self.to - self.from;
        if place > self.tokens || long > self.tokens - place {
            return false;
        }
        span_number(self.tokens, place, place + long) < self.done.count
    }

    /// Takes the values over that span for those over the one at hand.
    pub fn copy_from(&mut self, place: u32)
        requires { IsDoneFrom self.old place }
        ensures copied { (s : ℕ) → size_at self.new.row.items s ≡ value_of (plain_chart self.old)
            (cell s place (place + (self.old.to - self.old.from))) }
        ensures same { DiffersInRow self.old self.new }
        ensures sized { length self.new.row.items ≡ length self.old.row.items }
    {
        let long = self.to - self.from;
        let number = span_number(self.tokens, place, place + long);
        self.done.take(number, &mut self.row);
    }

    /// Puts the row at hand with those that are done, and begins with a blank one.
    pub fn next(&mut self)
        requires room { length (plain_chart self.old).rows < spans_before (suc self.old.tokens) }
        requires few { AreFew self.old.row.items }
        ensures next { plain_chart self.new ≡ record {
          tokens = (plain_chart self.old).tokens;
          rows = (plain_chart self.old).rows ++ (self.old.row.items ∷ []);
          row = self.new.row.items;
        } }
        ensures sized { length self.new.row.items ≡ length self.old.row.items }
        ensures blank { (s : ℕ) → size_at self.new.row.items s ≡ no_size }
    {
        self.done.put(&self.row);
        forget(&mut self.row);
        if self.to < self.tokens {
            let last = Finished {
                done: &self.done,
                tokens: self.tokens,
                from: self.from,
                to: self.to,
            };
            extend_lines(&last, &mut self.lines);
            self.to += 1;
        } else if self.from > 0 {
            forget_lines(&mut self.lines);
            self.from -= 1;
            self.to = self.from;
        } else {
            self.lines.truncate(0);
        }
    }
}
