//! The values over the spans that are done: for each column those over all spans, side by side.

ghost use Rattle.std.specs.Prelude.{◌≡◌, ◌≢◌, ◌≤◌, ◌<◌, ◌+◌, ◌*◌, ◌^◌, ℕ, length};
ghost use Rattle.pv_productive.specs.Tables.{no_size, size_at};
ghost use Rattle.pv_span.specs.Charts.{AreFew};

use crate::values::value_at;
use pv_chars::NoMemory;
use pv_productive::NO_SIZE;
use std::alloc::Global;

/// The values of so many columns over so many spans, of which so many are done from the first one
/// on.
#[derive(Debug, Drop)]
pub struct DoneSpans {
    cells: Vec<u32>,
    columns: u32,
    pub spans: usize,
    pub count: usize,
    pub ghost long: { length cells.items ≡ columns * spans },
    pub ghost short: { spans < 2 ^ 27 },
    pub ghost few: { AreFew cells.items },
    pub ghost room: { count ≤ spans },
    pub ghost narrow: { columns < 2 ^ 32 },
}

/// Puts in the values over a span, one for each column.
fn put_values(cells: &mut [u32], spans: usize, number: usize, values: &[u32])
    requires number { number < spans }
    requires long { length cells.old ≡ length values.now * spans }
    ensures put { (x : ℕ) → x < length values.now →
        size_at cells.new (x * spans + number) ≡ size_at values.now x }
    ensures kept { (k : ℕ) → ((x : ℕ) → k ≢ x * spans + number) →
        size_at cells.new k ≡ size_at cells.old k }
    ensures few { AreFew cells.old → AreFew values.now → AreFew cells.new }
{
    for column in 0..values.len() {
        cells[column * spans + number] = values[column];
    }
}

/// Takes out the values over a span, one for each column.
fn take_values(cells: &[u32], spans: usize, number: usize, values: &mut [u32])
    requires number { number < spans }
    requires long { length cells.now ≡ length values.old * spans }
    ensures { (x : ℕ) → x < length values.new →
        size_at values.new x ≡ size_at cells.now (x * spans + number) }
{
    for column in 0..values.len() {
        values[column] = cells[column * spans + number];
    }
}

impl DoneSpans {
    ghost use Rattle.std.specs.Prelude.{◌≡◌, ◌<◌, ◌≤◌, ◌+◌, ◌^◌, ℕ, IfOk, [], List, ◌++◌, ◌∷◌};
    ghost use Rattle.std.specs.Prelude.{length};
    ghost use Rattle.pv_productive.specs.Tables.{size_at};
    ghost use Rattle.pv_span.specs.Charts.{AreFew};
    ghost use Rattle.pv_span.specs.DoneSpans.{row_of, rows_done};

    /// No span is done, of so many.
    pub fn new(alloc: Global, columns: u32, spans: usize) -> Result<DoneSpans, NoMemory>
        requires { spans < 2 ^ 27 }
        ensures count { IfOk result (λ done. done.count ≡ 0) }
        ensures spans { IfOk result (λ done. done.spans ≡ spans) }
        ensures columns { IfOk result (λ done. done.columns ≡ columns) }
    {
        let cells = vec![in alloc; NO_SIZE; columns as usize * spans]?;
        Ok(DoneSpans {
            cells,
            columns,
            spans,
            count: 0,
        })
    }

    /// The value of a column over a span.
    #[inline(always)]
    pub fn at(&self, column: u32, number: usize) -> u32
        requires { number < self.now.count }
        ensures { result ≡ size_at (row_of self.now number) column }
    {
        value_at(&self.cells, column as usize * self.spans + number)
    }

    /// The values of a column over so many spans from one on, or none where there is no such
    /// column.
    pub fn column(&self, column: u32, first: usize, count: usize) -> &[u32]
        requires { first + count ≤ self.now.count }
        ensures long { length result.now ≤ count }
        ensures few { AreFew result.now }
        ensures each { (k : ℕ) → k < count → size_at result.now k ≡
            size_at (row_of self.now (first + k)) column }
    {
        if column >= self.columns {
            return &[];
        }
        let start = column as usize * self.spans + first;
        &self.cells[start..start + count]
    }

    /// Takes out the values over a span, one for each column.
    pub fn take(&self, number: usize, values: &mut [u32])
        requires number { number < self.now.count }
        requires sized { length values.old ≡ self.now.columns }
        ensures { (s : ℕ) → size_at values.new s ≡ size_at (row_of self.now number) s }
    {
        take_values(&self.cells, self.spans, number, values);
    }

    /// Puts in the values over the next span.
    pub fn put(&mut self, values: &[u32])
        requires room { self.old.count < self.old.spans }
        requires sized { length values.now ≡ self.old.columns }
        requires few { AreFew values.now }
        ensures rows { rows_done self.new ≡ rows_done self.old ++ (values.now ∷ []) }
        ensures count { self.new.count ≡ self.old.count + 1 }
        ensures spans { self.new.spans ≡ self.old.spans }
        ensures columns { self.new.columns ≡ self.old.columns }
    {
        put_values(&mut self.cells, self.spans, self.count, values);
        self.count += 1;
    }
}
