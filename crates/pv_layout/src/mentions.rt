//! Which columns mention a column over the same span: their values may fall with its own.

ghost use Rattle.std.specs.Prelude.{◌≡◌, ◌<◌, ◌∷◌, ◌^◌, [], ℕ, IsTrue, length, slice_get};
ghost use Rattle.pv_layout.specs.ColumnRules.{IsOneOf};
ghost use Rattle.pv_layout.specs.FormForms.{plain_all, plain_form};
ghost use Rattle.pv_layout.specs.Mentions.{AreToldAll, IsMentionTold, columns_mentioned};

use crate::forms::Form;
use pv_chars::NoMemory;
use std::alloc::Global;

/// For each column those that mention it, side by side, from its start up to that of the next one,
/// and for each of these the place of the column among those that it mentions.
#[derive(Debug, Drop)]
pub struct Mentions {
    starts: Vec<u32>,
    above: Vec<u32>,
    places: Vec<u32>,
}

/// The column, at the first place alone.
fn only(column: u32, place: usize) -> Option<u32>
    ensures { result ≡ slice_get (column ∷ []) place }
{
    if place == 0 { Some(column) } else { None }
}

/// The column at a place.
fn one_at(columns: &[u32], place: usize) -> Option<u32>
    ensures { result ≡ slice_get columns.now place }
{
    if place < columns.len() {
        Some(columns[place])
    } else {
        None
    }
}

/// One of two columns, at the first two places.
fn either(one: u32, two: u32, place: usize) -> Option<u32>
    ensures { result ≡ slice_get (one ∷ two ∷ []) place }
{
    if place == 0 {
        Some(one)
    } else {
        only(two, place - 1)
    }
}

/// The column that is mentioned at a place, or none after the last one.
pub fn mentioned(form: &Form, place: usize) -> Option<u32>
    ensures { result ≡ slice_get (columns_mentioned (plain_form form.now)) place }
{
    match form {
        Form::Never => None,
        Form::Element(_, content) => only(*content, place),
        Form::Nothing => None,
        Form::OneOf(members) => one_at(members, place),
        Form::Opt(one) => only(*one, place),
        Form::Star(one, _) => only(*one, place),
        Form::Plus(one) => only(*one, place),
        Form::Then(one, two) => either(*one, *two, place),
    }
}

/// How many columns are mentioned.
fn mention_count(form: &Form) -> usize
    ensures { result ≡ length (columns_mentioned (plain_form form.now)) }
{
    match form {
        Form::Never => 0,
        Form::Element(_, _) => 1,
        Form::Nothing => 0,
        Form::OneOf(members) => members.len(),
        Form::Opt(_) => 1,
        Form::Star(_, _) => 1,
        Form::Plus(_) => 1,
        Form::Then(_, _) => 2,
    }
}

/// Counts one more at a number.
fn count(counts: &mut [u32], number: u32) {
    let place = number as usize;
    if place < counts.len() {
        counts[place] = u32::saturating_add(counts[place], 1);
    }
}

/// Counts each column that is mentioned.
fn count_mentioned(form: &Form, counts: &mut [u32]) {
    for place in 0..mention_count(form) {
        if let Some(column) = mentioned(form, place) {
            count(counts, column);
        }
    }
}

/// Counts what all columns mention.
fn count_all(forms: &[Form], counts: &mut [u32]) {
    for form in forms.iter() {
        count_mentioned(form, counts);
    }
}

/// Puts in each place the sum up to it, and tells the sum of all.
fn add_up(counts: &mut [u32]) -> u32 {
    let mut sum = 0u32;
    for place in 0..counts.len() {
        if place < counts.len() {
            sum = u32::saturating_add(sum, counts[place]);
            counts[place] = sum;
        }
    }
    sum
}

/// Puts a number before those that were put for a column, and tells where.
fn put(number: u32, column: u32, starts: &mut [u32], above: &mut [u32]) -> usize {
    let place = column as usize;
    if place >= starts.len() || starts[place] == 0 {
        return above.len();
    }
    let start = starts[place] - 1;
    if (start as usize) < above.len() {
        starts[place] = start;
        above[start as usize] = number;
    }
    start as usize
}

/// Puts a place beside a number that was put.
fn put_place(place: u32, at: usize, places: &mut [u32]) {
    if at < places.len() {
        places[at] = place;
    }
}

/// Puts a column with all that it mentions, and their places.
fn put_mentioned(
    form: &Form,
    number: u32,
    starts: &mut [u32],
    above: &mut [u32],
    places: &mut [u32],
) {
    let mut last = 0;
    for place in 0..mention_count(form) {
        if let Some(column) = mentioned(form, place) {
            let at = put(number, column, starts, above);
            put_place(last, at, places);
            last = u32::saturating_add(last, 1);
        }
    }
}

/// Puts all columns with what they mention, and their places.
fn put_all(forms: &[Form], starts: &mut [u32], above: &mut [u32], places: &mut [u32]) {
    let mut number = 0;
    for form in forms.iter() {
        put_mentioned(form, number, starts, above, places);
        number = u32::saturating_add(number, 1);
    }
}

impl Mentions {
    ghost use Rattle.std.specs.Prelude.{◌≡◌, ◌<◌, ◌^◌, ℕ, IfOk, IsTrue, false, length};
    ghost use Rattle.pv_layout.specs.ColumnRules.{IsOneOf};
    ghost use Rattle.pv_layout.specs.FormForms.{plain_all};
    ghost use Rattle.pv_layout.specs.Mentions.{AreTold, AreToldAll, IsMentionTold, start_of};

    /// Nothing is told.
    fn none(alloc: Global) -> Mentions
        ensures { length result.above.items ≡ 0 }
    {
        Mentions {
            starts: Vec::new(alloc),
            above: Vec::new(alloc),
            places: Vec::new(alloc),
        }
    }

    /// So many mentions, put down before the ends of those of each column.
    fn put_before(
        alloc: Global,
        forms: &[Form],
        ends: Vec<u32>,
        all: usize,
    ) -> Result<Mentions, NoMemory> {
        let mut starts = ends;
        let mut above = vec![in alloc; 0u32; all]?;
        let mut places = vec![in alloc; 0u32; all]?;
        put_all(forms, &mut starts, &mut above, &mut places);
        Ok(Mentions {
            starts,
            above,
            places,
        })
    }

    /// Whether all mentions of all columns are told, those of each column before its end.
    fn are_all(&self, forms: &[Form], ends: Vec<u32>) -> bool
        requires few { length forms.now < 2 ^ 32 }
        ensures { IsTrue result →
            AreToldAll (plain_all forms.now) (length (plain_all forms.now)) self.now }
    {
        let mut ends = ends;
        if ends.len() != forms.len() {
            return false;
        }
        tells_all(self, forms, &mut ends)
    }

    /// The mentions of all columns, in two passes over what stands in them, which a third one
    /// looks up.
    pub fn of(alloc: Global, forms: &[Form]) -> Result<Mentions, NoMemory>
        requires few { length forms.now < 2 ^ 32 }
        ensures { IfOk result (λ mentions. AreTold (plain_all forms.now) mentions) }
    {
        let mut counts = vec![in alloc; 0u32; forms.len()]?;
        count_all(forms, &mut counts);
        let all = add_up(&mut counts);
        let ends = counts.clone()?;
        let mentions = Mentions::put_before(alloc, forms, counts, all as usize)?;
        if mentions.are_all(forms, ends) {
            Ok(mentions)
        } else {
            Ok(Mentions::none(alloc))
        }
    }

    /// Whether no column is mentioned, as far as is told.
    pub fn is_empty(&self) -> bool
        ensures { result ≡ false → 0 < length self.now.above.items }
    {
        self.above.len() == 0
    }

    #[inline(always)]
    fn start(&self, place: usize) -> usize
        ensures { result ≡ start_of self.now place }
    {
        if place < self.starts.len() {
            self.starts[place] as usize
        } else {
            self.above.len()
        }
    }

    /// Whether a number stands at a place of those of a column.
    fn is_told_at(&self, column: u32, place: usize, number: u32) -> bool
        ensures { IsTrue result → IsMentionTold self.now column number }
    {
        let first = self.start(column as usize);
        let end = self.start(column as usize + 1);
        if place < first || place >= end || place >= self.above.len() {
            return false;
        }
        self.above[place] == number
    }

    /// The place of a column among those that are mentioned by one that mentions it.
    pub fn place_in(&self, column: u32, number: usize) -> usize {
        let at = usize::saturating_add(self.start(column as usize), number);
        self.places.get(at).copied().unwrap_or(0) as usize
    }

    /// The columns that mention this one.
    #[inline(always)]
    pub fn above(&self, column: u32) -> &[u32]
        ensures { (c : ℕ) → IsMentionTold self.now column c → IsOneOf c result.now }
    {
        let first = self.start(column as usize);
        let end = self.start(column as usize + 1).min(self.above.len());
        if first < end {
            &self.above[first..end]
        } else {
            &[]
        }
    }
}

/// Goes back by a place among those of a column, and tells whether a number stands there.
fn is_next(mentions: &Mentions, column: u32, number: u32, ends: &mut [u32]) -> bool
    ensures { IsTrue result → column < length ends.old → IsMentionTold mentions.now column number }
{
    let place = column as usize;
    if place >= ends.len() {
        return true;
    }
    if ends[place] == 0 {
        return false;
    }
    ends[place] -= 1;
    mentions.is_told_at(column, ends[place] as usize, number)
}

/// Whether all mentions of a column are told.
fn tells_form(mentions: &Mentions, form: &Form, number: u32, ends: &mut [u32]) -> bool
    ensures { IsTrue result → (d : ℕ) → IsOneOf d (columns_mentioned (plain_form form.now)) →
        d < length ends.old → IsMentionTold mentions.now d number }
{
    for place in 0..mention_count(form) {
        if let Some(column) = mentioned(form, place) {
            if !is_next(mentions, column, number, ends) {
                return false;
            }
        }
    }
    true
}

/// Whether all mentions of all columns are told.
fn tells_all(mentions: &Mentions, forms: &[Form], ends: &mut [u32]) -> bool
    requires few { length forms.now < 2 ^ 32 }
    ensures { IsTrue result → AreToldAll (plain_all forms.now) (length ends.old) mentions.now }
{
    for number in 0..forms.len() {
        if !tells_form(mentions, &forms[number], number as u32, ends) {
            return false;
        }
    }
    true
}
