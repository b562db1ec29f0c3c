//! Fronts: how far each column reaches at each place, for each cost.

ghost use Rattle.std.specs.Prelude.{◌≡◌, ◌++◌, slice_index_or};
ghost use Rattle.pv_layout.specs.ColumnRules.{cell};
ghost use Rattle.pv_bounds.specs.Fronts.{class_of, cost_up_to, empty_cost, far_in, far_reaches};
ghost use Rattle.pv_bounds.specs.Fronts.{front_cost, front_list, least_to, reaches_at};
ghost use Rattle.pv_bounds.specs.Fronts.{reaches_in};

use crate::front::Front;
use pv_rules::HEAVIEST;

/// A column reaches so far: from its place up to `end`, that one left out, at no less than `cost`,
/// and so up to any nearer end.
#[derive(Clone, Copy, Debug, PartialEq, Eq)]
pub struct Reach {
    /// How many elements are missing.
    pub cost: u32,
    /// The number of the first token that isn't reached.
    pub end: u32,
    /// What the maker notes of it: nothing that is told of a reach depends on it.
    pub via: u32,
}

/// Some of the ends that fronts share, up to which a front goes on from its near reaches.
#[derive(Clone, Copy, Debug, PartialEq, Eq)]
pub struct Far {
    /// The number of the first of them among all.
    pub from: u32,
    /// The number after the last one.
    pub to: u32,
    /// What is missing up to the first one; up to each further one it is one more.
    pub cost: u32,
}

/// The reaches of all classes of columns at one place.
#[derive(Debug, Drop)]
pub struct Row {
    /// Where the near reaches of each class start. Those of a class end where those of the next
    /// start.
    pub starts: Vec<u32>,
    /// The near reaches, class by class.
    pub reaches: Vec<Reach>,
    /// The shared ends that follow them, class by class; a class without an entry here has none.
    pub fars: Vec<Far>,
}

/// The reaches of all columns at all places of a word, and what each column costs over no tokens.
/// Columns of one class have the same reaches.
#[derive(Debug, Drop)]
pub struct Fronts {
    /// What each column costs over no tokens; one without a number here can't be empty.
    pub empty: Vec<u32>,
    /// The class of each column; one without a number here has that of its own number.
    pub classes: Vec<u32>,
    /// The reaches at each place of a token; at a place without a row there are none.
    pub rows: Vec<Row>,
    /// The ends that fronts share.
    pub ends: Vec<u32>,
}

impl Reach {
    /// The cost of a reach where it ends at a place or after it, and else 1,000,001.
    #[inline(always)]
    fn cost_up_to(&self, place: u32) -> u32
        ensures { result ≡ cost_up_to place self.now }
    {
        if place <= self.end {
            self.cost.min(HEAVIEST)
        } else {
            HEAVIEST
        }
    }
}

/// The least cost of a reach that ends at a place or after it, or 1,000,001 where none does.
pub fn least_to(reaches: &[Reach], place: u32) -> u32
    ensures { result ≡ least_to place reaches.now }
{
    let mut least = HEAVIEST;
    for index in 0..reaches.len() {
        least = least.min(reaches[index].cost_up_to(place));
    }
    least
}

// Where the reaches of a column start, or 0.
fn start_at(starts: &[u32], column: usize) -> usize
    ensures { result ≡ slice_index_or starts.now column 0 }
{
    match starts.get(column) {
        Some(start) => *start as usize,
        None => 0,
    }
}

// The shared ends of a front, which it has only where they are there and the costs up to them are
// numbers of 32 bits.
fn front_with<'a>(near: &'a [Reach], ends: &'a [u32], far: Far) -> Front<'a>
    ensures reaches { front_list result ≡ near.now ++ far_reaches ends.now far }
    ensures ends { result.ends.now ≡ ends.now }
{
    if far.to as usize <= ends.len() && u64::from(far.cost) + u64::from(far.to) <= 0xffff_ffff {
        Front {
            near,
            ends,
            from: far.from,
            to: far.to,
            cost: far.cost,
        }
    } else {
        Front {
            near,
            ends,
            from: 0,
            to: 0,
            cost: 0,
        }
    }
}

impl Row {
    /// The near reaches of a class; none where the starts of it and the next one don't tell them.
    pub fn at(&self, class: u32) -> &[Reach]
        ensures { result.now ≡ reaches_in self.now class }
    {
        let first = start_at(&self.starts, class as usize);
        let end = start_at(&self.starts, class as usize + 1);
        if first <= end && end <= self.reaches.len() {
            &self.reaches[first..end]
        } else {
            &self.reaches[..0]
        }
    }

    /// The shared ends of a class.
    pub fn far(&self, class: u32) -> Far
        ensures { result ≡ far_in self.now class }
    {
        match self.fars.get(class as usize) {
            Some(far) => *far,
            None => Far {
                from: 0,
                to: 0,
                cost: 0,
            },
        }
    }
}

impl Fronts {
    /// The class of a column.
    pub fn class_of(&self, column: u32) -> u32
        ensures { result ≡ class_of self.now column }
    {
        match self.classes.get(column as usize) {
            Some(class) => *class,
            None => column,
        }
    }

    /// The reaches of a column at a place.
    pub fn at(&self, column: u32, place: u32) -> Front<'_>
        ensures reaches { front_list result ≡ reaches_at self.now column place }
        ensures ends { result.ends.now ≡ self.now.ends.items }
    {
        let ends = self.ends.as_slice();
        match self.rows.get(place as usize) {
            Some(row) => {
                let class = self.class_of(column);
                front_with(row.at(class), ends, row.far(class))
            }
            None => Front::none(ends),
        }
    }

    /// What a column costs over no tokens, or 1,000,001 where it can't be empty.
    pub fn empty_at(&self, column: u32) -> u32
        ensures { result ≡ empty_cost self.now.empty.items column }
    {
        match self.empty.get(column as usize) {
            Some(cost) => (*cost).min(HEAVIEST),
            None => HEAVIEST,
        }
    }

    /// What a column costs over a span, or 1,000,001 where that is more than 1,000,000.
    pub fn cost(&self, column: u32, from: u32, to: u32) -> u32
        ensures { result ≡ front_cost self.now (cell column from to) }
    {
        if from < to {
            self.at(column, from).least_to(to)
        } else {
            self.empty_at(column)
        }
    }
}
