//! The fronts of a word, made from its last place to the first.

use crate::errors::MakeError;
use crate::making::classes::Classes;
use crate::making::derivations::Derivations;
use crate::making::fronts::end_of;
use crate::making::grain::{Grain, Way};
use crate::making::here::Here;
use crate::making::known_columns::KnownColumns;
use crate::making::places::{fill_place, row_of};
use crate::making::spreading::Known;
use pv_bounds::{Fronts, Row};
use pv_chars::NoMemory;
use pv_model::Token;
use std::alloc::Global;

/// What is made of a word.
#[derive(Drop)]
pub struct Filled {
    /// Fronts that are closed, unless some reaches are left out.
    pub fronts: Fronts,
    /// Fronts without a reach that has no derivation, where those aren't such.
    pub derived: Option<Fronts>,
    /// The derivations of the reaches of these.
    pub derivations: Derivations,
    /// The classes of columns by which all were made.
    pub classes: Classes,
}

/// How many reaches the fronts of a list may have, and how many may be looked at. Past that, fewer
/// ends are told apart.
#[derive(Clone, Copy, Debug)]
struct Budget {
    reaches: usize,
    work: u64,
    /// Whether those that are to come at the other places count too, as far as can be guessed.
    looks_ahead: bool,
}

/// The most reaches of the fronts of a list.
const MAX_REACHES: usize = 33_554_432;

/// So many reaches of a list are always told apart, and so many for each front.
const REACHES: usize = 5_242_880;

const REACHES_A_FRONT: usize = 4;

/// All reaches of a list are made at first if they are at most such a part of these.
const SHORT: usize = 2;

/// From so many places on it is seen whether the number of reaches grows from place to place.
const TURN: usize = 16;

/// A number of places is round where so many of its 64 binary digits, at its ends, are zeros.
const LEAST_ZEROS: u32 = 60;

/// It grows where there are more by such a part of those before.
const GROWING: usize = 16;

/// So many are looked at for each of these.
const LOOKS: u64 = 64;

impl Budget {
    // The budget of a list with so many fronts.
    fn of(fronts: usize) -> Budget {
        let reaches = usize::saturating_mul(fronts, REACHES_A_FRONT)
            .max(REACHES)
            .min(MAX_REACHES);
        let count = u64::try_from(reaches).unwrap_or(u64::MAX);
        Budget {
            reaches,
            work: u64::saturating_mul(count, LOOKS),
            looks_ahead: false,
        }
    }

    // The budget of a list of so many fronts a place and so many places that is all made at once.
    fn of_short(fronts: usize, places: usize) -> Budget {
        let budget = Budget::of(usize::saturating_mul(fronts, places));
        Budget {
            reaches: budget.reaches / SHORT,
            looks_ahead: true,
            ..budget
        }
    }

    // Whether there are too many reaches in these rows, with those of the places that are left, or
    // too much work. Half as many are too many where there are more and more: these share their
    // ends.
    fn is_passed(&self, rows: &[Row], reaches: usize, left: usize, work: u64) -> bool {
        if reaches > self.reaches || work > self.work {
            return true;
        }
        if !self.looks_ahead {
            return false;
        }
        let all = usize::saturating_add(reaches, if_steady(rows, left));
        all > self.reaches || (all > self.reaches / 2 && is_growing(rows))
    }

    // What is left where no fewer ends can be told apart.
    fn last() -> Budget {
        Budget {
            reaches: MAX_REACHES,
            work: u64::MAX,
            looks_ahead: false,
        }
    }
}

/// The rows of a word by class, the last place first, with derivations.
#[derive(Drop)]
struct Rows {
    rows: Vec<Row>,
    derivations: Derivations,
}

fn number_of(count: usize) -> u32 {
    u32::try_from(count).unwrap_or(u32::MAX)
}

// How many reaches these rows have.
fn reaches_of(rows: Option<&[Row]>) -> usize {
    let mut count = 0usize;
    for row in rows.unwrap_or(&[]) {
        count = usize::saturating_add(count, row.reaches.len());
    }
    count
}

// How many reaches so many places have, if each has as many as the last row.
fn if_steady(rows: &[Row], places: usize) -> usize {
    match rows.last() {
        Some(row) => usize::saturating_mul(row.reaches.len(), places),
        None => 0,
    }
}

// Whether a number is round: its binary digits are zeros but for four that follow one another. From
// one of eight on, eight more are round up to its double.
fn is_round(number: usize) -> bool {
    let zeros = u32::saturating_add(number.leading_zeros(), number.trailing_zeros());
    zeros >= LEAST_ZEROS
}

// Whether there are more and more reaches from place to place: the last quarter of the rows has
// more than the one before it by such a part of these. It is looked at only where there are a round
// number of rows, so that all looks together take as long as a few walks over the rows.
fn is_growing(rows: &[Row]) -> bool {
    if rows.len() < TURN || !is_round(rows.len()) {
        return false;
    }
    let quarter = rows.len() / 4;
    let middle = usize::saturating_sub(rows.len(), quarter);
    let first = usize::saturating_sub(middle, quarter);
    let before = reaches_of(rows.get(first..middle));
    let more = usize::saturating_sub(reaches_of(rows.get(middle..)), before);
    more > before / GROWING
}

// The rows by class, as fronts: the first place first.
fn fronts_of(
    alloc: Global,
    known: &KnownColumns<'_>,
    classes: &Classes,
    mut rows: Vec<Row>,
) -> Result<Fronts, NoMemory> {
    rows.reverse();
    Ok(Fronts {
        empty: known.empty.as_slice().to_vec(alloc)?,
        classes: classes.numbers().to_vec(alloc)?,
        rows,
        ends: Vec::new(alloc),
    })
}

// Makes the rows of a word, or tells from how many places there would be too many reaches, or too
// much work.
fn make_rows(
    alloc: Global,
    known: &KnownColumns<'_>,
    classes: &Classes,
    word: &[Token],
    grain: Grain,
    budget: Budget,
) -> Result<Result<Rows, u32>, NoMemory> {
    let mut made = Rows {
        rows: Vec::with_capacity(alloc, word.len())?,
        derivations: Derivations::none(alloc),
    };
    let mut here = Here::new(alloc, classes.count(), grain)?;
    let mut reaches = 0usize;
    for place in (0..word.len()).rev() {
        here.go_to(number_of(place));
        let known = Known {
            alloc,
            known,
            classes,
            rows: made.rows.as_slice(),
            tokens: grain.tokens,
        };
        fill_place(known, &mut here, &mut made.derivations, word[place])?;
        let row = row_of(alloc, &here, classes)?;
        reaches = usize::saturating_add(reaches, row.reaches.len());
        made.rows.push(row)?;
        if budget.is_passed(made.rows.as_slice(), reaches, place, here.work) {
            return Ok(Err(number_of(made.rows.len())));
        }
    }
    Ok(Ok(made))
}

// The budget of a word.
fn budget_of(classes: &Classes, word: &[Token]) -> Budget {
    Budget::of(usize::saturating_mul(classes.count(), word.len()))
}

// Makes the fronts of a word, where fewer ends are told apart as long as there are too many
// reaches.
fn make_within(
    alloc: Global,
    known: &KnownColumns<'_>,
    classes: &Classes,
    word: &[Token],
    first: Grain,
) -> Result<(Rows, Grain), MakeError> {
    let budget = budget_of(classes, word);
    let mut grain = first;
    for _grain in 0..32 {
        if grain.near <= 1 {
            break;
        }
        match make_rows(alloc, known, classes, word, grain, budget)? {
            Ok(made) => return Ok((made, grain)),
            Err(places) => grain = grain.coarser(places),
        }
    }
    match make_rows(alloc, known, classes, word, grain, Budget::last())? {
        Ok(made) => Ok((made, grain)),
        Err(_) => Err(MakeError::TooMany),
    }
}

// Fronts that lead to a completion: those of a word that a column is to stand for, whose reaches
// have derivations, but may cost too much.
fn derive_fronts(
    alloc: Global,
    known: &KnownColumns<'_>,
    classes: &Classes,
    column: u32,
    word: &[Token],
    grain: Grain,
) -> Result<(Fronts, Derivations), MakeError> {
    let fewest = Grain {
        way: Way::Fewest,
        ..grain
    };
    let (made, _) = make_within(alloc, known, classes, word, fewest)?;
    let Rows { rows, derivations } = made;
    let fronts = fronts_of(alloc, known, classes, rows)?;
    if end_of(fronts.at(column, 0).near) >= grain.tokens {
        return Ok((fronts, derivations));
    }
    let fewer = Grain {
        way: Way::Fewer,
        ..grain
    };
    let (made, _) = make_within(alloc, known, classes, word, fewer)?;
    let Rows { rows, derivations } = made;
    let fronts = fronts_of(alloc, known, classes, rows)?;
    Ok((fronts, derivations))
}

// All ends are told apart.
fn all_ends(word: &[Token]) -> Grain {
    let tokens = number_of(word.len());
    Grain {
        near: tokens,
        tokens,
        way: Way::Further,
    }
}

/// The fronts of a word, unless they would have many reaches.
pub fn fill_short(
    alloc: Global,
    known: &KnownColumns<'_>,
    word: &[Token],
) -> Result<Option<Filled>, NoMemory> {
    let classes = Classes::of_word(alloc, known.layout.forms(), word)?;
    let budget = Budget::of_short(classes.count(), word.len());
    match make_rows(alloc, known, &classes, word, all_ends(word), budget)? {
        Ok(made) => {
            let Rows { rows, derivations } = made;
            let fronts = fronts_of(alloc, known, &classes, rows)?;
            Ok(Some(Filled {
                fronts,
                derived: None,
                derivations,
                classes,
            }))
        }
        Err(_) => Ok(None),
    }
}

/// Fronts of a word that lead to a completion, of which some reaches are left out: up to so far on
/// all ends are told apart.
pub fn fill_few(
    alloc: Global,
    known: &KnownColumns<'_>,
    column: u32,
    word: &[Token],
    near: u32,
) -> Result<Filled, MakeError> {
    let classes = Classes::of_word(alloc, known.layout.forms(), word)?;
    let few = Grain {
        near,
        ..all_ends(word)
    };
    let (fronts, derivations) = derive_fronts(alloc, known, &classes, column, word, few)?;
    Ok(Filled {
        fronts,
        derived: None,
        derivations,
        classes,
    })
}

/// How far ahead ends are told apart, where few others are.
const AHEAD: u32 = 48;

/// Fronts of a word that lead to a completion, of which those reaches are left out that are neither
/// short nor go up to the end of the word.
pub fn fill_ahead(
    alloc: Global,
    known: &KnownColumns<'_>,
    word: &[Token],
) -> Result<Filled, MakeError> {
    let classes = Classes::of_word(alloc, known.layout.forms(), word)?;
    let ahead = Grain {
        near: AHEAD,
        way: Way::Ahead,
        ..all_ends(word)
    };
    let (made, _) = make_within(alloc, known, &classes, word, ahead)?;
    let Rows { rows, derivations } = made;
    Ok(Filled {
        fronts: fronts_of(alloc, known, &classes, rows)?,
        derived: None,
        derivations,
        classes,
    })
}

/// The fronts of a word that a column is to stand for. Where they would have too many reaches, there
/// are fronts of two kinds, of which one tells too little, and the other has reaches that cost too
/// much.
pub fn fill(
    alloc: Global,
    known: &KnownColumns<'_>,
    column: u32,
    word: &[Token],
) -> Result<Filled, MakeError> {
    let classes = Classes::of_word(alloc, known.layout.forms(), word)?;
    let (made, grain) = make_within(alloc, known, &classes, word, all_ends(word))?;
    let Rows { rows, derivations } = made;
    let fronts = fronts_of(alloc, known, &classes, rows)?;
    if grain.near >= grain.tokens {
        return Ok(Filled {
            fronts,
            derived: None,
            derivations,
            classes,
        });
    }
    let (derived, derivations) = derive_fronts(alloc, known, &classes, column, word, grain)?;
    Ok(Filled {
        fronts,
        derived: Some(derived),
        derivations,
        classes,
    })
}
