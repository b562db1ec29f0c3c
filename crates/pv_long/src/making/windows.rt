//! The fronts of a long list, by what is seen within a window from each place.

use crate::making::classes::Classes;
use crate::making::derivations::Derivations;
use crate::making::grain::{Grain, Way};
use crate::making::here::Here;
use crate::making::known_columns::KnownColumns;
use crate::making::places::{fill_place, row_of};
use crate::making::spreading::Known;
use crate::making::tails::Tails;
use pv_bounds::{Fronts, Row};
use pv_chars::NoMemory;
use pv_model::Token;
use std::alloc::Global;

/// For so many places derivations are looked at.
const TURN: usize = 64;

/// The most reaches and ends in all.
const MOST: usize = 4_194_304;

// Drops the row that no window of a place to come has in it.
fn forget(alloc: Global, rows: &mut Vec<Row>, window: u32) {
    let seen = usize::saturating_add(window as usize, 2);
    if let Some(number) = usize::checked_sub(rows.len(), seen) {
        if let Some(row) = rows.get_mut(number) {
            *row = Row {
                starts: Vec::new(alloc),
                reaches: Vec::new(alloc),
                fars: Vec::new(alloc),
            };
        }
    }
}

/// The fronts of a word, made up to the ends of windows of so many places, from where each goes on
/// as others do; none where that takes too many reaches. They need not be closed.
pub fn windowed(
    alloc: Global,
    known: &KnownColumns<'_>,
    word: &[Token],
    window: u32,
) -> Result<Option<Fronts>, NoMemory> {
    let classes = Classes::of_word(alloc, known.layout.forms(), word)?;
    let tokens = u32::try_from(word.len()).unwrap_or(u32::MAX);
    let grain = Grain {
        near: window,
        tokens,
        way: Way::Window,
    };
    let mut here = Here::new(alloc, classes.count(), grain)?;
    let mut rows: Vec<Row> = Vec::with_capacity(alloc, word.len())?;
    let mut derivations = Derivations::none(alloc);
    let mut tails = Tails::none(alloc, window, tokens);
    for place in (0..word.len()).rev() {
        here.go_to(u32::try_from(place).unwrap_or(u32::MAX));
        let known = Known {
            alloc,
            known,
            classes: &classes,
            rows: rows.as_slice(),
            tokens,
        };
        fill_place(known, &mut here, &mut derivations, word[place])?;
        tails.keep(known, &here, &derivations)?;
        rows.push(row_of(alloc, &here, &classes)?)?;
        forget(alloc, &mut rows, window);
        if place % TURN == 0 {
            derivations.turn(alloc);
        }
        if tails.count() > MOST {
            return Ok(None);
        }
    }
    let empty = known.empty.as_slice().to_vec(alloc)?;
    let classes = classes.numbers().to_vec(alloc)?;
    Ok(Some(tails.into_fronts(alloc, empty, classes)?))
}
