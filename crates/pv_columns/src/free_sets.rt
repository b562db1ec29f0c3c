//! The sets of columns that are free, by which a word is tried without a table.

ghost use Rattle.std.specs.Prelude.{◌≡◌, ◌<◌, ◌≤◌, ◌∷◌, ◌↔◌, [], ℕ, List, IfOk, IfSome, IsTrue};
ghost use Rattle.std.specs.Prelude.{None, OnOk, get_or, length, true};
ghost use Rattle.pv_columns.specs.ColumnRules.{InRange, ReadThrough, TokensMayBeMissing};
ghost use Rattle.pv_columns.specs.FreeSets.{AreFreeSets, AreInRow, IsRowOf, IsSetAt};
ghost use Rattle.pv_columns.specs.FreeSets.{IsFreeOver, KeepSets};
ghost use Rattle.pv_columns.specs.Frees.{AreFree};
ghost use Rattle.pv_columns.specs.Marks.{AreNullable, AreClosedMarks, ReadAlone};
ghost use Rattle.pv_columns.specs.Sets.{AreLayers, AreTokensBelow};
ghost use Rattle.pv_columns.specs.declared.rules.ColumnRule.{ColumnRule as PlainRule};
ghost use Rattle.pv_columns.specs.declared.free_sets.TokenSet.{TokenSet as PlainSet};

use crate::leading::free_columns;
use crate::marks::is_marked;
use crate::ranges::layer_count;
use crate::rows::edges_of;
use crate::rules::ColumnRule;
use crate::sets::{Layer, layers_of};
use crate::tokens::run;
use pv_model::Token;
use std::alloc::{AllocError, Global};

/// A set of tokens, a bit for the number of each.
#[derive(Debug, Drop)]
pub struct TokenSet {
    pub words: Vec<u64>,
}

/// The sets of those of some columns that are free.
#[derive(Debug, Drop)]
pub struct FreeSets {
    /// The sets; equal ones mostly stand once.
    sets: Vec<TokenSet>,
    /// For each of the columns the number of its set, where it is free.
    numbers: Vec<Option<usize>>,
}

/// How many places are kept at which a set was found last, by a number made of its bits.
const PLACES: usize = 4096;

/// The set of a column, by the layers.
fn set_of(alloc: Global, layers: &[Layer], column: usize) -> Result<TokenSet, AllocError>
    ensures { IfOk result (λ set. IsRowOf layers.now column set.words.items) }
{
    let mut words = Vec::new(alloc);
    for layer in layers {
        words.push(layer.words.get(column).copied().unwrap_or(0))?;
    }
    Ok(TokenSet { words })
}

/// A number below `PLACES`, made of all words.
fn place_of(words: &[u64]) -> usize {
    let mut mixed = 0u64;
    for word in words {
        mixed = (mixed ^ *word).wrapping_mul(0x9E37_79B9_7F4A_7C15);
        mixed ^= mixed >> 32;
    }
    mixed as usize % PLACES
}

/// Whether the set at this place has these words.
fn is_same(sets: &[TokenSet], place: usize, words: &[u64]) -> bool
    ensures { result ≡ true → (place < length sets.now) ×
        ((d : PlainSet) → (get_or sets.now place d).words.items ≡ words.now) }
{
    place < sets.len() && sets[place].words.as_slice() == words
}

/// The place of a column's set, which is added where it isn't found.
fn place_set(
    alloc: Global,
    layers: &[Layer],
    column: usize,
    places: &mut Vec<usize>,
    sets: &mut Vec<TokenSet>,
) -> Result<usize, AllocError>
    ensures keep { OnOk result (KeepSets sets.old.items sets.new.items) }
    ensures at { IfOk result (λ k. IsSetAt layers.now column sets.new.items k) }
{
    let set = set_of(alloc, layers, column)?;
    let found = place_of(&set.words);
    let place = places.get(found).copied().unwrap_or(0);
    if is_same(sets, place, &set.words) {
        return Ok(place);
    }
    let place = sets.len();
    sets.push(set)?;
    if found < places.len() {
        places[found] = place;
    }
    Ok(place)
}

/// The sets of those of the columns that are marked as free.
fn sets_of(
    alloc: Global,
    rules: &[ColumnRule],
    live: &[bool],
    layers: &[Layer],
    frees: &[bool],
    columns: &[usize],
) -> Result<FreeSets, AllocError>
    requires bare { AreNullable rules.now live.now }
    requires closed { AreClosedMarks rules.now live.now }
    requires alone { ReadAlone rules.now }
    requires layers { AreLayers rules.now live.now layers.now }
    requires tokens { AreTokensBelow (length layers.now) rules.now }
    requires frees { AreFree rules.now live.now frees.now }
    ensures { IfOk result (λ free. AreFreeSets rules.now columns.now free) }
{
    let mut places = vec![in alloc; 0usize; PLACES]?;
    let mut sets = Vec::new(alloc);
    let mut numbers = Vec::new(alloc);
    for column in columns {
        let number = if is_marked(frees, *column) {
            Some(place_set(alloc, layers, *column, &mut places, &mut sets)?)
        } else {
            None
        };
        numbers.push(number)?;
    }
    Ok(FreeSets { sets, numbers })
}

/// The number at a place, if there is one.
fn number_at(numbers: &[Option<usize>], place: usize) -> Option<usize>
    ensures { result ≡ get_or numbers.now place None }
{
    numbers.get(place).copied().unwrap_or(None)
}

/// Whether all tokens of the word are in the set.
fn are_in_row(row: &[u64], word: &[Token]) -> bool
    ensures { IsTrue result ↔ AreInRow row.now word.now 0 (length word.now) }
{
    run(row, word, 0) == word.len()
}

impl FreeSets {
    /// The sets of those of these columns, which are below `width`, that are free.
    pub fn of(
        alloc: Global,
        rules: &[ColumnRule],
        live: &[bool],
        columns: &[usize],
        width: usize,
    ) -> Result<FreeSets, AllocError>
        requires in_range { InRange width rules.now }
        requires bare { AreNullable rules.now live.now }
        requires closed { AreClosedMarks rules.now live.now }
        requires alone { ReadAlone rules.now }
        ensures { IfOk result (λ free. AreFreeSets rules.now columns.now free) }
    {
        let edges = edges_of(alloc, rules, live)?;
        let count = layer_count(rules);
        let layers = layers_of(alloc, rules, live, &edges, count, width)?;
        let frees = free_columns(alloc, rules, live, &layers, width)?;
        sets_of(alloc, rules, live, &layers, &frees, columns)
    }

    /// Whether the column at this place reaches over the whole word, where it is free.
    pub fn covers(&self, place: usize, word: &[Token]) -> Option<bool>
        ensures { IfSome result (λ b. (rules : List PlainRule) (columns : List ℕ) →
            AreFreeSets rules columns self.now → TokensMayBeMissing rules word.now →
            IsTrue b ↔ ReadThrough rules word.now (get_or columns place 0 ∷ []) 0
            (length word.now)) }
    {
        let number = number_at(&self.numbers, place)?;
        if number >= self.sets.len() {
            return None;
        }
        Some(are_in_row(&self.sets[number].words, word))
    }

    /// The set of the column at this place, where it is free.
    pub fn set_at(&self, place: usize) -> Option<&[u64]>
        ensures { IfSome result (λ row. (rules : List PlainRule) (columns : List ℕ) →
            AreFreeSets rules columns self.now →
            IsFreeOver rules row.now (get_or columns place 0)) }
    {
        let number = number_at(&self.numbers, place)?;
        if number >= self.sets.len() {
            return None;
        }
        Some(&self.sets[number].words)
    }
}
