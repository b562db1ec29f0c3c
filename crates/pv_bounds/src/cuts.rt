//! Whether columns cost no more than one column and another after it.

ghost use Rattle.std.specs.Prelude.{◌≡◌, ◌≤◌, ◌+◌, ◌<◌, ℕ, IfOk, IsTrue, OnOk};
ghost use Rattle.std.specs.Prelude.{length, map, slice_index_or, suc};
ghost use Rattle.pv_model.specs.PlainForms.{plain_token};
ghost use Rattle.pv_rules.specs.Derivations.{heaviest};
ghost use Rattle.pv_layout.specs.FormForms.{plain_form};
ghost use Rattle.pv_bounds.specs.Fronts.{cost_from, empty_cost, front_list, least_to};
ghost use Rattle.pv_bounds.specs.HoldingForms.{CutsHold, FormCutsHold};
ghost use Rattle.pv_bounds.specs.Windows.{AllFalling, AreFalling, IsWindow, TellsEnd, TellsReach};
ghost use Rattle.pv_bounds.specs.declared.fronts.Reach.{Reach};

use crate::claim::Claim;
use crate::covers::{covers, covers_after, is_within};
use crate::front::Front;
use crate::fronts::Reach;
use crate::windows::{Level, end_by, furthest, tell_all};
use pv_chars::NoMemory;
use pv_layout::Form;
use std::alloc::Global;

/// How many places are looked at by which the cuts at one before them may hold.
const NEAR: u32 = 33;

/// A column that may have a first one, and a second one after it.
#[derive(Clone, Copy)]
struct Pair {
    column: u32,
    first: u32,
    second: u32,
}

/// The front of a column at a place, with what it costs up to a far place.
#[derive(Clone, Copy)]
struct Ones<'a> {
    front: Front<'a>,
    far: u32,
    far_cost: u32,
    ghost told: { far_cost ≡ least_to far (front_list front) },
}

// Whether a column, whose front this is, costs no more than a reach at the same place, and
// after it a second column as one level tells of it.
fn level_holds(ones: &Ones<'_>, first: Reach, level: &Level) -> bool
    requires { AreFalling level.now.records.items }
    ensures { IsTrue result → (k e : ℕ) → k ≤ first.end →
        TellsEnd level.now.records.items k e →
        least_to e (front_list ones.now.front) ≤ first.cost + level.now.cost }
{
    let cost = u64::from(first.cost) + u64::from(level.cost);
    if u64::from(ones.far_cost) <= cost && end_by(&level.records, ones.far) {
        return true;
    }
    match furthest(&level.records, first.end) {
        Some(end) => is_within(&ones.front, end, first.cost, level.cost),
        None => true,
    }
}

// Whether the column costs no more than such a reach and the second column, as all levels tell of
// it.
fn levels_hold(ones: &Ones<'_>, first: Reach, levels: &[Level]) -> bool
    requires { AllFalling levels.now }
    ensures { IsTrue result → (k : ℕ) (r : Reach) → k ≤ first.end → TellsReach levels.now k r →
        least_to r.end (front_list ones.now.front) ≤ first.cost + r.cost }
{
    for index in 0..levels.len() {
        if !level_holds(ones, first, &levels[index]) {
            return false;
        }
    }
    true
}

// Whether the column costs no more than any reach of a first column and the second column, as all
// levels tell of it.
fn all_levels_hold(ones: &Ones<'_>, firsts: &Front<'_>, levels: &[Level]) -> bool
    requires { AllFalling levels.now }
    ensures { IsTrue result → (m : ℕ) (d : Reach) → m < length (front_list firsts.now) → (k : ℕ)
        (r : Reach) → k ≤ (slice_index_or (front_list firsts.now) m d).end →
        TellsReach levels.now k r → least_to r.end (front_list ones.now.front) ≤
        (slice_index_or (front_list firsts.now) m d).cost + r.cost }
{
    for index in 0..firsts.len() {
        if !levels_hold(ones, firsts.get(index), levels) {
            return false;
        }
    }
    true
}

// Whether a column costs no more over the tokens from a place than a first one, and a second one
// after it, of which these levels tell at all places after this one.
fn cuts_at(claim: &Claim<'_>, column: u32, first: u32, levels: &[Level], place: u32) -> bool
    requires { AllFalling levels.now }
    ensures { IsTrue result → (e : ℕ) → IsWindow claim.now.fronts.now e (suc place)
        claim.now.tokens levels.now → CutsHold (map plain_token claim.now.word.now)
        (empty_cost claim.now.fronts.now.empty.items) (cost_from claim.now.fronts.now)
        column place first e }
{
    let front = claim.fronts.at(column, place);
    let ones = Ones {
        front,
        far: claim.tokens,
        far_cost: front.least_to(claim.tokens),
    };
    all_levels_hold(&ones, &claim.fronts.at(first, place), levels)
}

// Whether a column costs no more over the tokens from a place than a first one up to a cut, and a
// second one from there.
fn cut_holds(claim: &Claim<'_>, pair: Pair, place: u32, cut: u32) -> bool
    ensures { IsTrue result → (j : ℕ) → cost_from claim.now.fronts.now pair.column place j ≤
        cost_from claim.now.fronts.now pair.first place cut +
        cost_from claim.now.fronts.now pair.second cut j }
{
    let cost = claim.fronts.at(pair.first, place).least_to(cut);
    let here = claim.fronts.at(pair.column, place);
    let there = claim.fronts.at(pair.second, cut);
    covers(&here, &there, cost)
}

// Whether a column costs no more over the tokens from a place than a first one up to a cut, and a
// second one from there, for each of the cuts after the place, up to a last one.
fn near_cuts_hold(claim: &Claim<'_>, pair: Pair, place: u32, last: u32) -> bool
    requires within { last < claim.now.tokens }
    requires near { place < last }
    ensures { IsTrue result → (k j : ℕ) → place < k → k ≤ last →
        cost_from claim.now.fronts.now pair.column place j ≤
        cost_from claim.now.fronts.now pair.first place k +
        cost_from claim.now.fronts.now pair.second k j }
{
    for cut in place + 1..last + 1 {
        if !cut_holds(claim, pair, place, cut) {
            return false;
        }
    }
    true
}

// How much more a front costs than another one, as far as that goes.
fn more_than(ones: &Front<'_>, others: &Front<'_>) -> u32 {
    let count = others.len();
    if count == 0 {
        return 0;
    }
    let last = others.get(count - 1);
    u32::saturating_sub(ones.cost_to(last.end), last.cost)
}

// Whether a first column goes no further than a place.
fn ends_by(claim: &Claim<'_>, first: u32, place: u32, last: u32) -> bool
    ensures { IsTrue result → (k : ℕ) → last < k →
        heaviest ≤ cost_from claim.now.fronts.now first place k }
{
    let firsts = claim.fronts.at(first, place);
    covers_after(&Front::none(firsts.ends), &firsts, 0, last)
}

// Whether the cuts after a later place hold at a place where they hold at the later one: the first
// column goes no further than that, or the column costs at most so much more from the place than
// from the later one, and the first column as much more at least.
fn is_alike(claim: &Claim<'_>, pair: Pair, place: u32, later: u32) -> bool
    ensures { IsTrue result → (k j m : ℕ) → later < k →
        cost_from claim.now.fronts.now pair.column later j ≤
        cost_from claim.now.fronts.now pair.first later k + m →
        cost_from claim.now.fronts.now pair.column place j ≤
        cost_from claim.now.fronts.now pair.first place k + m }
{
    if ends_by(claim, pair.first, place, later) {
        return true;
    }
    let here = claim.fronts.at(pair.column, place);
    let there = claim.fronts.at(pair.column, later);
    let more = more_than(&here, &there);
    if !covers(&here, &there, more) {
        return false;
    }
    let first_there = claim.fronts.at(pair.first, later);
    let first_here = claim.fronts.at(pair.first, place);
    covers_after(&first_there, &first_here, more, later)
}

// Whether all cuts hold at a place where they do at a later one.
fn holds_by(claim: &Claim<'_>, pair: Pair, place: u32, later: u32) -> bool
    requires within { later < claim.now.tokens }
    requires near { place < later }
    ensures { IsTrue result → CutsHold (map plain_token claim.now.word.now)
        (empty_cost claim.now.fronts.now.empty.items) (cost_from claim.now.fronts.now)
        pair.column later pair.first pair.second →
        CutsHold (map plain_token claim.now.word.now)
        (empty_cost claim.now.fronts.now.empty.items) (cost_from claim.now.fronts.now)
        pair.column place pair.first pair.second }
{
    is_alike(claim, pair, place, later) && near_cuts_hold(claim, pair, place, later)
}

// Whether all cuts hold at a place where they do at all later ones, by one that is near.
fn holds_by_later(claim: &Claim<'_>, pair: Pair, place: u32) -> bool
    requires { place < claim.now.tokens }
    ensures { IsTrue result → ((i : ℕ) → place < i → i < claim.now.tokens →
        CutsHold (map plain_token claim.now.word.now)
        (empty_cost claim.now.fronts.now.empty.items) (cost_from claim.now.fronts.now)
        pair.column i pair.first pair.second) → CutsHold (map plain_token claim.now.word.now)
        (empty_cost claim.now.fronts.now.empty.items) (cost_from claim.now.fronts.now)
        pair.column place pair.first pair.second }
{
    let near = (claim.tokens - place).min(NEAR);
    for beyond in 1..near {
        if holds_by(claim, pair, place, place + beyond) {
            return true;
        }
    }
    false
}

// Tells levels of what a column reaches from the places before those that they tell of, back to the
// one after a place.
fn tell_from(
    alloc: Global,
    claim: &Claim<'_>,
    column: u32,
    levels: &mut Vec<Level>,
    place: u32,
    told: u32,
) -> Result<(), NoMemory>
    requires within { place < claim.now.tokens }
    requires falling { AllFalling levels.old.items }
    requires window { IsWindow claim.now.fronts.now column told claim.now.tokens
        levels.old.items }
    ensures falling { OnOk result (AllFalling levels.new.items) }
    ensures window { OnOk result (IsWindow claim.now.fronts.now column (suc place)
        claim.now.tokens levels.new.items) }
{
    for next in (place + 1..told).rev() {
        tell_all(alloc, levels, &claim.fronts.at(column, next), next)?;
    }
    Ok(())
}

// Whether a column costs no more than a first one, and a second one after it that has tokens too,
// over the tokens from all places, the last place first.
fn cuts_hold(alloc: Global, claim: &Claim<'_>, pair: Pair) -> Result<bool, NoMemory>
    ensures { IfOk result (λ hold. IsTrue hold → (i : ℕ) → i < claim.now.tokens →
        CutsHold (map plain_token claim.now.word.now)
        (empty_cost claim.now.fronts.now.empty.items) (cost_from claim.now.fronts.now)
        pair.column i pair.first pair.second) }
{
    let mut levels = Vec::new(alloc);
    let mut told = claim.tokens;
    for place in (0..claim.tokens).rev() {
        if !holds_by_later(claim, pair, place) {
            tell_from(alloc, claim, pair.second, &mut levels, place, told)?;
            told = place + 1;
            if !cuts_at(claim, pair.column, pair.first, &levels, place) {
                return Ok(false);
            }
        }
    }
    Ok(true)
}

/// Whether a column, in which this stands, costs no more than its rules lead to that cut a span,
/// over the tokens from all places.
pub fn form_cuts_hold(
    alloc: Global,
    claim: &Claim<'_>,
    form: &Form,
    column: u32,
) -> Result<bool, NoMemory>
    ensures { IfOk result (λ hold. IsTrue hold → (i : ℕ) → i < claim.now.tokens →
        FormCutsHold (map plain_token claim.now.word.now)
        (empty_cost claim.now.fronts.now.empty.items) (cost_from claim.now.fronts.now)
        column i (plain_form form.now)) }
{
    match form {
        Form::Never => Ok(true),
        Form::Element(_, _) => Ok(true),
        Form::Nothing => Ok(true),
        Form::OneOf(_) => Ok(true),
        Form::Opt(_) => Ok(true),
        Form::Star(one, _) => cuts_hold(
            alloc,
            claim,
            Pair {
                column,
                first: *one,
                second: column,
            },
        ),
        Form::Plus(one) => cuts_hold(
            alloc,
            claim,
            Pair {
                column,
                first: *one,
                second: column,
            },
        ),
        Form::Then(one, two) => cuts_hold(
            alloc,
            claim,
            Pair {
                column,
                first: *one,
                second: *two,
            },
        ),
    }
}
