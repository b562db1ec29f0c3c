//! What follows from a reach of a column, over one place.

use crate::making::classes::Classes;
use crate::making::derivations::{Derivation, Derivations, Rule};
use crate::making::empties::{cost_at, sum_of};
use crate::making::ends::Ends;
use crate::making::fronts::{beyond, costs_at_least, costs_at_most, end_of, more_than, reach_to};
use crate::making::here::{COSTS, Here, Step};
use crate::making::known_columns::KnownColumns;
use pv_bounds::{Reach, Row};
use pv_chars::NoMemory;
use pv_layout::Form;
use std::alloc::Global;

/// How far on all cuts are tried.
const NEAR: u32 = 4;

/// What is known while a place is filled: the grammar, the classes of its columns, and the rows of
/// the places further on, the last place first. Fronts are those of classes.
#[derive(Clone, Copy)]
pub struct Known<'a> {
    pub alloc: Global,
    pub known: &'a KnownColumns<'a>,
    pub classes: &'a Classes,
    pub rows: &'a [Row],
    pub tokens: u32,
}

impl<'a> Known<'a> {
    /// What stands in a column of a class.
    pub fn form(&self, class: u32) -> Option<&'a Form> {
        let first = self.classes.first(class);
        self.known.layout.forms().get(first as usize)
    }

    /// The classes that mention a class.
    fn above(&self, class: u32) -> &'a [u32] {
        if self.classes.are_apart() {
            self.known.layout.mentions.above(class)
        } else {
            self.classes.above(class)
        }
    }

    /// What a class costs over no tokens.
    fn empty(&self, class: u32) -> u32 {
        cost_at(self.known.empty.as_slice(), self.classes.first(class))
    }

    /// The reaches of a class at a place further on.
    pub fn reaches(&self, place: u32, class: u32) -> &'a [Reach] {
        if place >= self.tokens {
            return &[];
        }
        match self.rows.get((self.tokens - place - 1) as usize) {
            Some(row) => row.at(class),
            None => &[],
        }
    }
}

// Offers what a column reaches by the step, and by another column from a cut.
fn follow_at(
    known: Known<'_>,
    here: &mut Here,
    user: u32,
    rest: u32,
    step: Step,
    cut: u32,
) -> Result<(), NoMemory> {
    let end = end_of(here.front(user));
    let reaches = beyond(known.reaches(cut, rest), end);
    for (number, next) in reaches.iter().enumerate() {
        let cost = sum_of(step.cost, next.cost);
        if cost >= here.whole(user) {
            here.look(number);
            break;
        }
        let rule = Rule::Two {
            first: step.number,
            cut,
            second: next.via,
        };
        here.offer(known.alloc, user, cost, next.end, rule)?;
    }
    Ok(())
}

// Offers what a column reaches by the step and another column, in the way of a reach of its
// example.
fn follow_like(
    known: Known<'_>,
    here: &mut Here,
    user: u32,
    rest: u32,
    step: Step,
    (cut, end): (u32, u32),
) -> Result<(), NoMemory> {
    let Some(next) = reach_to(known.reaches(cut, rest), end) else {
        return Ok(());
    };
    let rule = Rule::Two {
        first: step.number,
        cut,
        second: next.via,
    };
    here.offer(
        known.alloc,
        user,
        sum_of(step.cost, next.cost),
        next.end,
        rule,
    )
}

// Offers what a column reaches by the step and another column from the cuts up to a last one, of
// which a reach of the column at the twin place is made.
fn follow_twin(
    known: Known<'_>,
    here: &mut Here,
    derivations: &Derivations,
    user: u32,
    rest: u32,
    step: Step,
    last: u32,
) -> Result<(), NoMemory> {
    let reaches = known.reaches(here.example(user), user);
    let Some(reaches) = reaches.get(here.followed(user)..) else {
        return Ok(());
    };
    for like in reaches {
        if let Some(
            Derivation {
                rule: Rule::Two { cut, .. },
                ..
            },
        ) = derivations.get(like.via)
        {
            if cut > last {
                break;
            }
            follow_like(known, here, user, rest, step, (cut, like.end))?;
        }
        here.follow_one(user);
    }
    Ok(())
}

// Offers what a column reaches by the step, and by another column from the cuts that no cheaper
// step of the same column had: from near ones, and further on from those of its example.
fn follow(
    known: Known<'_>,
    here: &mut Here,
    derivations: &Derivations,
    user: u32,
    rest: u32,
    step: Step,
) -> Result<(), NoMemory> {
    let last = step.end.min(here.grain.last_cut(here.place));
    let first = here.try_cuts(user, last);
    let near = if here.tries_all(user) {
        last
    } else {
        last.min(u32::saturating_add(here.place, NEAR))
    };
    for cut in (first..u32::saturating_add(near, 1)).rev() {
        follow_at(known, here, user, rest, step, cut)?;
    }
    if near < last {
        follow_twin(known, here, derivations, user, rest, step, last)?;
    }
    Ok(())
}

// Whether no further cut of a column leads to less than it has, since none does at a place so far
// on: the first part costs as much more than there as the column does, or still more.
fn is_like(known: Known<'_>, here: &Here, user: u32, first: u32, shift: u32) -> bool {
    let place = u32::saturating_add(here.place, shift);
    let there = known.reaches(place, user);
    let limit = here.limit();
    let more = more_than(here.front(user), there, limit);
    costs_at_most(here.front(user), there, more, limit)
        && costs_at_least(here.front(first), known.reaches(place, first), more, place)
}

// Whether no further cut of a column leads to less than it has. What tells it is its example from
// now on.
fn has_all(known: Known<'_>, here: &mut Here, user: u32, first: u32) -> bool {
    let near = u32::saturating_add(here.place, NEAR);
    if end_of(here.front(first)) <= near || near >= known.tokens {
        return true;
    }
    let shift = u32::saturating_sub(here.example(user), here.place);
    if is_like(known, here, user, first, shift) {
        return true;
    }
    for other in 1..u32::saturating_add(NEAR, 1) {
        if other != shift && is_like(known, here, user, first, other) {
            here.follow_shift(user, other);
            return true;
        }
    }
    here.tries_all(user)
}

// The class of the first part of a column with two.
fn first_of(known: Known<'_>, user: u32) -> Option<u32> {
    match known.form(user) {
        Some(Form::Star(one, _)) => Some(known.classes.of(*one)),
        Some(Form::Plus(one)) => Some(known.classes.of(*one)),
        Some(Form::Then(one, _)) => Some(known.classes.of(*one)),
        _ => None,
    }
}

/// Lets all cuts be tried of the columns that might have led further by others.
pub fn try_lacking(known: Known<'_>, here: &mut Here) {
    for user in 0..known.classes.count() {
        let user = u32::try_from(user).unwrap_or(u32::MAX);
        if let Some(first) = first_of(known, user) {
            if !has_all(known, here, user, first) {
                here.try_all(user);
            }
        }
    }
}

// Offers what a sequence of two columns reaches by the step of one of them.
fn join(
    known: Known<'_>,
    here: &mut Here,
    derivations: &Derivations,
    user: u32,
    (first, rest): (u32, u32),
    step: Step,
) -> Result<(), NoMemory> {
    let rule = Rule::One {
        part: step.number,
        column: step.column,
    };
    if first == step.column {
        let cost = sum_of(step.cost, known.empty(rest));
        here.offer(known.alloc, user, cost, step.end, rule)?;
        follow(known, here, derivations, user, rest, step)?;
    }
    if rest == step.column {
        let cost = sum_of(step.cost, known.empty(first));
        here.offer(known.alloc, user, cost, step.end, rule)?;
    }
    Ok(())
}

// Offers to a column what follows from a step of a column that it mentions.
fn derive(
    known: Known<'_>,
    here: &mut Here,
    derivations: &Derivations,
    user: u32,
    step: Step,
) -> Result<(), NoMemory> {
    let Some(form) = known.form(user) else {
        return Ok(());
    };
    let rule = Rule::One {
        part: step.number,
        column: step.column,
    };
    match form {
        Form::Never => Ok(()),
        Form::Nothing => Ok(()),
        Form::Element(_, _) => {
            here.offer(known.alloc, user, sum_of(1, step.cost), step.end, rule)
        }
        Form::OneOf(_) => here.offer(known.alloc, user, step.cost, step.end, rule),
        Form::Opt(_) => here.offer(known.alloc, user, step.cost, step.end, rule),
        Form::Star(_, _) => {
            here.offer(known.alloc, user, step.cost, step.end, rule)?;
            follow(known, here, derivations, user, user, step)
        }
        Form::Plus(_) => {
            here.offer(known.alloc, user, step.cost, step.end, rule)?;
            follow(known, here, derivations, user, user, step)
        }
        Form::Then(first, rest) => {
            let both = (known.classes.of(*first), known.classes.of(*rest));
            join(known, here, derivations, user, both, step)
        }
    }
}

// Offers what follows from all reaches of a cost beyond the least. Each takes a class further.
fn settle_cost(
    known: Known<'_>,
    here: &mut Here,
    derivations: &mut Derivations,
    ends: &mut Ends,
    beyond: usize,
) -> Result<(), NoMemory> {
    'steps: while let Some(step) = here.settle(known.alloc, beyond, derivations, ends)? {
        for user in known.above(step.column) {
            derive(known, here, derivations, *user, step)?;
        }
    }
    Ok(())
}

// Offers what follows from all reaches whose costs are told apart.
fn settle_costs(
    known: Known<'_>,
    here: &mut Here,
    derivations: &mut Derivations,
    ends: &mut Ends,
) -> Result<(), NoMemory> {
    for beyond in 0..COSTS {
        if beyond >= here.costs() {
            break;
        }
        settle_cost(known, here, derivations, ends, beyond)?;
    }
    Ok(())
}

/// Offers what follows from all reaches that wait, the cheap ones first, until none does. The least
/// cost grows with each round.
pub fn settle(
    known: Known<'_>,
    here: &mut Here,
    derivations: &mut Derivations,
) -> Result<(), NoMemory> {
    let mut ends = Ends::none(known.alloc, known.classes.count())?;
    settle_costs(known, here, derivations, &mut ends)?;
    let mut least = 0;
    'rounds: while let Some(dearer) = here.go_dearer(known.alloc, least)? {
        least = dearer;
        settle_costs(known, here, derivations, &mut ends)?;
    }
    Ok(())
}
