//! The pieces of a list's completion, along the derivations of its reaches.

ghost use Rattle.std.specs.Prelude.{◌*◌, ◌+◌, ◌<◌, ◌≤◌, OnOk};
ghost use Rattle.pv_long.specs.Goals.{work_in, work_of};

use crate::errors::MakeError;
use crate::making::classes::Classes;
use crate::making::derivations::{Derivations, Rule};
use crate::making::empties::{cheapest_of, cost_at};
use crate::making::filling::Filled;
use crate::making::fronts::reach_to;
use crate::making::goals::{Parts, Span, Wanted};
use crate::making::told::Told;
use pv_bounds::Fronts;
use pv_chars::NoMemory;
use pv_layout::Form;
use pv_model::Token;
use pv_rules::HEAVIEST;
use pv_write::Piece;
use std::alloc::Global;

/// What is wanted, and its rank: what it is built of has lower ones.
#[derive(Clone, Copy, Debug)]
struct Goal {
    wanted: Wanted,
    rank: u64,
}

/// The pieces of a list so far, and the goals that are left, the next at the end.
#[derive(Drop)]
struct Built {
    pieces: Vec<Piece>,
    goals: Vec<Goal>,
}

/// What tells of what a column over some tokens is built.
#[derive(Clone, Copy)]
enum Lead<'a> {
    /// The derivations of reaches of classes.
    Derivations(&'a Derivations, &'a Classes),
    /// What fronts tell of this word, within the number of a span.
    Fronts(&'a [Token]),
}

/// What stands in columns, and what was made of a list.
#[derive(Clone, Copy)]
struct Ground<'a> {
    forms: &'a [Form],
    fronts: &'a Fronts,
    lead: Lead<'a>,
}

impl<'a> Ground<'a> {
    // What a column costs over no tokens.
    fn empty(&self, column: u32) -> u32 {
        cost_at(self.fronts.empty.as_slice(), column)
    }

    // The rank of a column of a cost over no tokens. What stands in an element costs less, and the
    // other columns that one is built of have smaller numbers.
    fn rank_of_empty(&self, cost: u32, column: u32) -> u64 {
        let columns = u64::try_from(self.forms.len()).unwrap_or(u64::MAX);
        let rank = u64::saturating_mul(u64::from(cost), columns);
        u64::saturating_add(rank, u64::saturating_add(u64::from(column), 1))
    }

    // The rank of what is wanted: least is that of an end tag, then come columns over no tokens,
    // and then derivations.
    fn rank(&self, wanted: Wanted) -> u64 {
        match wanted {
            Wanted::End(_) => 0,
            Wanted::Empty(column) => self.rank_of_empty(self.empty(column), column),
            Wanted::Tokens(span) => {
                let first = self.rank_of_empty(HEAVIEST, 0);
                u64::saturating_add(first, self.rank_of_span(span))
            }
        }
    }

    // The rank of a column over some tokens, among such. Where fronts lead, what stands in an
    // element costs less, what a span is cut into is shorter, and else columns have smaller
    // numbers.
    fn rank_of_span(&self, span: Span) -> u64 {
        match self.lead {
            Lead::Derivations(_, _) => u64::from(span.number),
            Lead::Fronts(word) => {
                let columns = u64::try_from(self.forms.len()).unwrap_or(u64::MAX);
                let tokens = u64::try_from(word.len()).unwrap_or(u64::MAX);
                let length = u64::from(u32::saturating_sub(span.to, span.from));
                let cost = u64::saturating_mul(u64::from(span.number), tokens);
                let rank = u64::saturating_mul(u64::saturating_add(cost, length), columns);
                u64::saturating_add(rank, u64::from(span.column))
            }
        }
    }

    // What a column over no tokens is built of, where it can be.
    fn parts_of_empty(&self, column: u32) -> Option<Parts> {
        if self.empty(column) >= HEAVIEST {
            return None;
        }
        match self.forms.get(column as usize)? {
            Form::Never => None,
            Form::Element(id, inner) => Some(Parts::element(*id, Wanted::Empty(*inner))),
            Form::Nothing => Some(Parts::wanted(None, None)),
            Form::OneOf(members) => {
                let member = cheapest_of(members.as_slice(), self.fronts.empty.as_slice())?;
                Some(Parts::one(Wanted::Empty(member)))
            }
            Form::Opt(_) => Some(Parts::wanted(None, None)),
            Form::Star(_, _) => Some(Parts::wanted(None, None)),
            Form::Plus(inner) => Some(Parts::one(Wanted::Empty(*inner))),
            Form::Then(first, rest) => {
                let both = (Wanted::Empty(*first), Wanted::Empty(*rest));
                Some(Parts::wanted(Some(both.0), Some(both.1)))
            }
        }
    }

    // What a column is built of, where a part of a class alone has tokens.
    fn parts_of_one(
        &self,
        form: &Form,
        span: Span,
        (part, class): (u32, u32),
        classes: &Classes,
    ) -> Option<Parts> {
        let inner = |column| {
            Wanted::Tokens(Span {
                column,
                number: part,
                ..span
            })
        };
        match form {
            Form::Never => None,
            Form::Nothing => None,
            Form::Element(id, content) => Some(Parts::element(*id, inner(*content))),
            Form::OneOf(members) => {
                let member = member_of(classes, members.as_slice(), class)?;
                Some(Parts::one(inner(member)))
            }
            Form::Opt(one) => Some(Parts::one(inner(*one))),
            Form::Star(one, _) => Some(Parts::one(inner(*one))),
            Form::Plus(one) => Some(Parts::one(inner(*one))),
            Form::Then(first, rest) => {
                let both = if classes.of(*first) == class {
                    (inner(*first), Wanted::Empty(*rest))
                } else {
                    (Wanted::Empty(*first), inner(*rest))
                };
                Some(Parts::wanted(Some(both.0), Some(both.1)))
            }
        }
    }

    // What a column over some tokens is built of by a derivation, where it can be. Where the span
    // is shorter than the derivation, a cheaper reach may go far enough, by an earlier one.
    fn parts_by_derivation(
        &self,
        wanted: Span,
        derivations: &Derivations,
        classes: &Classes,
    ) -> Option<Parts> {
        let form = self.forms.get(wanted.column as usize)?;
        let front = self.fronts.at(wanted.column, wanted.from).near;
        let mut span = wanted;
        if let Some(reach) = reach_to(front, wanted.to) {
            span.number = reach.via.min(wanted.number);
        }
        match derivations.get(span.number)?.rule {
            Rule::Token => Some(Parts::piece(Piece::Kept)),
            Rule::Text { rest } => Some(parts_of_text(span, rest)),
            Rule::One { part, column } => self.parts_of_one(form, span, (part, column), classes),
            Rule::Two { first, cut, second } => parts_of_two(form, span, cut, (first, second)),
        }
    }

    // What a column over some tokens is built of, where it can be.
    fn parts_of_span(&self, wanted: Span) -> Option<Parts> {
        match self.lead {
            Lead::Derivations(derivations, classes) => {
                self.parts_by_derivation(wanted, derivations, classes)
            }
            Lead::Fronts(word) => Told {
                forms: self.forms,
                fronts: self.fronts,
                word,
            }
            .parts_of(wanted),
        }
    }

    // What a goal is built of, where it can be.
    fn parts_of(&self, wanted: Wanted) -> Option<Parts> {
        match wanted {
            Wanted::End(id) => Some(Parts::piece(Piece::End(id))),
            Wanted::Empty(column) => self.parts_of_empty(column),
            Wanted::Tokens(span) => self.parts_of_span(span),
        }
    }
}

// The member of a choice that is of a class.
fn member_of(classes: &Classes, members: &[u32], class: u32) -> Option<u32> {
    members
        .iter()
        .copied()
        .find(|member| classes.of(*member) == class)
}

// What a column is built of that begins with a text, by the derivation of the rest.
fn parts_of_text(span: Span, rest: u32) -> Parts {
    let from = u32::saturating_add(span.from, 1);
    if from >= span.to {
        return Parts::piece(Piece::Kept);
    }
    let rest = Span {
        number: rest,
        from,
        ..span
    };
    Parts {
        piece: Some(Piece::Kept),
        first: Some(Wanted::Tokens(rest)),
        second: None,
    }
}

// What a column is built of that has one part up to a cut and another from there. The span may end
// at the cut or before it.
fn parts_of_two(form: &Form, span: Span, cut: u32, (first, second): (u32, u32)) -> Option<Parts> {
    let (one, two) = match form {
        Form::Star(one, _) => (*one, span.column),
        Form::Plus(one) => (*one, span.column),
        Form::Then(one, two) => (*one, *two),
        _ => return None,
    };
    let part = Span {
        column: one,
        number: first,
        from: span.from,
        to: span.to.min(cut),
    };
    let rest = Span {
        column: two,
        number: second,
        from: cut,
        to: span.to,
    };
    let after = match form {
        _ if cut < span.to => Some(Wanted::Tokens(rest)),
        Form::Then(_, _) => Some(Wanted::Empty(two)),
        _ => None,
    };
    Some(Parts::wanted(Some(Wanted::Tokens(part)), after))
}

// Puts a piece, if there is one, after the others.
fn push_piece(pieces: &mut Vec<Piece>, piece: Option<Piece>) -> Result<(), NoMemory> {
    if let Some(piece) = piece {
        pieces.push(piece)?;
    }
    Ok(())
}

impl Built {
    // Wants a part of what has a rank, and tells whether its own is lower. Only then is it wanted.
    fn want(
        &mut self,
        ground: Ground<'_>,
        rank: u64,
        part: Option<Wanted>,
    ) -> Result<bool, NoMemory>
        ensures { OnOk result (3 * work_in self.new.goals.items ≤
            3 * work_in self.old.goals.items + work_of rank) }
    {
        let Some(wanted) = part else {
            return Ok(true);
        };
        let goal = Goal {
            wanted,
            rank: ground.rank(wanted),
        };
        if goal.rank >= rank {
            return Ok(false);
        }
        self.goals.push(goal)?;
        Ok(true)
    }

    // Puts in the place of a goal of a rank what it is built of, and tells whether that has lower
    // ones.
    fn put(&mut self, ground: Ground<'_>, rank: u64, parts: Parts) -> Result<bool, NoMemory>
        ensures { OnOk result (work_in self.new.goals.items <
            work_in self.old.goals.items + work_of rank) }
    {
        push_piece(&mut self.pieces, parts.piece)?;
        let has_second = self.want(ground, rank, parts.second)?;
        let has_first = self.want(ground, rank, parts.first)?;
        Ok(has_first && has_second)
    }
}

// What is wanted first: a column over a whole word of so many tokens.
fn first_wanted(fronts: &Fronts, column: u32, tokens: u32) -> Option<Wanted> {
    if tokens == 0 {
        return Some(Wanted::Empty(column));
    }
    let reach = reach_to(fronts.at(column, 0).near, tokens)?;
    Some(Wanted::Tokens(Span {
        column,
        number: reach.via,
        from: 0,
        to: tokens,
    }))
}

// The pieces of what is wanted: what each goal is built of has lower ranks.
fn pieces_of(alloc: Global, ground: Ground<'_>, wanted: Wanted) -> Result<Vec<Piece>, MakeError> {
    let mut built = Built {
        pieces: Vec::new(alloc),
        goals: Vec::new(alloc),
    };
    built.goals.push(Goal {
        wanted,
        rank: ground.rank(wanted),
    })?;
    while let Some(goal) = built.goals.pop() {
        let Some(parts) = ground.parts_of(goal.wanted) else {
            return Err(MakeError::Unproved);
        };
        if !built.put(ground, goal.rank, parts)? {
            return Err(MakeError::Unproved);
        }
    }
    Ok(built.pieces)
}

/// The pieces of a column over a whole word of so many tokens, by what was made of it.
pub fn build(
    alloc: Global,
    forms: &[Form],
    filled: &Filled,
    column: u32,
    tokens: u32,
) -> Result<Vec<Piece>, MakeError> {
    let fronts = match &filled.derived {
        Some(derived) => derived,
        None => &filled.fronts,
    };
    let ground = Ground {
        forms,
        fronts,
        lead: Lead::Derivations(&filled.derivations, &filled.classes),
    };
    match first_wanted(fronts, column, tokens) {
        Some(wanted) => pieces_of(alloc, ground, wanted),
        None => Err(MakeError::Unproved),
    }
}

/// The pieces of a column over a whole word by fronts alone, if these lead to such in which no more
/// than so many elements are new.
pub fn build_by_fronts(
    alloc: Global,
    forms: &[Form],
    fronts: &Fronts,
    column: u32,
    word: &[Token],
    most: u32,
) -> Result<Option<Vec<Piece>>, MakeError> {
    let ground = Ground {
        forms,
        fronts,
        lead: Lead::Fronts(word),
    };
    let wanted = Wanted::Tokens(Span {
        column,
        number: most,
        from: 0,
        to: u32::try_from(word.len()).unwrap_or(u32::MAX),
    });
    match pieces_of(alloc, ground, wanted) {
        Ok(pieces) => Ok(Some(pieces)),
        Err(MakeError::Unproved) => Ok(None),
        Err(error) => Err(error),
    }
}
