//! How the pieces of a part are put together.

ghost use Rattle.std.specs.Prelude.{◌≡◌, Some, map};
ghost use Rattle.pv_model.specs.Plain.{PlainPart, plus, star};
ghost use Rattle.pv_model.specs.PlainForms.{plain_token};
ghost use Rattle.pv_rules.specs.Numbering.{IsChoiceAt, part_at};
ghost use Rattle.pv_rules.specs.PlainForms.{plain_site};
ghost use Rattle.pv_rules.specs.Sites.{part_site};
ghost use Rattle.pv_productive.specs.PlainForms.{dtd_of};
ghost use Rattle.pv_span.specs.Weights.{weight_of};
ghost use Rattle.pv_complete.specs.Moves.{IsMove};

use crate::words::cuts::cut_of;
use crate::words::pieces::Move;
use crate::words::spot::Spot;
use pv_rules::{Kind, Site};

/// A choice, whose members end before `end`.
fn choice_move(spot: &Spot<'_>, number: u32, end: u32) -> Move
    requires is { plain_site spot.now.site ≡ part_site number }
    requires choice { IsChoiceAt (dtd_of spot.now.weights.grammar.now) number end }
    ensures { IsMove (dtd_of spot.now.weights.grammar.now)
        (map plain_token spot.now.weights.word.now) (weight_of spot.now.weights.spans.now)
        (plain_site spot.now.site) spot.now.from spot.now.to result }
{
    let mut member = number + 1;
    while member < end {
        if spot.weighs_as(Site::Part(member)) {
            return Move::One(Site::Part(member));
        }
        member = spot.weights.grammar.flat().end_of(member);
    }
    unreachable!()
}

/// None of a part, or some.
fn star_move(spot: &Spot<'_>, number: u32) -> Move
    requires is { plain_site spot.now.site ≡ part_site number }
    requires star { (p : PlainPart) × (part_at (dtd_of spot.now.weights.grammar.now) number ≡
        Some (star p)) }
    ensures { IsMove (dtd_of spot.now.weights.grammar.now)
        (map plain_token spot.now.weights.word.now) (weight_of spot.now.weights.spans.now)
        (plain_site spot.now.site) spot.now.from spot.now.to result }
{
    if spot.from == spot.to {
        return Move::Nothing;
    }
    let one = Site::Part(number + 1);
    let two = Site::Part(number);
    let Some(place) = cut_of(spot, one, two, spot.from + 1, spot.to + 1) else {
        unreachable!();
    };
    Move::Two(one, place, two)
}

/// One of a part, or one and more.
fn plus_move(spot: &Spot<'_>, number: u32) -> Move
    requires is { plain_site spot.now.site ≡ part_site number }
    requires plus { (p : PlainPart) × (part_at (dtd_of spot.now.weights.grammar.now) number ≡
        Some (plus p)) }
    ensures { IsMove (dtd_of spot.now.weights.grammar.now)
        (map plain_token spot.now.weights.word.now) (weight_of spot.now.weights.spans.now)
        (plain_site spot.now.site) spot.now.from spot.now.to result }
{
    let one = Site::Part(number + 1);
    let two = Site::Part(number);
    if spot.weighs_as(one) {
        return Move::One(one);
    }
    if spot.from == spot.to {
        unreachable!();
    }
    let Some(place) = cut_of(spot, one, two, spot.from + 1, spot.to) else {
        unreachable!();
    };
    Move::Two(one, place, two)
}

/// A part.
pub fn part_move(spot: &Spot<'_>, number: u32) -> Move
    requires is { plain_site spot.now.site ≡ part_site number }
    ensures { IsMove (dtd_of spot.now.weights.grammar.now)
        (map plain_token spot.now.weights.word.now) (weight_of spot.now.weights.spans.now)
        (plain_site spot.now.site) spot.now.from spot.now.to result }
{
    let Some(part) = spot.weights.grammar.part_of(number) else {
        unreachable!();
    };
    match part.kind {
        Kind::Name(id) => Move::One(Site::Name(id)),
        Kind::Seq => Move::One(Site::Rest(number + 1)),
        Kind::Choice => choice_move(spot, number, part.end),
        Kind::Opt => {
            if spot.from == spot.to {
                Move::Nothing
            } else {
                Move::One(Site::Part(number + 1))
            }
        }
        Kind::Star => star_move(spot, number),
        Kind::Plus => plus_move(spot, number),
    }
}
