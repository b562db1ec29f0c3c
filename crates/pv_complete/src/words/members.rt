//! How the pieces of the members of a sequence are put together.

ghost use Rattle.std.specs.Prelude.{◌≡◌, ◌+◌, Some, map};
ghost use Rattle.pv_model.specs.Plain.{PlainPart, PlainParts, part};
ghost use Rattle.pv_model.specs.PlainForms.{plain_token};
ghost use Rattle.pv_dtd.specs.Plain.{parts_in};
ghost use Rattle.pv_rules.specs.Numbering.{rest_at};
ghost use Rattle.pv_rules.specs.PlainForms.{plain_site};
ghost use Rattle.pv_rules.specs.Sites.{rest_site};
ghost use Rattle.pv_productive.specs.PlainForms.{dtd_of};
ghost use Rattle.pv_span.specs.Weights.{weight_of};
ghost use Rattle.pv_complete.specs.Moves.{IsMove};

use crate::words::cuts::cut_of;
use crate::words::pieces::Move;
use crate::words::spot::Spot;
use pv_rules::{Membership, Site};

/// The members of a sequence from one on, of which others follow that end at `end`.
fn then_move(spot: &Spot<'_>, number: u32, end: u32) -> Move
    requires is { plain_site spot.now.site ≡ rest_site number }
    requires followed { (p r : PlainPart) × (ps : PlainParts) ×
        (rest_at (dtd_of spot.now.weights.grammar.now) number ≡ Some (part p (part r ps))) ×
        (end ≡ number + parts_in p) }
    ensures { IsMove (dtd_of spot.now.weights.grammar.now)
        (map plain_token spot.now.weights.word.now) (weight_of spot.now.weights.spans.now)
        (plain_site spot.now.site) spot.now.from spot.now.to result }
{
    let one = Site::Part(number);
    let two = Site::Rest(end);
    let Some(place) = cut_of(spot, one, two, spot.from, spot.to + 1) else {
        unreachable!();
    };
    Move::Two(one, place, two)
}

/// The members of a sequence from one on.
pub fn rest_move(spot: &Spot<'_>, number: u32) -> Move
    requires is { plain_site spot.now.site ≡ rest_site number }
    ensures { IsMove (dtd_of spot.now.weights.grammar.now)
        (map plain_token spot.now.weights.word.now) (weight_of spot.now.weights.spans.now)
        (plain_site spot.now.site) spot.now.from spot.now.to result }
{
    let Some(part) = spot.weights.grammar.part_of(number) else {
        unreachable!();
    };
    match part.membership {
        Membership::Outside => unreachable!(),
        Membership::Last => Move::One(Site::Part(number)),
        Membership::Followed => then_move(spot, number, part.end),
    }
}
