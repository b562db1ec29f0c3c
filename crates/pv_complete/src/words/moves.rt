//! How the pieces of a site over a span are put together, by the weights of all sites.

ghost use Rattle.std.specs.Prelude.{map};
ghost use Rattle.pv_model.specs.PlainForms.{plain_token};
ghost use Rattle.pv_rules.specs.PlainForms.{plain_site};
ghost use Rattle.pv_productive.specs.PlainForms.{dtd_of};
ghost use Rattle.pv_span.specs.Weights.{weight_of};
ghost use Rattle.pv_complete.specs.Moves.{IsMove};

use crate::words::contents::{content_move, name_move};
use crate::words::members::rest_move;
use crate::words::particles::part_move;
use crate::words::pieces::Move;
use crate::words::spot::Spot;
use pv_rules::Site;

/// How the pieces of a site over a span are put together.
pub fn move_of(spot: &Spot<'_>) -> Move
    ensures { IsMove (dtd_of spot.now.weights.grammar.now)
        (map plain_token spot.now.weights.word.now) (weight_of spot.now.weights.spans.now)
        (plain_site spot.now.site) spot.now.from spot.now.to result }
{
    match spot.site {
        Site::Name(id) => name_move(spot, id),
        Site::Content(id) => content_move(spot, id),
        Site::Part(number) => part_move(spot, number),
        Site::Rest(number) => rest_move(spot, number),
    }
}
