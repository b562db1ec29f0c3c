//! What the content of a name may go on after: an element of a listed name, or of a declared one.

ghost use Rattle.std.specs.Prelude.{◌≤◌, ◌<◌, ◌+◌, IfSome, IfNone, Some};
ghost use Rattle.pv_model.specs.Plain.{part};
ghost use Rattle.pv_rules.specs.Sites.{name_site, part_site};
ghost use Rattle.pv_span.specs.Weights.{weight_of};
ghost use Rattle.pv_complete.specs.Moves.{IsItem, IsNoItem};

use crate::words::cuts::cut_of;
use crate::words::pieces::Move;
use crate::words::spot::Spot;
use pv_model::NameId;
use pv_rules::Site;

/// The first part from number `first` up to `end`, which is left out, after which the content of
/// the name may go on.
pub fn listed_move(spot: &Spot<'_>, id: NameId, first: u32, end: u32) -> Option<Move>
    requires listed { first ≤ end }
    requires some { spot.now.from < spot.now.to }
    ensures found { IfSome result (IsItem (weight_of spot.now.weights.spans.now) part_site first end
        id.0 spot.now.from spot.now.to spot.now.weight) }
    ensures none { IfNone result (IsNoItem (weight_of spot.now.weights.spans.now) part_site
        first end id.0 spot.now.from spot.now.to spot.now.weight) }
{
    for number in first..end {
        let one = Site::Part(number);
        let two = Site::Content(id);
        if let Some(place) = cut_of(spot, one, two, spot.from + 1, spot.to + 1) {
            return Some(Move::Two(one, place, two));
        }
    }
    None
}

/// The first declared name after an element of which the content of the name may go on.
pub fn declared_move(spot: &Spot<'_>, id: NameId, count: u32) -> Option<Move>
    requires { spot.now.from < spot.now.to }
    ensures found { IfSome result (IsItem (weight_of spot.now.weights.spans.now) name_site 0 count
        id.0 spot.now.from spot.now.to spot.now.weight) }
    ensures none { IfNone result (IsNoItem (weight_of spot.now.weights.spans.now) name_site
        0 count id.0 spot.now.from spot.now.to spot.now.weight) }
{
    for name in 0..count {
        let one = Site::Name(NameId(name));
        let two = Site::Content(id);
        if let Some(place) = cut_of(spot, one, two, spot.from + 1, spot.to + 1) {
            return Some(Move::Two(one, place, two));
        }
    }
    None
}
