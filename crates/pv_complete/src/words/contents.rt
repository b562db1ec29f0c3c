//! How the pieces of an element of a name, and of its content, are put together.

ghost use Rattle.std.specs.Prelude.{◌≡◌, ◌<◌, ◌+◌, ◌↔◌, ℕ, IsTrue, List, Some, length, map};
ghost use Rattle.std.specs.Prelude.{slice_get, suc};
ghost use Rattle.pv_model.specs.Plain.{any, mixed, text};
ghost use Rattle.pv_model.specs.PlainForms.{plain_token};
ghost use Rattle.pv_dtd.specs.Plain.{model_of};
ghost use Rattle.pv_rules.specs.Numbering.{first_part};
ghost use Rattle.pv_rules.specs.PlainForms.{plain_site};
ghost use Rattle.pv_rules.specs.Rules.{over};
ghost use Rattle.pv_rules.specs.Sites.{content_site, name_site};
ghost use Rattle.pv_productive.specs.PlainForms.{dtd_of};
ghost use Rattle.pv_span.specs.Weights.{weight_of};
ghost use Rattle.pv_complete.specs.Moves.{IsMove};

use crate::words::items::{declared_move, listed_move};
use crate::words::pieces::Move;
use crate::words::spot::Spot;
use pv_model::{NameId, is_element_over, is_text_at};
use pv_rules::{ContentKind, FlatContent, Site};

/// Whether a text stands in front of the span, and the site weighs as much after it.
fn is_text_move(spot: &Spot<'_>) -> bool
    requires { spot.now.from < spot.now.to }
    ensures { IsTrue result ↔
        ((slice_get (map plain_token spot.now.weights.word.now) spot.now.from ≡ Some text) ×
        (spot.now.weight ≡ weight_of spot.now.weights.spans.now
        (over (plain_site spot.now.site) (suc spot.now.from) spot.now.to))) }
{
    is_text_at(spot.weights.word, spot.from)
        && spot.weight_over(spot.site, spot.from + 1, spot.to) == spot.weight
}

/// An element of a name.
pub fn name_move(spot: &Spot<'_>, id: NameId) -> Move
    requires is { plain_site spot.now.site ≡ name_site id.0 }
    ensures { IsMove (dtd_of spot.now.weights.grammar.now)
        (map plain_token spot.now.weights.word.now) (weight_of spot.now.weights.spans.now)
        (plain_site spot.now.site) spot.now.from spot.now.to result }
{
    if is_element_over(spot.weights.word, id, spot.from, spot.to) {
        Move::Kept
    } else {
        Move::New(id)
    }
}

/// The content of a name whose model is mixed.
fn mixed_move(spot: &Spot<'_>, id: NameId, content: FlatContent) -> Move
    requires is { plain_site spot.now.site ≡ content_site id.0 }
    requires mixed { (names : List ℕ) ×
        (model_of (dtd_of spot.now.weights.grammar.now) id.0 ≡ Some (mixed names)) ×
        (content.first ≡ first_part (dtd_of spot.now.weights.grammar.now) id.0) ×
        (content.end ≡ first_part (dtd_of spot.now.weights.grammar.now) id.0 + length names) }
    ensures { IsMove (dtd_of spot.now.weights.grammar.now)
        (map plain_token spot.now.weights.word.now) (weight_of spot.now.weights.spans.now)
        (plain_site spot.now.site) spot.now.from spot.now.to result }
{
    if spot.from == spot.to {
        return Move::Nothing;
    }
    if is_text_move(spot) {
        return Move::Text;
    }
    let Some(found) = listed_move(spot, id, content.first, content.end) else {
        unreachable!();
    };
    found
}

/// The content of a name whose model is ANY.
fn any_move(spot: &Spot<'_>, id: NameId) -> Move
    requires is { plain_site spot.now.site ≡ content_site id.0 }
    requires any { model_of (dtd_of spot.now.weights.grammar.now) id.0 ≡ Some any }
    ensures { IsMove (dtd_of spot.now.weights.grammar.now)
        (map plain_token spot.now.weights.word.now) (weight_of spot.now.weights.spans.now)
        (plain_site spot.now.site) spot.now.from spot.now.to result }
{
    if spot.from == spot.to {
        return Move::Nothing;
    }
    if is_text_move(spot) {
        return Move::Text;
    }
    let count = spot.weights.grammar.dtd().count();
    let Some(found) = declared_move(spot, id, count) else {
        unreachable!();
    };
    found
}

/// The content of a name.
pub fn content_move(spot: &Spot<'_>, id: NameId) -> Move
    requires is { plain_site spot.now.site ≡ content_site id.0 }
    ensures { IsMove (dtd_of spot.now.weights.grammar.now)
        (map plain_token spot.now.weights.word.now) (weight_of spot.now.weights.spans.now)
        (plain_site spot.now.site) spot.now.from spot.now.to result }
{
    let Some(content) = spot.weights.grammar.content_of(id) else {
        unreachable!();
    };
    match content.kind {
        ContentKind::Empty => Move::Nothing,
        ContentKind::Any => any_move(spot, id),
        ContentKind::Mixed => mixed_move(spot, id, content),
        ContentKind::Children => Move::One(Site::Part(content.first)),
    }
}
