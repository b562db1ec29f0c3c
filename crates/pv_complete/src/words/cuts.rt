//! Where a span is cut between two sites, so that they weigh as much together as a site over it.

ghost use Rattle.std.specs.Prelude.{◌≡◌, ◌≢◌, ◌≤◌, ◌<◌, ◌+◌, ℕ, IfSome, IfNone, suc};
ghost use Rattle.pv_rules.specs.PlainForms.{plain_site};
ghost use Rattle.pv_rules.specs.Rules.{over};
ghost use Rattle.pv_span.specs.Weights.{weight_of};

use crate::words::spot::Spot;
use pv_rules::Site;

/// The first place from `low` up to `high`, which is left out, at which two sites weigh as much
/// together, `one` before it and `two` after it.
pub fn cut_of(spot: &Spot<'_>, one: Site, two: Site, low: u32, high: u32) -> Option<u32>
    requires { (spot.now.from ≤ low) × (low ≤ high) × (high ≤ suc spot.now.to) }
    ensures found { IfSome result (λ place. (low ≤ place) × (place < high) ×
        (spot.now.weight ≡
        weight_of spot.now.weights.spans.now (over (plain_site one) spot.now.from place) +
        weight_of spot.now.weights.spans.now (over (plain_site two) place spot.now.to))) }
    ensures none { IfNone result ((place : ℕ) → low ≤ place → place < high →
        spot.now.weight ≢
        weight_of spot.now.weights.spans.now (over (plain_site one) spot.now.from place) +
        weight_of spot.now.weights.spans.now (over (plain_site two) place spot.now.to)) }
{
    for place in low..high {
        let before = spot.weight_over(one, spot.from, place);
        if before + spot.weight_over(two, place, spot.to) == spot.weight {
            return Some(place);
        }
    }
    None
}
