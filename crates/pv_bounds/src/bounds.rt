//! Bounds that are read off fronts.

ghost use Rattle.std.specs.Prelude.{◌≡◌};
ghost use Rattle.pv_rules.specs.PlainForms.{plain_site};
ghost use Rattle.pv_rules.specs.Rules.{over};
ghost use Rattle.pv_bounds.specs.Fronts.{front_value};

use crate::fronts::Fronts;
use pv_layout::ColumnLayout;
use pv_rules::Site;

/// What fronts tell of a site over a whole word of so many tokens: where they are closed, how many
/// elements are missing there at least. It is 1,000,001 where they tell of no way.
pub fn bound(layout: &ColumnLayout<'_>, fronts: &Fronts, site: Site, tokens: u32) -> u32
    ensures { result ≡ front_value layout.now fronts.now (over (plain_site site) 0 tokens) }
{
    fronts.cost(layout.column(site), 0, tokens)
}
