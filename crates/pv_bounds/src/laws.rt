//! The law of bounds, the contract of a function that does nothing. `M` is the type of a document's
//! marks.

ghost use Rattle.pv_bounds.specs.Laws.{BelowSitesIsBound};

use pv_missing::laws::lists::{derivations_miss_law, live_misses_law};

/// A table of bounds tells of a list how many elements are missing in it at least.
pub fn below_sites_law<M>()
    ensures { BelowSitesIsBound M }
{
    live_misses_law::<M>();
    derivations_miss_law::<M>();
}
