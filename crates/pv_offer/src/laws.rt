//! Laws of offers. `M` is a type of marks.

ghost use Rattle.pv_offer.specs.Laws.{AskedHasNoGround, HasOneOffer, HasOneOfferGround};
ghost use Rattle.pv_offer.specs.Laws.{LimitsDontTellNames, OffersExactly, ReasonsDontTellNames};
ghost use Rattle.pv_offer.specs.Laws.{RenamesAreWithin, TriedAsOffered};

use pv_cache::laws::accepted_law;
use pv_tree::laws::list_at_law;

/// Why an edit can't be made doesn't depend on which Name is given.
pub fn reasons_law<M>()
    ensures { ReasonsDontTellNames M }
{}

/// Whether the edited document is within the limits doesn't depend on which name is given.
pub fn limits_law<M>()
    ensures { LimitsDontTellNames M }
{}

/// A rename leaves a document within the limits.
pub fn renames_law<M>()
    ensures { RenamesAreWithin M }
{
    list_at_law::<M>();
}

/// There is one list of offered names.
pub fn one_offer_law()
    ensures { HasOneOffer }
{}

/// There is one ground on which nothing is offered; want of memory aside.
pub fn one_ground_law()
    ensures { HasOneOfferGround }
{}

/// Each offered name may be put there, and a declared name that isn't among them may not.
pub fn offered_law()
    ensures { OffersExactly }
{}

/// Where names may be asked of, there is no ground to offer nothing.
pub fn no_ground_law()
    ensures { AskedHasNoGround }
{}

/// Where names may be asked of, a Name that is tried is refused only where it isn't offered, and
/// then for Impossible lists alone; want of memory aside.
pub fn tried_law()
    ensures { TriedAsOffered }
{
    accepted_law::<u64, u64>();
}
