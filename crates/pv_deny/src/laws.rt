//! The laws of denials, each the contract of a function that does nothing. `M` is the type of a
//! document's marks.

ghost use Rattle.pv_deny.specs.Laws.{DenialIsInOrder, DenialIsJudged, FurthestIsBarrier, OneDenial};
ghost use Rattle.pv_deny.specs.Laws.{OneOutcome};

use pv_missing::laws::documents::live_lists_law;
use pv_missing::laws::lists::known_word_law;
use pv_missing::laws::words::{
    live_follows_law, one_live_word_law, owner_productive_law, possible_derives_law,
};
use pv_reach::laws::spans_within_law;
use pv_tables::laws::one_list_at_path_law;

/// Rows of furthest places are a barrier.
pub fn furthest_barrier_law()
    ensures { FurthestIsBarrier }
{
    spans_within_law();
}

/// What denies a document passes all tests of its judge.
pub fn denial_judged_law<M>()
    ensures { DenialIsJudged M }
{
    spans_within_law();
    furthest_barrier_law();
    known_word_law::<M>();
    live_follows_law();
    one_live_word_law();
    owner_productive_law();
    possible_derives_law();
}

/// A document has one denial at most, and none where its rows would have too many values; what its
/// DTD is, is not asked.
pub fn one_denial_law<M>()
    ensures { OneDenial M }
{
    one_list_at_path_law::<M>();
    one_live_word_law();
}

/// A document has one denial at most, and none where another answer holds.
pub fn one_outcome_law<M>()
    ensures { OneOutcome M }
{
    live_lists_law::<M>();
    one_list_at_path_law::<M>();
    one_live_word_law();
}

/// The rows of a denial of a document stand in order, each with a value, and have no more than
/// there may be: its text is read again.
pub fn denial_in_order_law<M>()
    ensures { DenialIsInOrder M }
{}
