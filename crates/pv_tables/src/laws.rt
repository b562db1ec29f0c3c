//! The laws of tables and of the weights of lists, each the contract of a function that does
//! nothing. `M` is a type of marks.

ghost use Rattle.pv_tables.specs.TableLaws.{EntriesAreClosed, EntriesAreWeights, OneTables};
ghost use Rattle.pv_tables.specs.TableLaws.{GoalsAreTold, ListedOrNot, OneListAtPath};
ghost use Rattle.pv_tables.specs.TableLaws.{SitesAreTold, TablesAddUp};
ghost use Rattle.pv_tables.specs.WeightLaws.{LiveIsWord, LiveWeight, PossibleWeightsAddUp};

use pv_missing::laws::documents::{live_lists_law, weights_add_up_law};
use pv_missing::laws::lists::valid_misses_none_law;
use pv_missing::laws::words::{live_follows_law, one_live_word_law};
use pv_rules::laws::spans_law;
use pv_tree::laws::lists_ascend_law;

/// The value that entries give a site over a span is that of one of them, or 1,000,001 where none
/// has that site and span.
pub fn listed_or_not_law()
    ensures { ListedOrNot }
{}

/// The test for the same site and span holds exactly of the same.
pub fn goals_law()
    ensures { GoalsAreTold }
{}

/// A site is told by its kind and its number.
pub fn sites_law()
    ensures { SitesAreTold }
{}

/// A list of a document is told by its path.
pub fn one_list_at_path_law<M>()
    ensures { OneListAtPath M }
{
    lists_ascend_law::<M>();
}

/// The live word of a live list is its word.
pub fn live_is_word_law<M>()
    ensures { LiveIsWord M }
{
    live_follows_law();
    one_live_word_law();
}

/// The live word of a live list may be weighed in place of its word.
pub fn live_weight_law<M>()
    ensures { LiveWeight M }
{
    live_follows_law();
    one_live_word_law();
}

/// The weights of the Possible lists add up to the least number of elements whose insertion makes a
/// document valid.
pub fn possible_weights_law<M>()
    ensures { PossibleWeightsAddUp M }
{
    live_follows_law();
    one_live_word_law();
    valid_misses_none_law::<M>();
    live_lists_law::<M>();
    weights_add_up_law::<M>();
}

/// The lists of a document have one list of tables.
pub fn one_tables_law<M>()
    ensures { OneTables M }
{
    one_live_word_law();
}

/// What all light entries of a word give a site over a span is its weight: an unlisted one is past
/// the cut.
pub fn entries_are_weights_law()
    ensures { EntriesAreWeights }
{}

/// All light entries of a word, read as a table where an unlisted site and span has the value
/// 1,000,001, are closed.
pub fn entries_closed_law()
    ensures { EntriesAreClosed }
{
    spans_law();
}

/// The whole-list values of the tables of a document add up to the least number of elements whose
/// insertion makes it valid.
pub fn tables_add_up_law<M>()
    ensures { TablesAddUp M }
{
    live_follows_law();
    one_live_word_law();
    valid_misses_none_law::<M>();
    lists_ascend_law::<M>();
    live_lists_law::<M>();
    weights_add_up_law::<M>();
}
