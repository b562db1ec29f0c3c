//! What the tests of a denial show, each the contract of a function that does nothing. `M` is the
//! type of a document's marks.

ghost use Rattle.pv_denial.specs.Laws.{DeniedIsImpossible, DeniedListIsImpossible, OneJudged};

use pv_missing::laws::documents::live_lists_law;
use pv_missing::laws::words::{live_follows_law, owner_productive_law, possible_derives_law};
use pv_rules::laws::{barrier_law, barrier_rows_law};
use pv_tables::laws::one_list_at_path_law;

/// The list of a denial that passes all tests is impossible, whoever made the denial.
pub fn denied_list_law<M>()
    ensures { DeniedListIsImpossible M }
{
    live_follows_law();
    owner_productive_law();
    possible_derives_law();
    barrier_law();
    barrier_rows_law();
}

/// So no insertions make the document valid.
pub fn denied_law<M>()
    ensures { DeniedIsImpossible M }
{
    denied_list_law::<M>();
    live_lists_law::<M>();
}

/// A denial is judged to be one thing only, and isn't where its list is too wide.
pub fn one_judged_law<M>()
    ensures { OneJudged M }
{
    one_list_at_path_law::<M>();
}
