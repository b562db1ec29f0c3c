//! What the tests of a pack show, each the contract of a function that does nothing. `M` is the
//! type of a document's marks.

ghost use Rattle.pv_verify.specs.Laws.{AcceptedIsLeast, MadeIsAccepted, OneAnswer};

use pv_missing::laws::documents::{some_bounds_law, tags_extend_law};
use pv_missing::laws::lists::closed_is_bound_law;
use pv_read::laws::one_meaning_law;
use pv_table_check::laws::tables_closed_law;
use pv_tables::laws::{one_list_at_path_law, tables_add_up_law};

/// What passes all tests is a least completion.
pub fn certified_law<M>()
    ensures { AcceptedIsLeast M }
{
    some_bounds_law::<M>();
    tags_extend_law();
    closed_is_bound_law::<M>();
    one_list_at_path_law::<M>();
}

/// A pack fails at most one test first, and is accepted only where it fails none.
pub fn one_answer_law<M>()
    ensures { OneAnswer M }
{
    one_meaning_law();
}

/// The pack of a least completion and of the tables of its document passes all tests.
pub fn made_pack_law<M>()
    ensures { MadeIsAccepted M }
{
    tables_closed_law::<M>();
    tables_add_up_law::<M>();
}
