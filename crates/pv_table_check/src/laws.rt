//! The law of closed tables, the contract of a function that does nothing. `M` is the type of a
//! document's marks.

ghost use Rattle.pv_table_check.specs.Laws.{TablesAreClosed};

use pv_missing::laws::lists::known_word_law;
use pv_tables::laws::{entries_closed_law, live_is_word_law};
use pv_tree::laws::lists_ascend_law;

/// The tables of a document are closed.
pub fn tables_closed_law<M>()
    ensures { TablesAreClosed M }
{
    entries_closed_law();
    live_is_word_law::<M>();
    known_word_law::<M>();
    lists_ascend_law::<M>();
}
