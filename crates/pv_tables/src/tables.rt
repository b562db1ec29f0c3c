//! Tables of weights, and their entries.

use pv_chars::List;
use pv_rules::Site;
use pv_tree::Path;

/// How many entries all tables of a document may have.
pub const MAX_ENTRIES: u32 = 8_388_608;

/// The weight of a site over the tokens from number `from` up to number `to`, which is left out.
#[derive(Clone, Copy, Debug, PartialEq, Eq)]
pub struct Entry {
    pub site: Site,
    pub from: u32,
    pub to: u32,
    pub value: u32,
}

/// A list of entries.
pub type Entries = List<Entry>;

/// The weights of the list at a path.
#[derive(Debug, Drop)]
pub struct Table {
    pub path: Path,
    pub entries: Entries,
}

/// A list of tables.
pub type Tables = List<Table>;
