//! Denials, and what a judge answers.

use pv_chars::{List, Numbers};
use pv_rules::Site;
use pv_tree::Path;

/// How many values all rows of a denial may have.
pub const MAX_VALUES: u32 = 8_388_608;

/// Why a list is impossible: the first of these that fits.
#[derive(Clone, Copy, Debug, PartialEq, Eq)]
pub enum Cause {
    /// The DTD doesn't have the name of its owner; that of the document node is the root's.
    Undeclared,
    /// No element of that name is ever valid.
    Unproductive,
    /// An element that is declared EMPTY has kids.
    Empty,
    /// Its word isn't possible.
    Word,
}

/// The places of a site: for each place of a word, one at which or before which all derivations
/// from there end.
#[derive(Debug, Drop)]
pub struct Row {
    pub site: Site,
    pub values: Numbers,
}

/// Rows of sites.
pub type Rows = List<Row>;

/// A list that can't be mended, and what shows it.
#[derive(Debug, Drop)]
pub struct Denial {
    /// Where the list stands.
    pub path: Path,
    /// Why it is impossible.
    pub cause: Cause,
    /// For its word, rows that no derivation leads beyond; else none.
    pub rows: Rows,
}

/// The first test that a denial fails.
#[derive(Clone, Copy, Debug, PartialEq, Eq)]
pub enum Flaw {
    /// No list stands at the path.
    List,
    /// The cause doesn't hold, or has rows that it has no use for.
    Cause,
    /// The rows are no barrier for the list's word.
    Table,
    /// The rows let a derivation through.
    Reached,
}

/// Whether a denial is right.
#[derive(Clone, Copy, Debug, PartialEq, Eq)]
pub enum Judged {
    /// No insertions make the document valid.
    Denied,
    /// The denial fails a test.
    Rejected(Flaw),
}
