//! What those who hold a document answer to an edit.

ghost use Rattle.std.specs.Prelude.{◌≡◌};
ghost use Rattle.pv_edit.specs.Refusals.{refusal_of};
ghost use Rattle.pv_edit.specs.declared.answers.EditAnswer.TheVariants.{NoMemory as no_memory};

use crate::reasons::{EditError, Reason};
use pv_chars::{List, NoMemory};
use pv_tree::{Path, Verdict};

/// What an accepted change cost, and what it left.
///
/// A session prints them as `ok 2 1 0`.
#[derive(Clone, Copy, Debug, PartialEq, Eq)]
pub struct Done {
    /// The lists that were checked.
    pub checked: u32,
    /// The lists that are Possible after it.
    pub left: u64,
    /// The lists that are Impossible after it.
    pub bad: u64,
}

/// Why an edit isn't accepted.
///
/// A session prints the first three as `no shape not-element`, `no impossible 0.3` and `no limit`.
///
/// ```rust
/// let answer = EditAnswer::from(EditError::Shape(Reason::Range));
/// assert!(rt; matches!(answer, EditAnswer::Shape(Reason::Range)));
/// ```
#[derive(Debug, Drop)]
pub enum EditAnswer {
    /// It can't be made; this is the first reason.
    Shape(Reason),
    /// More lists would be impossible than before; this is the path of the first impossible one
    /// among the lists that it would change.
    Impossible(Path),
    /// The document would be past a limit.
    Limit,
    /// There was too little memory.
    NoMemory,
}

impl From<NoMemory> for EditAnswer {
    ghost from_gives = { λ _ e. e ≡ no_memory };

    fn from(_: NoMemory) -> EditAnswer {
        EditAnswer::NoMemory
    }
}

impl From<EditError> for EditAnswer {
    ghost from_gives = { λ error answer. answer ≡ refusal_of error };

    fn from(error: EditError) -> EditAnswer {
        match error {
            EditError::Shape(reason) => EditAnswer::Shape(reason),
            EditError::NoMemory => EditAnswer::NoMemory,
        }
    }
}

/// What is known of one list: its path, its verdict, and when it was last changed.
///
/// A session prints one as `0.3 valid 6`.
#[derive(Debug, Drop)]
pub struct VerdictRow {
    pub path: Path,
    pub verdict: Verdict,
    /// The number of the change that last changed the list.
    pub stamp: u64,
}

/// A row for each list of a document, in document order.
///
/// See `Session::verdict_rows` of pv_session.
pub type VerdictRows = List<VerdictRow>;
