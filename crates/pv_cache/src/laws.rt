//! Laws of well marked documents, and of the grounds on which edits are refused. `M` and `N` are
//! types of marks.

ghost use Rattle.pv_cache.specs.GroundLaws.{AcceptedExactlyWithoutGround, AcceptedHasNoGround};
ghost use Rattle.pv_cache.specs.GroundLaws.{AcceptsThePossible, HasOneGround};
ghost use Rattle.pv_cache.specs.Laws.{FirstIsFirstAmong, HasOneBad, HasOneOpen, HasOneRows};
ghost use Rattle.pv_cache.specs.Laws.{MarksTell, UpdatedIsCounted, UpdatedIsMarked};
ghost use Rattle.pv_cache.specs.Laws.{UpdatesKeepDocuments};
ghost use Rattle.pv_cache.specs.MarkLaws.{HoldsByOtherMarks};

use pv_edit::laws::{changed_lists_law, changes_law};
use pv_missing::laws::verdicts::none_impossible_law;
use pv_tree::Mark;

/// The marks of a well marked document tell the verdicts of all its lists, how many are Possible,
/// how many Impossible, and how many nodes there are. No list is too wide.
pub fn marks_tell_law()
    ensures { MarksTell }
{}

/// A well marked document is well marked after a change too, once its marks are updated.
pub fn updated_law()
    ensures { UpdatedIsMarked }
{}

/// A change changes the number of Impossible lists by those alone that it takes away or changes.
pub fn updated_count_law()
    ensures { UpdatedIsCounted }
{}

/// Updating changes marks alone.
pub fn updates_keep_documents_law()
    ensures { UpdatesKeepDocuments }
{}

/// The rows of a document are one list.
pub fn one_rows_law()
    ensures { HasOneRows }
{}

/// The number of a document's Possible lists is one number.
pub fn one_open_law()
    ensures { HasOneOpen }
{}

/// The number of its Impossible lists is one number.
pub fn one_bad_law()
    ensures { HasOneBad }
{}

/// What holds of a document holds of it with other marks.
pub fn other_marks_law<M, N>()
    ensures { HoldsByOtherMarks M N }
{}

/// The first impossible one of the lists that a change changes is the first whose verdict is
/// Impossible.
pub fn first_impossible_law()
    ensures { FirstIsFirstAmong }
{}

/// An accepted edit has no ground to be refused on.
pub fn accepted_law<M, N>()
    ensures { AcceptedHasNoGround M N }
{}

/// An edit that can be made is accepted exactly where it has no ground to be refused on.
pub fn without_ground_law<M>()
    ensures { AcceptedExactlyWithoutGround M }
{
    changes_law::<Mark>();
    changed_lists_law::<Mark>();
}

/// Where no list is impossible, an edit is accepted exactly where inserting elements can make the
/// edited document valid, and it is within the limits.
pub fn accepts_possible_law<M>()
    ensures { AcceptsThePossible M }
{
    none_impossible_law::<M>();
}

/// An edit has one ground at most.
pub fn one_ground_law<M>()
    ensures { HasOneGround M }
{}
