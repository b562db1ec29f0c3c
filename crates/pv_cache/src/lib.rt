//! Documents whose marks tell the verdict of each list, so that a change asks for those of the
//! lists that it changes alone.
//!
//! `specs/WellMarked.antt` says what the marks of a well marked document tell: of each list its
//! verdict, and of each subtree how many of its lists are Possible and how many nodes it has.
//! `Marked` holds one, the `PlannedGrammar` that it is judged by, and the number of its Impossible
//! lists. An edit is accepted by `IsAccepted` (specs/AcceptedEdits.antt): the words of the lists
//! that it changes are made beside the tree, and their verdicts found, in at most two steps; where
//! none of them is too wide, and no more of them are Impossible than of the lists that they stand
//! for (`bad_lost`, `bad_gained` in specs/BadLists.antt), the change is made and the marks are told
//! again, at the changed lists and above them. The changed lists get the stamp of the move, and all
//! others keep theirs (`IsEdited`, `IsReverted` in specs/Moves.antt). The tokens of three lists are
//! kept, of the one that was changed last and of two that an edit was asked of, so that the next
//! edit in each looks up the names alone of what comes, also where it is refused; and beside the
//! grammar a long word that was judged last is remembered, so that the next one is judged by where
//! it differs. Edits that are tried in one list again and again are judged so too, though they are
//! refused.
#![tactic(auto)]

mod bad_lists;
mod changing;
mod deciding;
mod firsts;
mod judging;
mod keeping;
mod kept_lists;
pub mod laws;
mod laying;
mod marked;
mod moving;
mod planned;
mod rows;
mod task_words;
mod told;
mod updates;
mod verdicts;
mod well_marked;
mod words;

pub use marked::Marked;
pub use planned::PlannedGrammar;
