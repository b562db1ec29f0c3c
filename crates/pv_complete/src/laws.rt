//! The laws of missing elements and of completions, each the contract of a function that does
//! nothing.

ghost use Rattle.pv_complete.specs.Laws.{SpelledWrites};
ghost use Rattle.pv_complete.specs.NeedLaws.{OneNeed};
ghost use Rattle.pv_complete.specs.MergingLaws.{BareIsCompleted, ElementIsCompleted};
ghost use Rattle.pv_complete.specs.MergingLaws.{LeafIsCompleted, MergedIsCompleted};

use pv_missing::laws::documents::live_lists_law;

/// A document has one answer to how many elements are missing in it: a least number, or one cause.
pub fn one_need_law<M>()
    ensures { OneNeed M }
{
    live_lists_law::<M>();
}

/// Pieces that are put together by the rules of the missing grammar, over a whole word, are a
/// completion of it.
pub fn spelled_law()
    ensures { SpelledWrites }
{}

/// The pieces of a list's completion, merged with its nodes, each completed by itself, are a
/// completed list.
pub fn merged_law<M>()
    ensures { MergedIsCompleted M }
{}

/// A text, a CDATA section, a comment or processing instruction is completed as it is.
pub fn leaf_law<M>()
    ensures { LeafIsCompleted M }
{}

/// An element whose content is a completed list, by pieces that make it fit, is completed.
pub fn element_law<M>()
    ensures { ElementIsCompleted M }
{}

/// An element without content, of which nothing is missing, is completed.
pub fn bare_law<M>()
    ensures { BareIsCompleted M }
{}
