//! Laws on lists, their paths, and validity. `M` is a type of marks.

ghost use Rattle.pv_tree.specs.Laws.{IsBlank, IsValidByLists, ListsAscend, ListsStandAtPaths};
ghost use Rattle.pv_tree.specs.declared.nodes.Mark.{Mark};

/// A document is valid exactly where each of its lists is valid by itself.
pub fn valid_lists_law()
    ensures { IsValidByLists Mark }
{}

/// The lists of a document stand in the order of their paths, no two of which are the same.
pub fn lists_ascend_law<M>()
    ensures { ListsAscend M }
{}

/// The lists of a document are those that stand at paths of it, each at its own.
pub fn list_at_law<M>()
    ensures { ListsStandAtPaths M }
{}

/// `Mark::BLANK` is the mark of a list that nothing is known of.
pub fn blank_mark_law()
    ensures { IsBlank }
{}
