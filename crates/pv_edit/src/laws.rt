//! Laws on edits and their inverses. `M` is a type of marks.

ghost use Rattle.pv_edit.specs.Laws.{EditsAreChanges, EditsChangeLists, EditsKeep};
ghost use Rattle.pv_edit.specs.Laws.{InversesChangeLists};
ghost use Rattle.pv_edit.specs.Laws.{InversesLeadBack, LeadsToOne};
ghost use Rattle.pv_edit.specs.Laws.{MarksDontCount, NewTextsMeanUnits, NodesAreCounted};
ghost use Rattle.pv_edit.specs.Laws.{OtherListsStay, OtherListsStayUndone, TagsKeepLeaves};

/// The document that an inverse makes of an edited one is the one that it leads back to.
pub fn leads_back_law<M>()
    ensures { LeadsToOne M }
{}

/// A text may be put into a document exactly where it means units and holds no literal CR or LF.
pub fn new_text_law()
    ensures { NewTextsMeanUnits }
{}

/// The inverse of an edit leads from the edited document back to the one before it.
pub fn inverse_law<M>()
    ensures { InversesLeadBack M }
{}

/// What a document keeps of its tree holds after an edit.
pub fn edits_keep_law<M>()
    ensures { EditsKeep M }
{}

/// An edit of tags keeps every leaf of the document in its order.
pub fn leaves_law<M>()
    ensures { TagsKeepLeaves M }
{}

/// A list that an edit doesn't change stood in the document before, with the same owner and the
/// same heads of kids.
pub fn other_lists_law<M>()
    ensures { OtherListsStay M }
{}

/// A list that doesn't change where an edit is taken back stood in the document before.
pub fn other_lists_undone_law<M>()
    ensures { OtherListsStayUndone M }
{}

/// An edit does the same whatever the marks of the document are.
pub fn marks_law<M>()
    ensures { MarksDontCount M }
{}

/// What an edit makes of a document is made by its change.
pub fn changes_law<M>()
    ensures { EditsAreChanges M }
{}

/// The lists that an edit and its inverse change are those that their changes change.
pub fn changed_lists_law<M>()
    ensures made { EditsChangeLists M }
    ensures undone { InversesChangeLists M }
{}

/// How many nodes a document has after an edit.
pub fn nodes_law<M>()
    ensures { NodesAreCounted M }
{}
