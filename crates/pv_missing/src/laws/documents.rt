//! Laws of whole documents. `M` is the type of marks, and `N` that of the marks of a completion.

ghost use Rattle.pv_missing.specs.DocumentLaws.{BlanksChangeNothing, BoundsAddUp};
ghost use Rattle.pv_missing.specs.DocumentLaws.{CompletionsInsert};
ghost use Rattle.pv_missing.specs.DocumentLaws.{CutsChangeNothing, ExtensionsComplete};
ghost use Rattle.pv_missing.specs.DocumentLaws.{ExtensionsHaveTags, IsPotentiallyValidByLists};
ghost use Rattle.pv_missing.specs.DocumentLaws.{KeepsLeaves, LevelsAgree, Locality, NumbersAddUp};
ghost use Rattle.pv_missing.specs.DocumentLaws.{PossibleAreMissing};
ghost use Rattle.pv_missing.specs.DocumentLaws.{SomeBounds, SomeNumber, TagsExtend, WeightsAddUp};

/// A document is potentially valid exactly where each of its lists is live.
pub fn live_lists_law<M>()
    ensures { IsPotentiallyValidByLists M }
{}

/// So it is exactly where no list of it is impossible.
pub fn locality_law<M>()
    ensures { Locality M }
{}

/// As many elements can be inserted to make a document valid as are missing in its lists in all.
pub fn numbers_add_up_law<M>()
    ensures { NumbersAddUp M }
{}

/// The weights of the lists add up to the least number of missing elements.
pub fn weights_add_up_law<M>()
    ensures { WeightsAddUp M }
{}

/// A sum of bounds of the lists is at most the number of each completion.
pub fn bounds_add_up_law<M>()
    ensures { BoundsAddUp M }
{}

/// So is the number of the lists that are Possible.
pub fn possible_missing_law<M>()
    ensures { PossibleAreMissing M }
{}

/// So is a sum of bounds at ascending paths of some of the lists.
pub fn some_bounds_law<M>()
    ensures { SomeBounds M }
{}

/// A hedge is potentially valid exactly where some number of elements can be inserted to make it
/// valid.
pub fn some_number_law()
    ensures { SomeNumber }
{}

/// Whether insertions may cut texts changes neither potential validity nor the least number.
pub fn cuts_law<M>()
    ensures { CutsChangeNothing M }
{}

/// White units and misc outside EMPTY elements change neither potential validity nor the least
/// number.
pub fn blanks_law()
    ensures { BlanksChangeNothing }
{}

/// Elements whose tags can be left out make an extension by as many.
pub fn tags_extend_law()
    ensures { TagsExtend }
{}

/// Each extension can be shown by tags left out.
pub fn has_tags_law()
    ensures { ExtensionsHaveTags }
{}

/// An extension keeps all text, comments and processing instructions, in their order.
pub fn keeps_leaves_law()
    ensures { KeepsLeaves }
{}

/// What is made level by level, by so many elements, is an extension by as many whose elements are
/// good, and each such extension is.
pub fn levels_law()
    ensures { LevelsAgree }
{}

/// A completion makes the document valid by as many elements as it says.
pub fn completions_insert_law<M, N>()
    ensures { CompletionsInsert M N }
{}

/// Each valid extension is a completion.
pub fn extensions_complete_law<M, N>()
    ensures { ExtensionsComplete M N }
{}
