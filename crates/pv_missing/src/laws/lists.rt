//! Laws of one list. `M` is the type of marks.

ghost use Rattle.pv_missing.specs.ListLaws.{ClosedIsBound, DerivationsMiss, HereExtends, KnownWord};
ghost use Rattle.pv_missing.specs.ListLaws.{LiveMisses, NoneMissingIsValid, OneFirst, OneList};
ghost use Rattle.pv_missing.specs.ListLaws.{OneVerdict};
ghost use Rattle.pv_missing.specs.ListLaws.{OwnValidIsLive, RootList, ValidMissesNone};
ghost use Rattle.pv_missing.specs.ListLaws.{WeightIsLeast};

/// The live word of an element is possible exactly where elements inserted at its own level make
/// its content fit.
pub fn one_list_law()
    ensures { OneList }
{}

/// The live word of the document node is possible exactly where elements inserted at its level make
/// it fit.
pub fn root_list_law()
    ensures { RootList }
{}

/// Elements inserted at one level make an extension.
pub fn here_extends_law()
    ensures { HereExtends }
{}

/// A list that is valid by itself, whose owner and names are productive, is not impossible.
pub fn own_valid_law<M>()
    ensures { OwnValidIsLive M }
{}

/// A list is live exactly where some number of elements is missing in it.
pub fn live_misses_law<M>()
    ensures { LiveMisses M }
{}

/// In a list that is valid nothing is missing, and it weighs 0.
pub fn valid_misses_none_law<M>()
    ensures { ValidMissesNone M }
{}

/// A list in which nothing is missing is valid by itself.
pub fn none_missing_law<M>()
    ensures { NoneMissingIsValid M }
{}

/// What the whole word of a live list derives is what is missing in the list.
pub fn derivations_miss_law<M>()
    ensures { DerivationsMiss M }
{}

/// The value of a closed table at the whole word of a list is at most each number missing in it.
pub fn closed_is_bound_law<M>()
    ensures { ClosedIsBound M }
{}

/// The weight of a live list is at most each number missing in it, and is such a number where it
/// isn't cut.
pub fn weight_is_least_law<M>()
    ensures { WeightIsLeast M }
{}

/// A list has at most one verdict.
pub fn one_verdict_law<M>()
    ensures { OneVerdict M }
{}

/// At most one list is the first impossible one.
pub fn one_first_law<M>()
    ensures { OneFirst M }
{}

/// The DTD has each name in the word of a list.
pub fn known_word_law<M>()
    ensures { KnownWord M }
{}
