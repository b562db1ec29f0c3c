//! Laws of verdicts. `M` and `N` are types of marks.

ghost use Rattle.pv_missing.specs.VerdictLaws.{FirstImpossibleAt, ImpossibleHasFirst};
ghost use Rattle.pv_missing.specs.VerdictLaws.{NoneImpossible, NonePossible, OneCount};
ghost use Rattle.pv_missing.specs.VerdictLaws.{OneListOfVerdicts, SameCounts, SameVerdicts};
ghost use Rattle.pv_missing.specs.VerdictLaws.{VerdictByHeads, VerdictByWord, VerdictsByNumber};

/// Lists have at most one list of verdicts.
pub fn one_list_of_verdicts_law<M>()
    ensures { OneListOfVerdicts M }
{}

/// Some verdict is Impossible exactly where there is a first impossible list.
pub fn impossible_has_first_law<M>()
    ensures { ImpossibleHasFirst M }
{}

/// A verdict looks at the owner and at the heads of the kids alone.
pub fn verdict_by_heads_law<M, N>()
    ensures { VerdictByHeads M N }
{}

/// A verdict looks at the owner's site, at the word, and at whether there are no kids of any kind.
pub fn verdict_by_word_law<M>()
    ensures { VerdictByWord M }
{}

/// A document is valid exactly where it is potentially valid and none of its lists is Possible.
pub fn none_possible_law<M>()
    ensures { NonePossible M }
{}

/// A document is potentially valid exactly where the number of its Impossible lists is 0.
pub fn none_impossible_law<M>()
    ensures { NoneImpossible M }
{}

/// Lists have verdicts in their order exactly where there are as many, and each is that of the list
/// of its number.
pub fn verdict_zip_law<M>()
    ensures { VerdictsByNumber M }
{}

/// The path of the first impossible list is that of the list whose number the first Impossible
/// verdict has.
pub fn first_impossible_at_law<M>()
    ensures { FirstImpossibleAt M }
{}

/// Lists have at most one number of verdicts that pass a test.
pub fn one_count_law<M>()
    ensures { OneCount M }
{}

/// It is the same for documents that differ in their marks alone.
pub fn same_counts_law<M, N>()
    ensures { SameCounts M N }
{}

/// And so are the verdicts.
pub fn same_verdicts_law<M, N>()
    ensures { SameVerdicts M N }
{}
