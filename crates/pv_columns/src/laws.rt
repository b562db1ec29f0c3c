//! The laws of columns, each the contract of a function that does nothing.

ghost use Rattle.pv_columns.specs.ColumnRules.{EndsAreIntervals};
ghost use Rattle.pv_columns.specs.Laws.{ClosedMarksAreLive, FreeReachesTaken, TakesReachesOne};

/// A column takes a token exactly where it reaches over that one.
pub fn takes_law()
    ensures { TakesReachesOne }
{}

/// A free column reaches over exactly the spans of which it takes each token.
pub fn free_law()
    ensures { FreeReachesTaken }
{}

/// Where whatever reaches a span reaches the empty one too, marks that are closed are complete.
pub fn marks_law()
    ensures { ClosedMarksAreLive }
{}

/// What columns reach over a span, they reach over each span within it, and over each empty one.
pub fn intervals_law()
    ensures { EndsAreIntervals }
{}
