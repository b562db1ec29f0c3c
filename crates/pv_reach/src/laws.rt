//! The law of furthest reach, the contract of a function that does nothing.

ghost use Rattle.pv_reach.specs.Laws.{SpansWithin};

/// What derives a span derives each span within it, and each empty span.
pub fn spans_within_law()
    ensures { SpansWithin }
{}
