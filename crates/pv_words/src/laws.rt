//! Laws on lines. Their functions do nothing.

ghost use Rattle.pv_words.specs.Laws.{JoinLines, LinesEndAtFeeds};

/// The lines of some bytes, in whatever pieces they come.
pub fn lines_law()
    ensures joined { JoinLines }
    ensures end { LinesEndAtFeeds }
{}
