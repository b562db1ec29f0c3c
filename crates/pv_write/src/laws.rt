//! Laws on the texts of documents. Their functions do nothing.

ghost use Rattle.pv_write.specs.Laws.{WritesWhatIsSpelled, WritesEveryView};

/// What a text spells is written as that text.
pub fn spelled_is_written_law()
    ensures { WritesWhatIsSpelled }
{}

/// Every document is written as a text with the same view, at any depth and size.
pub fn every_view_is_written_law()
    ensures { WritesEveryView }
{}
