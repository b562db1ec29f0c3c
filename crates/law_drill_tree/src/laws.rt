//! Laws of the document of a drill. Their functions do nothing.

ghost use Rattle.law_drill_tree.specs.Laws.{BrCannotStand, SectionsAreJudged, MeansDrillDtd};
ghost use Rattle.law_drill_tree.specs.Laws.{SpellsDrillDocument, TextsCanBeWrapped};

use pv_dtd::laws::dtd_text_law;

/// The text of the drill's DTD means the DTD of sections.
pub fn dtd_law()
    ensures { MeansDrillDtd }
{
    dtd_text_law();
}

/// The text of the drill's document spells the document.
pub fn document_law()
    ensures { SpellsDrillDocument }
{}

/// The verdict of each list, how many are Possible, and that the document is potentially valid;
/// with the text of a section in a `br` it is not.
pub fn verdicts_law()
    ensures verdicts { SectionsAreJudged }
    ensures impossible { BrCannotStand }
{}

/// The text of a section can be put into an element.
pub fn wraps_law()
    ensures { TextsCanBeWrapped }
{}
