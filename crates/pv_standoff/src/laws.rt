//! Laws of ranges, each the contract of a function that does nothing.

ghost use Rattle.pv_standoff.specs.Laws.{OneDocument, HasDocument, OneMeaning, SameForAnyOrder};
ghost use Rattle.pv_standoff.specs.Laws.{OneReading, SomeMeaning, SomeReading};
ghost use Rattle.pv_standoff.specs.Laws.{TextsHaveNoCloseMark};

/// At most one document stands for a text and ranges, of which none is empty and none twice.
pub fn one_document_law()
    ensures { OneDocument }
{}

/// Where no range is empty, there is one exactly where each ends within the text and none cross.
pub fn has_document_law()
    ensures { HasDocument }
{}

/// A text and ranges mean at most one thing: a document, or one cause why there is none.
pub fn one_meaning_law()
    ensures { OneMeaning }
{}

/// A text and ranges mean something.
pub fn some_meaning_law()
    ensures { SomeMeaning }
{}

/// The document, and each cause but a range outside, is the same for every order of the ranges.
pub fn any_order_law()
    ensures { SameForAnyOrder }
{}

/// Bytes mean at most one thing as ranges.
pub fn one_reading_law()
    ensures { OneReading }
{}

/// Bytes mean something as ranges.
pub fn some_reading_law()
    ensures { SomeReading }
{}

/// `]]>` stands nowhere among the units that a text means.
pub fn text_law()
    ensures { TextsHaveNoCloseMark }
{}
