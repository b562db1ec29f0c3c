//! Laws of DTDs and their texts, each the contract of a function that does nothing.

ghost use Rattle.pv_dtd.specs.Laws.{MeansDtd, OneMeaning, ProductiveNames};
ghost use Rattle.pv_dtd.specs.PlainForms.{plain_dtd};
ghost use Rattle.pv_dtd.specs.Proper.{IsProperDtd};

use crate::dtd::Dtd;

/// A text has exactly one meaning: a DTD, or its first item in fault with its kind.
pub fn one_meaning_law()
    ensures { OneMeaning }
{}

/// A text means a DTD exactly where, by XML's productions and limits aside, it is a text of this
/// DTD, and the limits hold.
pub fn dtd_text_law()
    ensures { MeansDtd }
{}

/// What other laws ask of a DTD holds of every one.
pub fn proper_dtd_law(_dtd: &Dtd)
    ensures { IsProperDtd (plain_dtd _dtd.now) }
{}

/// A name is productive exactly where some element of this name is good.
pub fn productive_names_law()
    ensures { ProductiveNames }
{}
