//! What every document of the program has.

ghost use Rattle.pv_tree.specs.PlainDocs.{plain_doc};
ghost use Rattle.pv_missing.specs.Proper.{IsProperDoc};

use pv_tree::Doc;

/// The laws hold of every document.
pub fn proper_doc_law(_doc: &Doc)
    ensures { IsProperDoc (plain_doc _doc.now) }
{}
