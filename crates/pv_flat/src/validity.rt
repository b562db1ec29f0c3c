//! Whether a document of any depth is valid.

ghost use Rattle.std.specs.Prelude.{◌↔◌, IsTrue, IfOk, IfErr, Err};
ghost use Rattle.pv_dtd.specs.Hedge.{IsValid};
ghost use Rattle.pv_dtd.specs.PlainForms.{plain_dtd};
ghost use Rattle.pv_tree.specs.Marks.{blank_mark};
ghost use Rattle.pv_tree.specs.Plain.{PlainDoc};
ghost use Rattle.pv_tree.specs.View.{view};
ghost use Rattle.pv_tree.specs.declared.nodes.Mark.{Mark};
ghost use Rattle.pv_read.specs.Errors.{Refuses};
ghost use Rattle.pv_read.specs.Meaning.{DocumentMeansWithin, Outcome, is_document};
ghost use Rattle.pv_read.specs.PlainForms.{Answers};
ghost use Rattle.pv_flat.specs.ComingEvents.{flat_limits};

use crate::events::MAX_FLAT_BYTES;
use pv_dtd::Dtd;
use pv_read::DocError;
use pv_valid::first_invalid_within;
use std::alloc::Global;

/// Whether the text is a valid document for this name of the root (XML 1.0, section 3). Elements
/// may stand at any depth.
pub fn valid_events(alloc: Global, dtd: &Dtd, root: &[u8], bytes: &[u8]) -> Result<bool, DocError>
    ensures read { IfOk result (λ _. (doc : PlainDoc Mark) ×
        DocumentMeansWithin flat_limits blank_mark root.now bytes.now (is_document doc)) }
    ensures valid { IfOk result (λ valid. (doc : PlainDoc Mark) →
        DocumentMeansWithin flat_limits blank_mark root.now bytes.now (is_document doc) →
        IsTrue valid ↔ IsValid (plain_dtd dtd.now) root.now (view doc.root)) }
    ensures refused { IfErr result (λ error.
        Refuses (DocumentMeansWithin flat_limits blank_mark root.now bytes.now) error) }
    ensures exactly { (o : Outcome Mark) →
        DocumentMeansWithin flat_limits blank_mark root.now bytes.now o →
        IfErr result (λ error. Answers o (Err error)) }
{
    let found = first_invalid_within(alloc, None, MAX_FLAT_BYTES, dtd, root, bytes)?;
    Ok(found.is_none())
}
