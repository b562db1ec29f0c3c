//! A call of this library that the program doesn't make. It stands for other callers.

ghost use Rattle.std.specs.Prelude.{IfErr, IfOk};
ghost use Rattle.pv_dtd.specs.PlainForms.{plain_dtd};
ghost use Rattle.pv_tree.specs.Marks.{blank_mark};
ghost use Rattle.pv_tree.specs.Plain.{PlainDoc};
ghost use Rattle.pv_tree.specs.declared.nodes.Mark.{Mark};
ghost use Rattle.pv_read.specs.Meaning.{DocumentMeans, is_document};
ghost use Rattle.pv_verify.specs.Answers.{IsAnswer, RefusesToVerify};

use crate::answers::Answer;
use crate::errors::VerifyError;
use crate::verifying::verify_read;
use pv_cert::Pack;
use pv_dtd::Dtd;
use pv_read::read_doc;
use std::alloc::Global;

/// Verifies a pack against the document that the bytes are, where the root's name is this one: it
/// is accepted where it passes all tests, and then its body is a least completion, whoever made it;
/// else the first test that it fails is told.
///
/// The document is read first, and then a table of a list past the width for weights is looked for.
pub fn verify(
    alloc: Global,
    dtd: &Dtd,
    root: &[u8],
    doc: &[u8],
    pack: &Pack,
) -> Result<Answer, VerifyError>
    ensures answers { IfOk result (λ answer. (d : PlainDoc Mark) ×
        DocumentMeans blank_mark root.now doc.now (is_document d) ×
        IsAnswer (plain_dtd dtd.now) root.now d pack.now answer) }
    ensures refused { IfErr result (λ error.
        RefusesToVerify (plain_dtd dtd.now) root.now doc.now pack.now error) }
{
    let document = read_doc(alloc, doc, root)?;
    verify_read(alloc, dtd, root, &document, pack)
}
