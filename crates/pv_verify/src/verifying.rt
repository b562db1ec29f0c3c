//! The tests of a pack, one after another.

ghost use Rattle.std.specs.Prelude.{◌↔◌, IfErr, IfOk, IsTrue, MatchOption};
ghost use Rattle.pv_dtd.specs.Hedge.{IsValid};
ghost use Rattle.pv_dtd.specs.PlainForms.{plain_dtd};
ghost use Rattle.pv_tree.specs.Plain.{PlainDoc};
ghost use Rattle.pv_tree.specs.PlainDocs.{plain_doc};
ghost use Rattle.pv_tree.specs.View.{view};
ghost use Rattle.pv_tree.specs.declared.nodes.Mark.{Mark};
ghost use Rattle.pv_compare.specs.Kept.{IsBodyText};
ghost use Rattle.pv_verify.specs.Answers.{IsAnswer, RefusesRead};
ghost use Rattle.pv_verify.specs.Tests.{PassesAllTests, IsRejected};
ghost use Rattle.pv_verify.specs.ReadBodies.{IsMeant, IsReadBeside, IsSomeBodyText};

use crate::answers::{Answer, Why};
use crate::errors::VerifyError;
use crate::laws::certified_law;
use crate::totals::totals_agree;
use pv_cert::Pack;
use pv_chars::NoMemory;
use pv_compare::{BodyRead, are_marks, read_body};
use pv_dtd::Dtd;
use pv_dtd::laws::proper_dtd_law;
use pv_flat::valid_events;
use pv_missing::laws::proper::proper_doc_law;
use pv_read::DocError;
use pv_read::laws::{one_meaning_law, wider_limits_law};
use pv_table_check::{first_wide_table, tables_closed};
use pv_tree::{Doc, Mark};
use std::alloc::Global;

// What one reading of the body tells; none where the bytes aren't the text of a document.
fn read_once(
    alloc: Global,
    root: &[u8],
    doc: &Doc,
    body: &[u8],
    marks: &[u32],
) -> Result<Option<BodyRead>, NoMemory>
    ensures { IfOk result (λ found. MatchOption found
        ((b : PlainDoc Mark) → IsBodyText root.now body.now b → ⊥)
        (λ read. IsReadBeside root.now (plain_doc doc.now) body.now marks.now read)) }
{
    match read_body(alloc, root, doc, body, marks) {
        Ok(read) => Ok(Some(read)),
        Err(DocError::NoMemory) => Err(NoMemory),
        Err(_) => {
            one_meaning_law();
            Ok(None)
        }
    }
}

// Whether the body is valid.
fn is_valid(alloc: Global, dtd: &Dtd, root: &[u8], body: &[u8]) -> Result<bool, NoMemory>
    requires { IsSomeBodyText root.now body.now }
    ensures { IfOk result (λ valid. (doc : PlainDoc Mark) → IsBodyText root.now body.now doc →
        IsTrue valid ↔ IsValid (plain_dtd dtd.now) root.now (view doc.root)) }
{
    one_meaning_law();
    match valid_events(alloc, dtd, root, body) {
        Ok(valid) => Ok(valid),
        Err(DocError::NoMemory) => Err(NoMemory),
        Err(_) => unreachable!(),
    }
}

// The first test that a pack fails, against a document.
fn first_failed(
    alloc: Global,
    dtd: &Dtd,
    root: &[u8],
    doc: &Doc,
    pack: &Pack,
) -> Result<Option<Why>, NoMemory>
    requires { IsMeant root.now (plain_doc doc.now) }
    ensures { IfOk result (λ failed. MatchOption failed
        (PassesAllTests (plain_dtd dtd.now) root.now (plain_doc doc.now) pack.now)
        (IsRejected (plain_dtd dtd.now) root.now (plain_doc doc.now) pack.now)) }
{
    let body = pack.body.as_slice();
    let marks = pack.marks.as_slice();
    let tables = pack.tables.as_slice();
    wider_limits_law();
    let Some(BodyRead { plain, kept }) = read_once(alloc, root, doc, body, marks)? else {
        return Ok(Some(Why::Body));
    };
    if !are_marks(marks, &plain) {
        return Ok(Some(Why::Marks));
    }
    if !kept {
        return Ok(Some(Why::Kept));
    }
    if !is_valid(alloc, dtd, root, body)? {
        return Ok(Some(Why::Validity));
    }
    if !tables_closed(alloc, dtd, root, doc, tables)? {
        return Ok(Some(Why::Closure));
    }
    if !totals_agree(alloc, dtd, root, doc, pack)? {
        return Ok(Some(Why::Totals));
    }
    Ok(None)
}

/// Verifies a pack as `verify` does, against a document that was read before.
pub fn verify_read(
    alloc: Global,
    dtd: &Dtd,
    root: &[u8],
    doc: &Doc,
    pack: &Pack,
) -> Result<Answer, VerifyError>
    requires { IsMeant root.now (plain_doc doc.now) }
    ensures answers { IfOk result (λ answer.
        IsAnswer (plain_dtd dtd.now) root.now (plain_doc doc.now) pack.now answer) }
    ensures refused { IfErr result (λ error.
        RefusesRead (plain_dtd dtd.now) (plain_doc doc.now) pack.now error) }
{
    let wide = first_wide_table(alloc, dtd, doc, pack.tables.as_slice())?;
    if let Some(path) = wide {
        return Err(VerifyError::TooWide(path));
    }
    proper_dtd_law(dtd);
    proper_doc_law(doc);
    certified_law::<Mark>();
    match first_failed(alloc, dtd, root, doc, pack)? {
        None => Ok(Answer::Accepted(pack.total)),
        Some(why) => Ok(Answer::Rejected(why)),
    }
}
