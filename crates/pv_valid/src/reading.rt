//! Judges the lists of a document while it is read, in one pass from left to right.

ghost use Rattle.std.specs.Prelude.{◌≡◌, ◌<◌, ◌↔◌, IsTrue, IsNone};
ghost use Rattle.std.specs.Prelude.{IfOk, IfErr, IfSome, Err};
ghost use Rattle.pv_dtd.specs.Hedge.{IsValid};
ghost use Rattle.pv_dtd.specs.PlainForms.{plain_dtd};
ghost use Rattle.pv_tree.specs.Lists.{IsFirstNot, IsValidList, lists_of};
ghost use Rattle.pv_tree.specs.Marks.{blank_mark};
ghost use Rattle.pv_tree.specs.Plain.{PlainDoc};
ghost use Rattle.pv_tree.specs.View.{view};
ghost use Rattle.pv_tree.specs.declared.nodes.Mark.{Mark};
ghost use Rattle.pv_read.specs.Errors.{Refuses};
ghost use Rattle.pv_read.specs.Meaning.{DocumentMeans, DocumentMeansWithin, Outcome, is_document};
ghost use Rattle.pv_read.specs.PlainForms.{Answers};
ghost use Rattle.pv_lists.specs.Answers.{limits_of};
ghost use Rattle.pv_lists.specs.Judgements.{MAX_KIDS};

use crate::judging::Validity;
use pv_chars::NoMemory;
use pv_dtd::Dtd;
use pv_lists::{OpenLists, ReadError, read_lists};
use pv_read::{DocError, MAX_DEPTH, MAX_DOC_BYTES};
use pv_tree::Path;
use std::alloc::Global;

// Whether the root, which is whole, has this name.
fn has_name<B, F>(lists: &OpenLists<'_, B, F>, root: &[u8]) -> bool
    ensures { IsTrue result ↔ (lists.now.inner.name.now ≡ root.now) }
{
    lists.inner.name == root
}

/// Of the document that the bytes are within these limits, where the root's name is this one, the
/// path of the first list, in document order, that isn't valid by itself; none where the document
/// is valid.
///
/// A fault anywhere in the bytes comes before any answer.
pub fn first_invalid_within(
    alloc: Global,
    most_depth: Option<usize>,
    most_bytes: usize,
    dtd: &Dtd,
    root: &[u8],
    bytes: &[u8],
) -> Result<Option<Path>, DocError>
    requires { most_bytes < MAX_KIDS }
    ensures read { IfOk result (λ _. (doc : PlainDoc Mark) ×
        DocumentMeansWithin (limits_of most_depth most_bytes) blank_mark root.now bytes.now
        (is_document doc)) }
    ensures valid { IfOk result (λ found. (doc : PlainDoc Mark) →
        DocumentMeansWithin (limits_of most_depth most_bytes) blank_mark root.now bytes.now
        (is_document doc) →
        IsNone found ↔ IsValid (plain_dtd dtd.now) root.now (view doc.root)) }
    ensures first { IfOk result (λ found. (doc : PlainDoc Mark) →
        DocumentMeansWithin (limits_of most_depth most_bytes) blank_mark root.now bytes.now
        (is_document doc) →
        IfSome found (IsFirstNot (IsValidList (plain_dtd dtd.now) root.now) (lists_of doc))) }
    ensures refused { IfErr result (λ error. Refuses
        (DocumentMeansWithin (limits_of most_depth most_bytes) blank_mark root.now bytes.now)
        error) }
    ensures exactly { (o : Outcome Mark) →
        DocumentMeansWithin (limits_of most_depth most_bytes) blank_mark root.now bytes.now o →
        IfErr result (λ error. Answers o (Err error)) }
{
    let judge = Validity { alloc, dtd };
    let lists = match read_lists(alloc, &judge, most_depth, most_bytes, root, bytes) {
        Ok(lists) => lists,
        Err(ReadError::Document(error)) => return Err(error),
        Err(ReadError::Judge(NoMemory)) => return Err(DocError::NoMemory),
    };
    if !has_name(&lists, root) {
        return Ok(Some(Path::new(alloc, &[])?));
    }
    Ok(lists.found)
}

/// Of the document that the bytes are, where the root's name is this one, the path of the first
/// list, in document order, that isn't valid by itself; none where the document is valid.
///
/// What `read_doc` refuses is refused, with the same error; a fault anywhere in the bytes comes
/// before any answer.
pub fn first_invalid_in(
    alloc: Global,
    dtd: &Dtd,
    root: &[u8],
    bytes: &[u8],
) -> Result<Option<Path>, DocError>
    ensures read { IfOk result (λ _. (doc : PlainDoc Mark) ×
        DocumentMeans blank_mark root.now bytes.now (is_document doc)) }
    ensures valid { IfOk result (λ found. (doc : PlainDoc Mark) →
        DocumentMeans blank_mark root.now bytes.now (is_document doc) →
        IsNone found ↔ IsValid (plain_dtd dtd.now) root.now (view doc.root)) }
    ensures first { IfOk result (λ found. (doc : PlainDoc Mark) →
        DocumentMeans blank_mark root.now bytes.now (is_document doc) →
        IfSome found (IsFirstNot (IsValidList (plain_dtd dtd.now) root.now) (lists_of doc))) }
    ensures refused { IfErr result (λ error.
        Refuses (DocumentMeans blank_mark root.now bytes.now) error) }
    ensures exactly { (o : Outcome Mark) → DocumentMeans blank_mark root.now bytes.now o →
        IfErr result (λ error. Answers o (Err error)) }
{
    first_invalid_within(alloc, Some(MAX_DEPTH), MAX_DOC_BYTES, dtd, root, bytes)
}
