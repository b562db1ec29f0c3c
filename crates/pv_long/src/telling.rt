//! How many elements are missing in a document, told by two bounds.

ghost use Rattle.std.specs.Prelude.{◌≡◌, ◌<◌, ◌≤◌, IfErr, IfOk, max};
ghost use Rattle.pv_dtd.specs.PlainForms.{plain_dtd};
ghost use Rattle.pv_productive.specs.PlainForms.{dtd_of};
ghost use Rattle.pv_tree.specs.Marks.{blank_mark};
ghost use Rattle.pv_tree.specs.Plain.{PlainDoc};
ghost use Rattle.pv_tree.specs.PlainDocs.{plain_doc};
ghost use Rattle.pv_tree.specs.declared.nodes.Mark.{Mark};
ghost use Rattle.pv_read.specs.Meaning.{DocumentMeans, is_document};
ghost use Rattle.pv_missing.specs.Verdicts.{possible_in};
ghost use Rattle.pv_fresh.specs.Answers.{HasPossibility};
ghost use Rattle.pv_long.specs.NewTags.{IsWrittenWithTags};
ghost use Rattle.pv_long.specs.BoundAnswers.{AreMissing, IsCompletion, IsMissing, IsOwnText};
ghost use Rattle.pv_long.specs.BoundAnswers.{SaysHeavy};
ghost use Rattle.pv_long.specs.BoundAnswers.{TellsNone};

use crate::answers::{Completion, Missing};
use crate::bounding::{Found, bound_doc};
use crate::checking::is_completion;
use crate::deadlines::Deadline;
use crate::errors::{LongError, MakeError};
use crate::making::known_columns::known_columns;
use crate::tags::check_tags;
use pv_dtd::Dtd;
use pv_fresh::{PossibleError, possible_verdicts};
use pv_layout::lay_out;
use pv_missing::Verdicts;
use pv_missing::laws::documents::{
    bounds_add_up_law, extensions_complete_law, possible_missing_law,
};
use pv_missing::laws::proper::proper_doc_law;
use pv_missing::laws::verdicts::none_possible_law;
use pv_productive::Grammar;
use pv_read::laws::{agreement_law, wider_limits_law};
use pv_rules::HEAVIEST;
use pv_tree::{Doc, Mark};
use pv_write::laws::spelled_is_written_law;
use pv_write::{Piece, TaggedText, doc_with_tags};
use std::alloc::Global;

// The verdicts of the lists of a document that isn't impossible.
fn verdicts_of(
    alloc: Global,
    grammar: &Grammar,
    root: &[u8],
    doc: &Doc,
) -> Result<Verdicts, LongError>
    ensures possible { IfOk result (HasPossibility root.now (dtd_of grammar.now)
        (plain_doc doc.now)) }
    ensures refused { IfErr result (TellsNone (dtd_of grammar.now) root.now (plain_doc doc.now)) }
{
    match possible_verdicts(alloc, grammar, root, doc) {
        Ok(verdicts) => Ok(verdicts),
        Err(PossibleError::TooWide(path)) => Err(LongError::TooWide(path)),
        Err(PossibleError::Impossible(path)) => Err(LongError::Impossible(path)),
        Err(PossibleError::NoMemory) => Err(LongError::NoMemory),
    }
}

// The numbers of elements, where each is below 2^32.
fn numbers_of(alloc: Global, marks: &[u64]) -> Result<Vec<u32>, MakeError> {
    let mut numbers = Vec::with_capacity(alloc, marks.len())?;
    for mark in marks {
        let Ok(number) = u32::try_from(*mark) else {
            return Err(MakeError::TooMany);
        };
        numbers.push(number)?;
    }
    Ok(numbers)
}

// What was written, where it is a completion.
fn completion_of(
    alloc: Global,
    dtd: &Dtd,
    root: &[u8],
    bytes: &[u8],
    text: TaggedText,
) -> Result<Completion, MakeError>
    ensures { IfOk result (λ c. (doc : PlainDoc Mark) →
        DocumentMeans blank_mark root.now bytes.now (is_document doc) →
        IsWrittenWithTags (plain_dtd dtd.now) doc text.body.items →
        IsCompletion (plain_dtd dtd.now) root.now doc c) }
{
    let TaggedText { body, marks } = text;
    let marks = numbers_of(alloc, marks.as_slice())?;
    let Ok(count) = u32::try_from(marks.len()) else {
        return Err(MakeError::TooMany);
    };
    if !is_completion(alloc, dtd, root, bytes, marks.as_slice(), body.as_slice())? {
        return Err(MakeError::Unproved);
    }
    Ok(Completion { count, marks, body })
}

// The greater one of a bound that was added up and the number of the Possible lists.
fn least_of(bound: u32, verdicts: &Verdicts) -> Result<u32, MakeError>
    ensures { IfOk result (λ least. least ≡ max bound (possible_in verdicts.now.verdicts)) }
{
    let Ok(left) = u32::try_from(verdicts.left()) else {
        return Err(MakeError::TooMany);
    };
    Ok(u32::max(bound, left))
}

// What is found of the lists of a document, and a number that no completion passes from above, no
// fewer than its Possible lists.
fn bound_lists<D: Deadline>(
    alloc: Global,
    grammar: &Grammar,
    root: &[u8],
    doc: &Doc,
    verdicts: &Verdicts,
    deadline: &D,
) -> Result<(u32, Found), MakeError>
    requires { HasPossibility root.now (dtd_of grammar.now) (plain_doc doc.now) verdicts.now }
    ensures least { IfOk result (λ found.
        AreMissing (dtd_of grammar.now) root.now (plain_doc doc.now) found.0) }
    ensures lists { IfOk result (λ found. possible_in verdicts.now.verdicts ≤ found.0) }
{
    bounds_add_up_law::<Mark>();
    possible_missing_law::<Mark>();
    proper_doc_law(doc);
    let layout = lay_out(alloc, grammar)?;
    let known = known_columns(alloc, &layout)?;
    let found = bound_doc(alloc, &known, root, doc, verdicts, deadline)?;
    let least = least_of(found.least, verdicts)?;
    Ok((least, found))
}

// The completion of a document by the pieces of its lists.
fn complete_by(
    alloc: Global,
    dtd: &Dtd,
    root: &[u8],
    doc: &Doc,
    bytes: &[u8],
    pieces: &[Vec<Piece>],
) -> Result<Completion, MakeError>
    requires { DocumentMeans blank_mark root.now bytes.now (is_document (plain_doc doc.now)) }
    ensures { IfOk result (IsCompletion (plain_dtd dtd.now) root.now (plain_doc doc.now)) }
{
    check_tags(dtd, pieces, bytes.len())?;
    let text = doc_with_tags(alloc, dtd, pieces, doc)?;
    let completion = completion_of(alloc, dtd, root, bytes, text)?;
    Ok(completion)
}

// A number that no completion of a document passes from above, no fewer than its Possible lists,
// and one of its completions.
fn bounds_of<D: Deadline>(
    alloc: Global,
    grammar: &Grammar,
    root: &[u8],
    doc: &Doc,
    bytes: &[u8],
    verdicts: &Verdicts,
    deadline: &D,
) -> Result<(u32, Completion), LongError>
    requires text { DocumentMeans blank_mark root.now bytes.now (is_document (plain_doc doc.now)) }
    requires possible { HasPossibility root.now (dtd_of grammar.now) (plain_doc doc.now)
        verdicts.now }
    ensures least { IfOk result (λ found.
        AreMissing (dtd_of grammar.now) root.now (plain_doc doc.now) found.0) }
    ensures lists { IfOk result (λ found. possible_in verdicts.now.verdicts ≤ found.0) }
    ensures completion { IfOk result (λ found.
        IsCompletion (dtd_of grammar.now) root.now (plain_doc doc.now) found.1) }
    ensures refused { IfErr result (SaysHeavy (dtd_of grammar.now) root.now (plain_doc doc.now)) }
{
    let (least, found) = bound_lists(alloc, grammar, root, doc, verdicts, deadline)?;
    if found.has_heavy && least >= HEAVIEST {
        return Err(LongError::TooHeavy);
    }
    let completion = complete_by(alloc, grammar.dtd(), root, doc, bytes, &found.pieces)?;
    Ok((least, completion))
}

// The completion of a valid document: nothing is new in it.
fn own_text(alloc: Global, bytes: &[u8]) -> Result<Completion, MakeError>
    ensures { IfOk result (IsOwnText bytes.now) }
{
    let body = Vec::from_slice(alloc, bytes)?;
    Ok(Completion {
        count: 0,
        marks: Vec::new(alloc),
        body,
    })
}

// What is missing in a document that can be completed, by the verdicts of its lists.
fn missing_by<D: Deadline>(
    alloc: Global,
    grammar: &Grammar,
    root: &[u8],
    doc: &Doc,
    bytes: &[u8],
    verdicts: &Verdicts,
    deadline: &D,
) -> Result<Missing, LongError>
    requires text { DocumentMeans blank_mark root.now bytes.now (is_document (plain_doc doc.now)) }
    requires possible { HasPossibility root.now (dtd_of grammar.now) (plain_doc doc.now)
        verdicts.now }
    ensures told { IfOk result (IsMissing (dtd_of grammar.now) root.now (plain_doc doc.now)
        bytes.now) }
    ensures refused { IfErr result (SaysHeavy (dtd_of grammar.now) root.now (plain_doc doc.now)) }
{
    none_possible_law::<Mark>();
    extensions_complete_law::<Mark, Mark>();
    wider_limits_law();
    agreement_law();
    spelled_is_written_law();
    proper_doc_law(doc);
    if verdicts.left() == 0 {
        return Ok(Missing::Exactly(own_text(alloc, bytes)?));
    }
    let (least, completion) = bounds_of(alloc, grammar, root, doc, bytes, verdicts, deadline)?;
    if least < completion.count {
        Ok(Missing::Between(least, completion))
    } else {
        Ok(Missing::Exactly(completion))
    }
}

/// How many elements are missing in a document, which these bytes are, where the root's name is
/// this one: a completion, whose number is known to be least, or a bound that no completion passes
/// from above and a completion that inserts more. The bound is at least the number of the Possible
/// lists, and a valid document is its own completion. The document stays as it is.
///
/// After the deadline, no bound is sought for the lists that are left, and each is completed at
/// once: the numbers may be further apart then, and both are right. A list that was begun is ended.
///
/// A list may be as wide as a verdict allows. New elements are written as `complete` of pv_complete
/// writes them. That something is told isn't promised: see `LongError`.
pub fn missing<D: Deadline>(
    alloc: Global,
    grammar: &Grammar,
    root: &[u8],
    doc: &Doc,
    bytes: &[u8],
    deadline: &D,
) -> Result<Missing, LongError>
    requires { DocumentMeans blank_mark root.now bytes.now (is_document (plain_doc doc.now)) }
    ensures told { IfOk result (IsMissing (dtd_of grammar.now) root.now (plain_doc doc.now)
        bytes.now) }
    ensures refused { IfErr result (TellsNone (dtd_of grammar.now) root.now (plain_doc doc.now)) }
{
    let verdicts = verdicts_of(alloc, grammar, root, doc)?;
    missing_by(alloc, grammar, root, doc, bytes, &verdicts, deadline)
}
