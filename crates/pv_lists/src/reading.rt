//! Reads the lists of a document from left to right.

ghost use Rattle.std.specs.Prelude.{◌<◌, List, IfOk, IfErr};
ghost use Rattle.pv_tree.specs.Marks.{blank_mark};
ghost use Rattle.pv_tree.specs.Plain.{PlainDoc};
ghost use Rattle.pv_tree.specs.declared.nodes.Mark.{Mark};
ghost use Rattle.pv_read.specs.Meaning.{DocumentMeansWithin, Outcome, is_document};
ghost use Rattle.pv_lists.specs.Answers.{AnswersLists, ReadsLists, RefusesLists, limits_of};
ghost use Rattle.pv_lists.specs.Judgements.{MAX_KIDS};

use crate::content::read_root;
use crate::errors::ReadError;
use crate::judging::ListJudge;
use crate::open::OpenLists;
use pv_chars::scan::after_byte_order_mark;
use pv_read::DocError;
use pv_read::epilog::read_epilog;
use pv_read::prolog::root_tag;
use std::alloc::Global;

/// The root of the document that the bytes are within these limits, where the root's name is this
/// one, and what the judge finds of the lists of its elements.
///
/// What is no document is refused, with the error of `read_doc`; a fault anywhere in the bytes
/// comes before any answer, unless a list that isn't judged comes before it.
pub fn read_lists<'a, J: ListJudge>(
    alloc: Global,
    judge: &J,
    most_depth: Option<usize>,
    most_bytes: usize,
    root: &[u8],
    bytes: &'a [u8],
) -> Result<OpenLists<'a, J::Before, J::Found>, ReadError<J::Error>>
    requires { most_bytes < MAX_KIDS }
    ensures read { IfOk result (λ _. (doc : PlainDoc Mark) ×
        DocumentMeansWithin (limits_of most_depth most_bytes) blank_mark root.now bytes.now
        (is_document doc)) }
    ensures lists { IfOk result (λ lists. (doc : PlainDoc Mark) →
        DocumentMeansWithin (limits_of most_depth most_bytes) blank_mark root.now bytes.now
        (is_document doc) →
        ReadsLists (J.judgement judge.now) root.now lists doc.root) }
    ensures refused { IfErr result (RefusesLists
        (DocumentMeansWithin (limits_of most_depth most_bytes) blank_mark root.now bytes.now)) }
    ensures exactly { (o : Outcome Mark) →
        DocumentMeansWithin (limits_of most_depth most_bytes) blank_mark root.now bytes.now o →
        IfErr result (AnswersLists o) }
{
    if bytes.len() > most_bytes {
        return Err(ReadError::Document(DocError::Limit));
    }
    let opening = root_tag(most_depth, root, after_byte_order_mark(bytes))?;
    let (lists, after, count) = read_root(alloc, judge, most_depth, root, &opening)?;
    read_epilog(most_depth, root, after, count)?;
    Ok(lists)
}
