//! The root element (XML 1.0, section 3.1).

ghost use Rattle.std.specs.Prelude.{◌<◌, ◌+◌, [], ℕ, suc, List, false, length, IfOk, IfErr, OnOk};
ghost use Rattle.pv_tree.specs.Marks.{blank_mark};
ghost use Rattle.pv_tree.specs.declared.nodes.Mark.{Mark};
ghost use Rattle.pv_read.specs.Left.{Open, in_content, just_opened};
ghost use Rattle.pv_read.specs.Meaning.{DocumentRestMeans};
ghost use Rattle.pv_read.specs.Prologs.{behind_tag};
ghost use Rattle.pv_lists.specs.Answers.{RefusesLists};
ghost use Rattle.pv_lists.specs.Contents.{TakesInto, ReadsRoot};
ghost use Rattle.pv_lists.specs.Judgements.{MAX_KIDS};
ghost use Rattle.pv_lists.specs.OpenLists.{HasReadTo, HasRoom, MayGrow};
ghost use Rattle.pv_lists.specs.Types.{AreTypes};

use crate::ending::{add, close};
use crate::errors::ReadError;
use crate::items::item_in;
use crate::judging::ListJudge;
use crate::open::{OpenLists, begin};
use pv_read::forms::Tag;
use pv_read::prolog::RootTag;
use std::alloc::Global;

// Reads one item after so many: whether it makes the root whole, and what stands after it.
fn read_item<'a, J: ListJudge>(
    judge: &J,
    most_depth: Option<usize>,
    root: &[u8],
    lists: &mut OpenLists<'a, J::Before, J::Found>,
    rest: &'a [u8],
    count: u64,
) -> Result<(bool, &'a [u8]), ReadError<J::Error>>
    requires grow { MayGrow lists.old }
    requires room { HasRoom (J.judgement judge.now) lists.old }
    requires types { AreTypes (J.judgement judge.now).dtd lists.old.types }
    ensures step { IfOk result (λ r. (inner : Open Mark) (outer : List (Open Mark)) →
        HasReadTo (J.judgement judge.now) root.now lists.old inner outer →
        TakesInto most_depth (J.judgement judge.now) root.now lists.new r.0 inner outer rest.now
        r.1.now) }
    ensures refused { IfErr result (λ e. (before : List ℕ) (inner : Open Mark)
        (outer : List (Open Mark)) →
        HasReadTo (J.judgement judge.now) root.now lists.old inner outer →
        RefusesLists (DocumentRestMeans most_depth blank_mark root.now count
        (in_content before inner outer) rest.now) e) }
    ensures within { IfOk result (λ r. length r.1.now < length rest.now) }
    ensures types { OnOk result (AreTypes (J.judgement judge.now).dtd lists.new.types) }
{
    let open_elements = lists.outer.len() + 1;
    let (item, more, kind) = item_in(
        most_depth,
        &lists.inner,
        &lists.types,
        open_elements,
        root,
        rest,
        count,
    )?;
    match add(judge, lists, &item, kind) {
        Ok(whole) => Ok((whole, more)),
        Err(cause) => Err(ReadError::Judge(cause)),
    }
}

// The lists of the root that a start tag opens, what stands after it, and the number of items up to
// its end, where so many stand up to the tag's.
fn read_content<'a, J: ListJudge>(
    alloc: Global,
    judge: &J,
    most_depth: Option<usize>,
    root: &[u8],
    tag: &Tag<'a>,
    bytes: &'a [u8],
    first: u64,
) -> Result<(OpenLists<'a, J::Before, J::Found>, &'a [u8], u64), ReadError<J::Error>>
    requires { first + length bytes.now < MAX_KIDS }
    ensures read { IfOk result (λ r. ReadsRoot most_depth (J.judgement judge.now) root.now false
        tag.now.name.now tag.now.attrs.now bytes.now
        first r.0 r.1.now r.2) }
    ensures refused { IfErr result (λ e. (before : List ℕ) →
        RefusesLists (DocumentRestMeans most_depth blank_mark root.now first
        (in_content before (just_opened tag.now.name.now tag.now.attrs.now) []) bytes.now) e) }
{
    let mut lists = begin(alloc, judge, tag.name)?;
    let mut rest = bytes;
    let mut count = first;
    'items: loop {
        let (whole, more) = read_item(judge, most_depth, root, &mut lists, rest, count)?;
        count += 1;
        rest = more;
        if whole {
            return Ok((lists, rest, count));
        }
    }
}

/// The lists of the root that this tag opens, what stands after it, and the number of items up to
/// its end.
pub fn read_root<'a, J: ListJudge>(
    alloc: Global,
    judge: &J,
    most_depth: Option<usize>,
    root: &[u8],
    opening: &RootTag<'a>,
) -> Result<(OpenLists<'a, J::Before, J::Found>, &'a [u8], u64), ReadError<J::Error>>
    requires { suc opening.now.count + length opening.now.rest.now < MAX_KIDS }
    ensures read { IfOk result (λ r. ReadsRoot most_depth (J.judgement judge.now) root.now
        opening.now.is_short opening.now.tag.name.now opening.now.tag.attrs.now opening.now.rest.now
        (suc opening.now.count) r.0 r.1.now r.2) }
    ensures refused { IfErr result (λ e. (before : List ℕ) →
        RefusesLists (DocumentRestMeans most_depth blank_mark root.now
        (suc opening.now.count)
        (behind_tag before opening.now.is_short opening.now.tag.name.now
        opening.now.tag.attrs.now) opening.now.rest.now) e) }
{
    let count = opening.count + 1;
    if opening.is_short {
        let mut lists = begin(alloc, judge, opening.tag.name)?;
        match close(judge, &mut lists) {
            Ok(_) => return Ok((lists, opening.rest, count)),
            Err(cause) => return Err(ReadError::Judge(cause)),
        }
    }
    read_content(
        alloc,
        judge,
        most_depth,
        root,
        &opening.tag,
        opening.rest,
        count,
    )
}
