//! Judges the lists of a document while it is read, in one pass from left to right.

ghost use Rattle.std.specs.Prelude.{◌≡◌, ◌+◌, List, IfOk, IfErr, OnErr, ℕ, Err, length};
ghost use Rattle.pv_dtd.specs.Plain.{PlainDtd};
ghost use Rattle.pv_productive.specs.PlainForms.{dtd_of};
ghost use Rattle.pv_tree.specs.Lists.{Listed, lists_of};
ghost use Rattle.pv_tree.specs.Marks.{blank_mark};
ghost use Rattle.pv_tree.specs.Plain.{PlainDoc, Tree};
ghost use Rattle.pv_tree.specs.declared.nodes.Mark.{Mark};
ghost use Rattle.pv_read.specs.Meaning.{DocumentMeans, Outcome, is_document};
ghost use Rattle.pv_lists.specs.Answers.{ReadsLists};
ghost use Rattle.pv_check.specs.Answers.{AnswersText, CountsTold, RefusesBytes, Tells, TellsLists};
ghost use Rattle.pv_check.specs.Answers.{TellsAtAnyWidth, root_lists};
ghost use Rattle.pv_check.specs.Findings.{HasFound, verdicts_by};
ghost use Rattle.pv_check.specs.declared.widths.Widths.{Widths as HowWide};
ghost use Rattle.pv_read.specs.Errors.{Refuses};
ghost use Rattle.pv_read.specs.PlainForms.{Answers};

use crate::errors::{ListError, TextError};
use crate::findings::{Findings, Noted};
use crate::judging::Verdicts;
use crate::planning::Planning;
use crate::widths::Widths;
use crate::words::judge_word_planned;
use pv_dtd::laws::proper_dtd_law;
use pv_fresh::count_lists;
use pv_lists::{OpenLists, read_lists};
use pv_missing::laws::documents::live_lists_law;
use pv_missing::root_owner;
use pv_reach::Judge;
use pv_read::{DocError, MAX_DEPTH, MAX_DOC_BYTES};
use pv_steps::Steps;
use pv_tree::{Mark, Path};
use std::sync::ledger::Ledger;

/// What is told of a document.
#[derive(Debug, Drop)]
pub enum Told {
    /// Inserting elements can make it valid, and so many of its lists are Possible. The others are
    /// Valid.
    Possible(u64),
    /// No insertions can make it valid; the list at this path is the first Impossible one.
    Impossible(Path),
    /// The list at this path is the first that is too wide: one more than its tokens, times the
    /// parts and names of the DTD, is more than 67,108,864.
    TooWide(Path),
}

// What is found with the document node's list, where the root is whole.
fn judge_root(
    widths: Widths,
    judge: &Judge<'_>,
    root: &[u8],
    lists: OpenLists<'_, Noted, Findings>,
) -> Result<Findings, ListError>
    requires { (t : Tree Mark) ×
        ReadsLists (verdicts_by widths (dtd_of judge.now)) root.now lists t }
    ensures { (t : Tree Mark) →
        ReadsLists (verdicts_by widths (dtd_of judge.now)) root.now lists.entry t →
        IfOk result (HasFound widths (dtd_of judge.now) root.now (root_lists t)) }
{
    let owner = root_owner(judge.grammar().dtd(), root);
    let word = [lists.inner.token];
    let judged = judge_word_planned(widths, judge, &lists.found.kept.plan, owner, &word, false)?;
    let mut found = lists.found;
    found.add(judge.alloc(), judged, &[])?;
    Ok(found)
}

// What is found of all lists of the document that the bytes are, which may be so wide.
fn find_lists(
    widths: Widths,
    judge: &Judge<'_>,
    planning: Planning,
    root: &[u8],
    bytes: &[u8],
) -> Result<Findings, TextError>
    ensures read { IfOk result (λ _. (doc : PlainDoc Mark) ×
        DocumentMeans blank_mark root.now bytes.now (is_document doc)) }
    ensures finds { IfOk result (λ found. (doc : PlainDoc Mark) →
        DocumentMeans blank_mark root.now bytes.now (is_document doc) →
        HasFound widths (dtd_of judge.now) root.now (lists_of doc) found) }
    ensures refused { IfErr result (RefusesBytes (DocumentMeans blank_mark root.now bytes.now)) }
    ensures exactly { (o : Outcome Mark) → DocumentMeans blank_mark root.now bytes.now o →
        IfErr result (AnswersText o) }
{
    let verdicts = Verdicts {
        judge,
        planning,
        widths,
    };
    let lists = read_lists(
        judge.alloc(),
        &verdicts,
        Some(MAX_DEPTH),
        MAX_DOC_BYTES,
        root,
        bytes,
    )?;
    let found = judge_root(widths, judge, root, lists)?;
    Ok(found)
}

// What these findings tell of the lists.
fn tell(found: Findings) -> Told
    ensures { (s : HowWide) (g : PlainDtd) (root : List ℕ) (lists : List (Listed Mark)) →
        HasFound s g root lists found → TellsLists s g root lists result }
{
    let Findings {
        wide,
        first,
        possible,
        kept,
        ..
    } = found;
    drop(kept);
    match wide {
        Some(path) => Told::TooWide(path),
        None => match first {
            Some(path) => Told::Impossible(path),
            None => Told::Possible(possible),
        },
    }
}

// Counts so many lists, of which this is told, unless one is too wide.
fn count<L: Ledger>(told: &Told, lists: u64, steps: &mut Steps<L>)
    ensures { (all : List (Listed Mark)) → lists ≡ length all →
        CountsTold all told.now steps.old steps.new }
{
    match told {
        Told::TooWide(_) => {}
        Told::Impossible(_) | Told::Possible(_) => count_lists(lists, steps),
    }
}

/// What the lists of the document that the bytes are tell, where the root's name is this one: what
/// `check_doc` of `pv_fresh` finds of it, found in one pass and without a tree.
///
/// The rules are laid out by the judge, or here, at the first list that isn't seen to be Valid: a
/// document whose lists all are takes no plan.
///
/// What `read_doc` refuses is refused, with the same error; a fault anywhere in the bytes comes
/// before any answer, unless long lists come before it. Each list is one step, as `check_doc`
/// counts them, though those that begin after an Impossible one aren't judged.
pub fn check_text<L: Ledger>(
    judge: &Judge<'_>,
    planning: Planning,
    root: &[u8],
    bytes: &[u8],
    steps: &mut Steps<L>,
) -> Result<Told, TextError>
    ensures read { IfOk result (λ _. (doc : PlainDoc Mark) ×
        DocumentMeans blank_mark root.now bytes.now (is_document doc)) }
    ensures tells { IfOk result (λ told. (doc : PlainDoc Mark) →
        DocumentMeans blank_mark root.now bytes.now (is_document doc) →
        Tells (dtd_of judge.now) root.now doc told) }
    ensures counts { IfOk result (λ told. (doc : PlainDoc Mark) →
        DocumentMeans blank_mark root.now bytes.now (is_document doc) →
        CountsTold (lists_of doc) told steps.old steps.new) }
    ensures refused { IfErr result (RefusesBytes (DocumentMeans blank_mark root.now bytes.now)) }
    ensures exactly { (o : Outcome Mark) → DocumentMeans blank_mark root.now bytes.now o →
        IfErr result (AnswersText o) }
    ensures uncounted { OnErr result (steps.new ≡ steps.old) }
{
    live_lists_law::<Mark>();
    proper_dtd_law(judge.grammar().dtd());
    let found = find_lists(Widths::Limited, judge, planning, root, bytes)?;
    let lists = found.lists;
    let told = tell(found);
    count(&told, lists, steps);
    Ok(told)
}

/// What the lists of the document that the bytes are tell, where the root's name is this one,
/// however wide they are: as `check_text` tells, but that none is too wide, and on no counter.
///
/// What `read_doc` refuses is refused, with the same error. A list whose table would have more than
/// 268,435,456 numbers takes more memory than there may be.
pub fn check_any_text(judge: &Judge<'_>, root: &[u8], bytes: &[u8]) -> Result<Told, DocError>
    ensures read { IfOk result (λ _. (doc : PlainDoc Mark) ×
        DocumentMeans blank_mark root.now bytes.now (is_document doc)) }
    ensures tells { IfOk result (λ told. (doc : PlainDoc Mark) →
        DocumentMeans blank_mark root.now bytes.now (is_document doc) →
        TellsAtAnyWidth (dtd_of judge.now) root.now doc told) }
    ensures refused { IfErr result (Refuses (DocumentMeans blank_mark root.now bytes.now)) }
    ensures exactly { (o : Outcome Mark) → DocumentMeans blank_mark root.now bytes.now o →
        IfErr result (λ e. Answers o (Err e)) }
{
    live_lists_law::<Mark>();
    proper_dtd_law(judge.grammar().dtd());
    match find_lists(Widths::Any, judge, Planning::Laid, root, bytes) {
        Ok(found) => Ok(tell(found)),
        Err(TextError::Document(error)) => Err(error),
        // No number of tokens is too many here.
        Err(TextError::LongLists) => Err(DocError::NoMemory),
    }
}
