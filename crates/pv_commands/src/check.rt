//! The command `check`.

ghost use Rattle.std.specs.Prelude.{◌≡◌, IfOk, List, length, ℕ};
ghost use Rattle.pv_check.specs.Answers.{CountsTold, RefusesBytes, Tells};
ghost use Rattle.pv_read.specs.Meaning.{DocumentMeans};
ghost use Rattle.pv_tree.specs.Marks.{blank_mark};
ghost use Rattle.pv_commands.specs.Check.{IsCheckCourse};
ghost use Rattle.pv_commands.specs.Returns.{BehindDocument};
ghost use Rattle.pv_dtd.specs.Plain.{PlainDtd};
ghost use Rattle.pv_opening.specs.Documents.{PlainOpened};
ghost use Rattle.pv_opening.specs.JudgedCounts.{CountsJudged, CountsNoMore, judging_stage};
ghost use Rattle.pv_opening.specs.JudgedCounts.{lists_judged};
ghost use Rattle.pv_opening.specs.Possibility.{AreVerdictsOf, TellsPossibility, width_stage};
ghost use Rattle.pv_opening.specs.Response.{plain_response};
ghost use Rattle.pv_opening.specs.Returns.{TakesCourse, ending_of, plain_fetched};
ghost use Rattle.pv_productive.specs.PlainForms.{dtd_of};
ghost use Rattle.pv_tree.specs.Lists.{lists_of};
ghost use Rattle.pv_tree.specs.Plain.{PlainDoc};
ghost use Rattle.pv_tree.specs.PlainDocs.{plain_doc};
ghost use Rattle.pv_tree.specs.declared.nodes.Mark.{Mark};

use pv_check::{Planning, TextError, Told, check_text};
use pv_missing::Verdicts;
use pv_opening::{
    Fetched, Response, Status, Stop, narrow_verdicts_by, possible_line, refuse_document,
    refuse_path,
};
use pv_productive::{Grammar, build};
use pv_reach::{Judge, Plan};
use pv_read::read_doc;
use pv_steps::Steps;
use pv_tree::Doc;
use std::alloc::{AllocError, Global};
use std::mem::forget;
use std::sync::ledger::Ledger;
use std::thread::Threads;

/// What becomes of a document that was read from a text, once there is an answer.
#[derive(Clone, Copy)]
pub enum Keeping {
    /// Its memory is given back.
    Freed,
    /// It stays as long as the process, which ends sooner so.
    Kept,
}

/// What `check` tells of a document by its verdicts.
pub(crate) fn check_line(alloc: Global, verdicts: &Verdicts) -> Result<Response, AllocError>
    ensures { (root : List ℕ) (g : PlainDtd) (doc : PlainDoc Mark) →
        AreVerdictsOf root g doc verdicts.now →
        IfOk result (λ r. TellsPossibility root g doc (plain_response r)) }
{
    match verdicts.first_impossible() {
        Some(path) => {
            Response::with_path(alloc, Status::Negative, b"impossible ", path.places())
        }
        None => possible_line(alloc, verdicts.left()),
    }
}

// Judges the lists of the document, and tells its line.
fn tell<L: Ledger>(
    rt: &(impl Threads + Sync),
    judge: &Judge<'_>,
    doc: &Doc,
    root: &[u8],
    steps: &mut Steps<L>,
) -> Result<Response, Stop>
    ensures tells { (opened : PlainOpened) → opened.dtd ≡ dtd_of judge.now →
        opened.doc ≡ plain_doc doc.now → TakesCourse (IsCheckCourse root.now opened) result }
    ensures counts { CountsJudged (width_stage (dtd_of judge.now) (plain_doc doc.now))
        (λ _. length (lists_of (plain_doc doc.now))) CountsNoMore (ending_of result)
        steps.old steps.new }
{
    let verdicts = narrow_verdicts_by(rt, judge, doc, root, steps)?;
    Ok(check_line(judge.alloc(), &verdicts)?)
}

// What is told of the lists of a document, all of which are counted unless one is too wide.
fn respond_told(alloc: Global, told: Told) -> Result<Response, Stop>
    ensures tells { (root : List ℕ) (opened : PlainOpened) →
        Tells opened.dtd root opened.doc told → TakesCourse (IsCheckCourse root opened) result }
    ensures counts { (root : List ℕ) (opened : PlainOpened) (before after : ℕ) →
        Tells opened.dtd root opened.doc told →
        CountsTold (lists_of opened.doc) told before after →
        CountsJudged (width_stage opened.dtd opened.doc) (λ _. length (lists_of opened.doc))
        CountsNoMore (ending_of result) before after }
{
    match told {
        Told::Possible(left) => Ok(possible_line(alloc, left)?),
        Told::Impossible(path) => {
            let places = path.places();
            Err(refuse_path(alloc, Status::Negative, b"impossible ", places))
        }
        Told::TooWide(path) => {
            let places = path.places();
            Err(refuse_path(alloc, Status::Limit, b"limit width ", places))
        }
    }
}

// Lets go of a document.
fn release(doc: Doc, keeping: Keeping) {
    match keeping {
        Keeping::Freed => drop(doc),
        Keeping::Kept => forget(doc),
    }
}

// What is told of the lists of a document that is opened first, so that threads share its lists, by
// the plan that is there.
fn check_opened<L: Ledger>(
    rt: &(impl Threads + Sync),
    judge: &Judge<'_>,
    root: &[u8],
    bytes: &[u8],
    keeping: Keeping,
    steps: &mut Steps<L>,
) -> Result<Response, Stop>
    ensures finds { TakesCourse
        (BehindDocument IsCheckCourse root.now (dtd_of judge.now, bytes.now)) result }
    ensures checks { CountsJudged (judging_stage root.now (dtd_of judge.now) bytes.now)
        lists_judged CountsNoMore (ending_of result) steps.old steps.new }
{
    match read_doc(judge.alloc(), bytes, root) {
        Ok(doc) => {
            let response = tell(rt, judge, &doc, root, steps);
            release(doc, keeping);
            response
        }
        Err(error) => Err(refuse_document(judge.alloc(), error)),
    }
}

// What is told of the lists of a document that is opened first, by a plan that is laid out for it.
fn plan_and_check_opened<L: Ledger>(
    rt: &(impl Threads + Sync),
    judge: &Judge<'_>,
    root: &[u8],
    bytes: &[u8],
    keeping: Keeping,
    steps: &mut Steps<L>,
) -> Result<Response, Stop>
    ensures finds { TakesCourse
        (BehindDocument IsCheckCourse root.now (dtd_of judge.now, bytes.now)) result }
    ensures checks { CountsJudged (judging_stage root.now (dtd_of judge.now) bytes.now)
        lists_judged CountsNoMore (ending_of result) steps.old steps.new }
{
    let plan = Plan::of(judge.alloc(), judge.grammar())?;
    let planned = Judge::new(judge.alloc(), judge.grammar(), &plan);
    check_opened(rt, &planned, root, bytes, keeping, steps)
}

// What is done where a text has no answer: its fault is told, or it is opened.
fn check_again<L: Ledger>(
    rt: &(impl Threads + Sync),
    judge: &Judge<'_>,
    planning: Planning,
    root: &[u8],
    bytes: &[u8],
    error: TextError,
    keeping: Keeping,
    steps: &mut Steps<L>,
) -> Result<Response, Stop>
    requires { RefusesBytes (DocumentMeans blank_mark root.now bytes.now) error }
    ensures finds { TakesCourse
        (BehindDocument IsCheckCourse root.now (dtd_of judge.now, bytes.now)) result }
    ensures checks { CountsJudged (judging_stage root.now (dtd_of judge.now) bytes.now)
        lists_judged CountsNoMore (ending_of result) steps.old steps.new }
{
    match error {
        TextError::Document(fault) => Err(refuse_document(judge.alloc(), fault)),
        TextError::LongLists => match planning {
            Planning::Laid => check_opened(rt, judge, root, bytes, keeping, steps),
            Planning::AtNeed => plan_and_check_opened(rt, judge, root, bytes, keeping, steps),
        },
    }
}

// What `check_by` answers, by a judge whose rules are laid out then.
fn check_planned<L: Ledger>(
    rt: &(impl Threads + Sync),
    judge: &Judge<'_>,
    planning: Planning,
    root: &[u8],
    bytes: &[u8],
    keeping: Keeping,
    steps: &mut Steps<L>,
) -> Result<Response, Stop>
    ensures finds { TakesCourse
        (BehindDocument IsCheckCourse root.now (dtd_of judge.now, bytes.now)) result }
    ensures checks { CountsJudged (judging_stage root.now (dtd_of judge.now) bytes.now)
        lists_judged CountsNoMore (ending_of result) steps.old steps.new }
{
    match check_text(judge, planning, root, bytes, steps) {
        Ok(told) => respond_told(judge.alloc(), told),
        Err(error) => check_again(rt, judge, planning, root, bytes, error, keeping, steps),
    }
}

/// Whether inserting elements can make the document that the bytes are valid, by what judges its
/// lists, each in one step. Where threads share its lists it is read first.
pub fn check_by<L: Ledger>(
    rt: &(impl Threads + Sync),
    judge: &Judge<'_>,
    root: &[u8],
    bytes: &[u8],
    keeping: Keeping,
    steps: &mut Steps<L>,
) -> Result<Response, Stop>
    ensures finds { TakesCourse
        (BehindDocument IsCheckCourse root.now (dtd_of judge.now, bytes.now)) result }
    ensures checks { CountsJudged (judging_stage root.now (dtd_of judge.now) bytes.now)
        lists_judged CountsNoMore (ending_of result) steps.old steps.new }
{
    check_planned(rt, judge, Planning::Laid, root, bytes, keeping, steps)
}

// Whether inserting elements can make a document valid for this grammar, whose rules are laid out
// at the first list that isn't seen to be Valid. The document is never freed.
fn check_under<L: Ledger>(
    rt: &(impl Threads + Sync),
    alloc: Global,
    grammar: &Grammar,
    root: &[u8],
    bytes: &[u8],
    steps: &mut Steps<L>,
) -> Result<Response, Stop>
    ensures finds { TakesCourse
        (BehindDocument IsCheckCourse root.now (dtd_of grammar.now, bytes.now)) result }
    ensures checks { CountsJudged (judging_stage root.now (dtd_of grammar.now) bytes.now)
        lists_judged CountsNoMore (ending_of result) steps.old steps.new }
{
    let judge = Judge::without_plan(alloc, grammar);
    check_planned(
        rt,
        &judge,
        Planning::AtNeed,
        root,
        bytes,
        Keeping::Kept,
        steps,
    )
}

/// Whether inserting elements can make a document valid for a DTD.
pub fn check<L: Ledger>(
    rt: &(impl Threads + Sync),
    alloc: Global,
    fetched: Fetched,
    root: &[u8],
    steps: &mut Steps<L>,
) -> Result<Response, Stop>
    ensures finds { TakesCourse (BehindDocument IsCheckCourse root.now (plain_fetched fetched))
        result }
    ensures checks { CountsJudged (judging_stage root.now (plain_fetched fetched).0
        (plain_fetched fetched).1) lists_judged CountsNoMore (ending_of result)
        steps.old steps.new }
{
    let Fetched { dtd, bytes } = fetched;
    let grammar = build(alloc, dtd)?;
    check_under(rt, alloc, &grammar, root, &bytes, steps)
}
