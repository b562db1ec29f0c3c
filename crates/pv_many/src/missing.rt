//! How many elements are missing in documents: their lists are judged by one grammar, whose rules
//! are laid out once, when a document is first not valid, and lists that were weighed in one
//! document aren't weighed again in the next.

ghost use Rattle.std.specs.Prelude.{◌≡◌, ◌++◌, List, None, codes, decimal, ℕ};
ghost use Rattle.std.specs.List.{AllByRecursion};
ghost use Rattle.pv_commands.specs.Returns.{BehindDocument};
ghost use Rattle.pv_complete.specs.NeededElements.{HasCause};
ghost use Rattle.pv_complete.specs.RememberedGrammar.{Remembers};
ghost use Rattle.pv_dtd.specs.Plain.{PlainDtd};
ghost use Rattle.pv_many.specs.MissingAnswers.{IsNeedCourse, TellsMissing};
ghost use Rattle.pv_missing.specs.Verdicts.{IsLive};
ghost use Rattle.pv_opening.specs.Documents.{PlainOpened};
ghost use Rattle.pv_opening.specs.Possibility.{AreAllNarrow, AreVerdictsOf};
ghost use Rattle.pv_opening.specs.Response.{with_line};
ghost use Rattle.pv_opening.specs.Returns.{RefusesWith, TakesCourse, TellsBy};
ghost use Rattle.pv_opening.specs.declared.status.Status.TheVariants.{Done};
ghost use Rattle.pv_productive.specs.PlainForms.{dtd_of};
ghost use Rattle.pv_tree.specs.Lists.{lists_of};
ghost use Rattle.pv_tree.specs.Plain.{PlainDoc};
ghost use Rattle.pv_tree.specs.PlainDocs.{plain_doc};
ghost use Rattle.pv_tree.specs.declared.nodes.Mark.{Mark};

use crate::inquiry::Inquiry;
use crate::planner::Planner;
use pv_complete::{NeedError, Remembered, need_remembering};
use pv_missing::Verdicts;
use pv_opening::{
    Response, Status, Stop, narrow_verdicts_by, refuse, refuse_document, refuse_path,
};
use pv_reach::Judge;
use pv_read::read_doc;
use pv_steps::Steps;
use pv_tree::Doc;
use std::alloc::Global;
use std::marker::Model;
use std::sync::ledger::Ledger;
use std::thread::Threads;

// Why the number isn't told of a document of which no list is impossible, or too wide for a
// verdict.
fn withhold(alloc: Global, error: NeedError) -> Stop
    ensures { (root : List ℕ) (g : PlainDtd) (doc : PlainDoc Mark) → AreAllNarrow g doc →
        AllByRecursion (IsLive g root) (lists_of doc) → HasCause g root doc error →
        RefusesWith (TellsMissing root g doc) result }
{
    match error {
        NeedError::Impossible(path) => {
            refuse_path(alloc, Status::Done, b"no impossible ", path.places())
        }
        NeedError::TooWide(path) => refuse_path(alloc, Status::Done, b"no wide ", path.places()),
        NeedError::TooHeavy => refuse(alloc, Status::Done, b"no heavy"),
        // A table is let go before the next is made, so that they never have too many entries.
        NeedError::TooMany | NeedError::NoMemory => Stop::NoMemory,
    }
}

// The line of a document in which so many elements are missing.
fn number_line(alloc: Global, number: u64) -> Result<Response, Stop>
    ensures { TellsBy (λ r. r ≡ with_line Done (codes "need " ++ decimal number)) result }
{
    Ok(Response::with_number(alloc, Status::Done, b"need ", number)?)
}

// The line of a document of which no list is impossible.
fn weighed_line(
    judge: &Judge<'_>,
    doc: &Doc,
    root: &[u8],
    verdicts: &Verdicts,
    remembered: &mut Remembered,
) -> Result<Response, Stop>
    requires { Remembers (dtd_of judge.now) remembered.old }
    ensures tells { AreVerdictsOf root.now (dtd_of judge.now) (plain_doc doc.now) verdicts.now →
        verdicts.now.first ≡ None →
        TellsBy (TellsMissing root.now (dtd_of judge.now) (plain_doc doc.now)) result }
    ensures remembers { Remembers (dtd_of judge.now) remembered.new }
{
    let alloc = judge.alloc();
    match need_remembering(alloc, judge.grammar(), root, doc, verdicts, remembered) {
        Ok(number) => number_line(alloc, number),
        Err(error) => Err(withhold(alloc, error)),
    }
}

// The line of a document whose lists have these verdicts.
fn need_line(
    judge: &Judge<'_>,
    doc: &Doc,
    root: &[u8],
    verdicts: &Verdicts,
    remembered: &mut Remembered,
) -> Result<Response, Stop>
    requires { Remembers (dtd_of judge.now) remembered.old }
    ensures tells { AreVerdictsOf root.now (dtd_of judge.now) (plain_doc doc.now) verdicts.now →
        TellsBy (TellsMissing root.now (dtd_of judge.now) (plain_doc doc.now)) result }
    ensures remembers { Remembers (dtd_of judge.now) remembered.new }
{
    match verdicts.first_impossible() {
        Some(path) => Err(refuse_path(
            judge.alloc(),
            Status::Done,
            b"no impossible ",
            path.places(),
        )),
        None => weighed_line(judge, doc, root, verdicts, remembered),
    }
}

// Judges the lists of a document, weighs those that aren't valid, and tells its line.
fn need_of_document<L: Ledger>(
    rt: &(impl Threads + Sync),
    judge: &Judge<'_>,
    doc: &Doc,
    root: &[u8],
    remembered: &mut Remembered,
    steps: &mut Steps<L>,
) -> Result<Response, Stop>
    requires { Remembers (dtd_of judge.now) remembered.old }
    ensures takes { (opened : PlainOpened) → opened.dtd ≡ dtd_of judge.now →
        opened.doc ≡ plain_doc doc.now → TakesCourse (IsNeedCourse root.now opened) result }
    ensures remembers { Remembers (dtd_of judge.now) remembered.new }
{
    let verdicts = narrow_verdicts_by(rt, judge, doc, root, steps)?;
    need_line(judge, doc, root, &verdicts, remembered)
}

// The line of the document that the bytes are.
fn need_of_bytes<L: Ledger>(
    rt: &(impl Threads + Sync),
    judge: &Judge<'_>,
    root: &[u8],
    bytes: &[u8],
    remembered: &mut Remembered,
    steps: &mut Steps<L>,
) -> Result<Response, Stop>
    requires { Remembers (dtd_of judge.now) remembered.old }
    ensures takes { TakesCourse
        (BehindDocument IsNeedCourse root.now (dtd_of judge.now, bytes.now)) result }
    ensures remembers { Remembers (dtd_of judge.now) remembered.new }
{
    match read_doc(judge.alloc(), bytes, root) {
        Ok(doc) => need_of_document(rt, judge, &doc, root, remembered, steps),
        Err(error) => Err(refuse_document(judge.alloc(), error)),
    }
}

// The line of the document that the bytes are, for which there may be no plan so far.
fn need_of_text<L: Ledger>(
    rt: &(impl Threads + Sync),
    planner: &mut Planner,
    root: &[u8],
    bytes: &[u8],
    remembered: &mut Remembered,
    steps: &mut Steps<L>,
) -> Result<Response, Stop>
    requires { Remembers (dtd_of planner.old) remembered.old }
    ensures takes { TakesCourse
        (BehindDocument IsNeedCourse root.now (dtd_of planner.old, bytes.now)) result }
    ensures remembers { Remembers (dtd_of planner.old) remembered.new }
    ensures same { planner.new ≡ planner.old }
{
    match planner.find_valid(root, bytes) {
        Ok(true) => number_line(planner.alloc(), 0),
        Ok(false) => {
            let judge = planner.judge();
            need_of_bytes(rt, &judge, root, bytes, remembered, steps)
        }
        Err(error) => Err(refuse_document(planner.alloc(), error)),
    }
}

/// How many elements are missing in documents, by one grammar, and by what is remembered of it from
/// one document to the next. Contracts see the grammar.
#[derive(Drop)]
pub struct Missing<L: Ledger> {
    planner: Planner,
    remembered: Remembered,
    steps: Steps<L>,
}

impl<L: Ledger> Model for Missing<L> {
    ghost use Rattle.pv_productive.specs.declared.grammar.Grammar.{Grammar};
    ghost use Rattle.pv_productive.specs.contracts.grammar.Grammar as grammar_row;

    ghost Value = { Grammar };

    ghost coded = { grammar_row.the_row.coded };

    ghost view = { λ s. s.planner };

    ghost use Rattle.pv_complete.specs.RememberedGrammar.{Remembers};
    ghost use Rattle.pv_productive.specs.PlainForms.{dtd_of};

    ghost invariant = { λ s. Remembers (dtd_of s.planner) s.remembered };
}

impl<L: Ledger> Missing<L> {
    /// By one grammar. Nothing is remembered so far.
    pub fn by(planner: Planner, steps: Steps<L>) -> Missing<L>
        ensures { result ≡ planner }
    {
        let remembered = Remembered::nothing(planner.alloc());
        Missing {
            planner,
            remembered,
            steps,
        }
    }
}

impl<L: Ledger> Inquiry for Missing<L> {
    ghost use Rattle.pv_many.specs.declared.requests.Question.TheVariants.{Need};

    ghost question = { λ _. Need };

    ghost dtd = { λ s. dtd_of s };

    fn answer<R: Threads + Sync>(
        &mut self,
        rt: &R,
        _alloc: Global,
        root: &[u8],
        bytes: Vec<u8>,
    ) -> Result<Response, Stop> {
        need_of_text(
            rt,
            &mut self.planner,
            root,
            &bytes,
            &mut self.remembered,
            &mut self.steps,
        )
    }
}
