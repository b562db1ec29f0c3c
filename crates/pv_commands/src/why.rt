//! The command `why`.

ghost use Rattle.std.specs.Prelude.{◌≡◌, length};
ghost use Rattle.pv_commands.specs.Returns.{BehindDocument};
ghost use Rattle.pv_opening.specs.Documents.{PlainOpened};
ghost use Rattle.pv_opening.specs.JudgedCounts.{CountsJudged, CountsNoMore, judging_stage};
ghost use Rattle.pv_opening.specs.JudgedCounts.{lists_judged};
ghost use Rattle.pv_opening.specs.Possibility.{width_stage};
ghost use Rattle.pv_opening.specs.Returns.{TakesCourse, TellsBy, ending_of, plain_fetched};
ghost use Rattle.pv_commands.specs.Why.{IsWhyCourse, TellsWhy};
ghost use Rattle.pv_dtd.specs.PlainForms.{plain_dtd};
ghost use Rattle.pv_fresh.specs.Answers.{IsImpossibleAt};
ghost use Rattle.pv_productive.specs.PlainForms.{dtd_of};
ghost use Rattle.pv_tree.specs.Lists.{lists_of};
ghost use Rattle.pv_tree.specs.PlainDocs.{plain_doc};

use pv_denial_text::write_denial;
use pv_deny::{DenyError, denial_by};
use pv_dtd::Dtd;
use pv_opening::{
    Fetched, Opened, Response, Status, Stop, narrow_verdicts_by, open_document, refuse,
};
use pv_productive::{Grammar, build};
use pv_reach::{Judge, Plan};
use pv_steps::Steps;
use pv_tree::{Doc, Path};
use std::alloc::Global;
use std::mem::forget;
use std::sync::ledger::Ledger;
use std::thread::Threads;

// The text of what denies a document whose first impossible list is at this path.
fn explain(judge: &Judge<'_>, doc: &Doc, root: &[u8], path: &Path) -> Result<Response, Stop>
    requires { IsImpossibleAt root.now (dtd_of judge.now) (plain_doc doc.now) path.now }
    ensures { TellsBy (TellsWhy root.now (dtd_of judge.now) (plain_doc doc.now)) result }
{
    let alloc = judge.alloc();
    let path = Path::new(alloc, path.places())?;
    match denial_by(judge, root, doc, path) {
        Ok(denial) => Ok(Response {
            status: Status::Done,
            output: write_denial(alloc, &denial)?,
        }),
        Err(DenyError::TooMany) => Err(refuse(alloc, Status::Limit, b"limit tables")),
        Err(DenyError::NoMemory) => Err(Stop::NoMemory),
        Err(DenyError::TooWide(_path)) => unreachable!(),
        Err(DenyError::Possible) => unreachable!(),
    }
}

// Why no insertions can make the document valid, or that they can.
fn tell<L: Ledger>(
    rt: &(impl Threads + Sync),
    judge: &Judge<'_>,
    doc: &Doc,
    root: &[u8],
    steps: &mut Steps<L>,
) -> Result<Response, Stop>
    ensures tells { (opened : PlainOpened) → opened.dtd ≡ dtd_of judge.now →
        opened.doc ≡ plain_doc doc.now → TakesCourse (IsWhyCourse root.now opened) result }
    ensures counts { CountsJudged (width_stage (dtd_of judge.now) (plain_doc doc.now))
        (λ _. length (lists_of (plain_doc doc.now))) CountsNoMore (ending_of result)
        steps.old steps.new }
{
    let verdicts = narrow_verdicts_by(rt, judge, doc, root, steps)?;
    match verdicts.first_impossible() {
        Some(path) => explain(judge, doc, root, path),
        None => Ok(Response::with_line(judge.alloc(), Status::Negative, b"possible")?),
    }
}

// Why no insertions can make the document valid, or that they can, by a grammar whose rules are
// laid out once, for the verdicts and for the table.
fn tell_by<L: Ledger>(
    rt: &(impl Threads + Sync),
    alloc: Global,
    grammar: &Grammar,
    doc: &Doc,
    root: &[u8],
    steps: &mut Steps<L>,
) -> Result<Response, Stop>
    ensures tells { (opened : PlainOpened) → opened.dtd ≡ dtd_of grammar.now →
        opened.doc ≡ plain_doc doc.now → TakesCourse (IsWhyCourse root.now opened) result }
    ensures counts { CountsJudged (width_stage (dtd_of grammar.now) (plain_doc doc.now))
        (λ _. length (lists_of (plain_doc doc.now))) CountsNoMore (ending_of result)
        steps.old steps.new }
{
    let plan = Plan::of(alloc, grammar)?;
    let judge = Judge::new(alloc, grammar, &plan);
    tell(rt, &judge, doc, root, steps)
}

// Why no insertions can make the document valid, or that they can, for a DTD.
fn tell_for<L: Ledger>(
    rt: &(impl Threads + Sync),
    alloc: Global,
    dtd: Dtd,
    doc: &Doc,
    root: &[u8],
    steps: &mut Steps<L>,
) -> Result<Response, Stop>
    ensures tells { (opened : PlainOpened) → opened.dtd ≡ plain_dtd dtd →
        opened.doc ≡ plain_doc doc.now → TakesCourse (IsWhyCourse root.now opened) result }
    ensures counts { CountsJudged (width_stage (plain_dtd dtd) (plain_doc doc.now))
        (λ _. length (lists_of (plain_doc doc.now))) CountsNoMore (ending_of result)
        steps.old steps.new }
{
    let grammar = build(alloc, dtd)?;
    tell_by(rt, alloc, &grammar, doc, root, steps)
}

/// Why no insertions can make a document valid for a DTD: its first impossible list, the cause, and
/// where that is its word a table that shows it. The rules of the grammar are laid out once, for
/// the verdicts and for the table. The document is never freed.
pub fn why<L: Ledger>(
    rt: &(impl Threads + Sync),
    alloc: Global,
    fetched: Fetched,
    root: &[u8],
    steps: &mut Steps<L>,
) -> Result<Response, Stop>
    ensures finds { TakesCourse (BehindDocument IsWhyCourse root.now (plain_fetched fetched))
        result }
    ensures checks { CountsJudged (judging_stage root.now (plain_fetched fetched).0
        (plain_fetched fetched).1) lists_judged CountsNoMore (ending_of result)
        steps.old steps.new }
{
    let Opened { dtd, doc, .. } = open_document(alloc, fetched, root)?;
    let response = tell_for(rt, alloc, dtd, &doc, root, steps);
    forget(doc);
    response
}
