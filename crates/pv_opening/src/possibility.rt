//! The verdicts of a document's lists, as `check` and the opening of a session ask for them.

ghost use Rattle.std.specs.Prelude.{◌≡◌, ◌+◌, IfErr, IfOk, OnErr, OnOk, length};
ghost use Rattle.pv_opening.specs.Possibility.{AreVerdictsOf, possible_text, width_stage};
ghost use Rattle.pv_opening.specs.Response.{plain_response, with_line};
ghost use Rattle.pv_opening.specs.Returns.{StopsBy};
ghost use Rattle.pv_opening.specs.declared.status.Status.TheVariants.{Done};
ghost use Rattle.pv_dtd.specs.Plain.{PlainDtd};
ghost use Rattle.pv_fresh.specs.Answers.{HasCause};
ghost use Rattle.pv_productive.specs.PlainForms.{dtd_of};
ghost use Rattle.pv_tree.specs.Lists.{lists_of};
ghost use Rattle.pv_tree.specs.Plain.{PlainDoc};
ghost use Rattle.pv_tree.specs.PlainDocs.{plain_doc};
ghost use Rattle.pv_tree.specs.declared.nodes.Mark.{Mark};

use crate::opening::refuse_path;
use crate::response::Response;
use crate::status::Status;
use crate::stop::Stop;
use pv_fresh::FreshError;
use pv_missing::Verdicts;
use pv_parallel::{NoGate, check_doc_par, check_doc_par_by};
use pv_productive::Grammar;
use pv_reach::Judge;
use pv_steps::Steps;
use pv_tree::Doc;
use std::alloc::{AllocError, Global};
use std::sync::ledger::Ledger;
use std::thread::Threads;

// Refuses a document that has no verdicts, for this reason.
fn refuse_wide(alloc: Global, error: FreshError) -> Stop
    ensures { (g : PlainDtd) (doc : PlainDoc Mark) → HasCause g doc error →
        StopsBy (width_stage g doc) 0 result }
{
    match error {
        FreshError::TooWide(path) => {
            refuse_path(alloc, Status::Limit, b"limit width ", path.places())
        }
        FreshError::NoMemory => Stop::NoMemory,
    }
}

/// The verdicts of a document's lists, in one step for each. It refuses where a list is too wide,
/// and takes no step then.
pub fn narrow_verdicts<L: Ledger>(
    rt: &(impl Threads + Sync),
    alloc: Global,
    grammar: &Grammar,
    doc: &Doc,
    root: &[u8],
    steps: &mut Steps<L>,
) -> Result<Verdicts, Stop>
    ensures has { IfOk result (AreVerdictsOf root.now (dtd_of grammar.now) (plain_doc doc.now)) }
    ensures denied { IfErr result (StopsBy (width_stage (dtd_of grammar.now)
        (plain_doc doc.now)) 0) }
    ensures judged { OnOk result (steps.new ≡ steps.old + length (lists_of (plain_doc doc.now))) }
    ensures unjudged { OnErr result (steps.new ≡ steps.old) }
{
    match check_doc_par(rt, alloc, grammar, root, doc, &NoGate, steps) {
        Ok(verdicts) => Ok(verdicts),
        Err(error) => Err(refuse_wide(alloc, error)),
    }
}

/// The verdicts of a document's lists, in one step for each, by a judge, which has the plan of a
/// grammar where its rules are laid out.
pub fn narrow_verdicts_by<L: Ledger>(
    rt: &(impl Threads + Sync),
    judge: &Judge<'_>,
    doc: &Doc,
    root: &[u8],
    steps: &mut Steps<L>,
) -> Result<Verdicts, Stop>
    ensures has { IfOk result (AreVerdictsOf root.now (dtd_of judge.now) (plain_doc doc.now)) }
    ensures denied { IfErr result (StopsBy (width_stage (dtd_of judge.now)
        (plain_doc doc.now)) 0) }
    ensures judged { OnOk result (steps.new ≡ steps.old + length (lists_of (plain_doc doc.now))) }
    ensures unjudged { OnErr result (steps.new ≡ steps.old) }
{
    match check_doc_par_by(rt, judge, root, doc, &NoGate, steps) {
        Ok(verdicts) => Ok(verdicts),
        Err(error) => Err(refuse_wide(judge.alloc(), error)),
    }
}

/// The response where so many lists are Possible, and none is Impossible: inserting elements can
/// make the document valid, or it is.
pub fn possible_line(alloc: Global, left: u64) -> Result<Response, AllocError>
    ensures { IfOk result (λ r. plain_response r ≡ with_line Done (possible_text left)) }
{
    if left == 0 {
        Response::with_line(alloc, Status::Done, b"valid")
    } else {
        Response::with_number(alloc, Status::Done, b"possible ", left)
    }
}
