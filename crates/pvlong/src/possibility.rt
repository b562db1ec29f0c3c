//! Whether inserting elements can make a document valid, however wide its lists are.

ghost use Rattle.std.specs.Prelude.{List, false, ℕ};
ghost use Rattle.pv_check.specs.Answers.{TellsAtAnyWidth};
ghost use Rattle.pv_dtd.specs.Plain.{PlainDtd};
ghost use Rattle.pv_opening.specs.Possibility.{TellsPossibility};
ghost use Rattle.pv_opening.specs.Returns.{TakesCourse, TellsBy, plain_fetched};
ghost use Rattle.pv_productive.specs.PlainForms.{dtd_of};
ghost use Rattle.pv_tree.specs.Plain.{PlainDoc};
ghost use Rattle.pv_tree.specs.declared.nodes.Mark.{Mark};
ghost use Rattle.pvlong.specs.RequestAnswers.{AnswersFetched};
ghost use Rattle.pvlong.specs.declared.requests.Question.TheVariants.{Check};

use pv_check::{Told, check_any_text};
use pv_opening::{Fetched, Response, Status, Stop, possible_line, refuse_document, refuse_path};
use pv_productive::{Grammar, build};
use pv_reach::{Judge, Plan};
use std::alloc::Global;

// What is told of the lists of a document.
fn respond_told(alloc: Global, told: Told) -> Result<Response, Stop>
    requires { (root : List ℕ) × (g : PlainDtd) × (doc : PlainDoc Mark) ×
        TellsAtAnyWidth g root doc told }
    ensures { (root : List ℕ) (g : PlainDtd) (doc : PlainDoc Mark) →
        TellsAtAnyWidth g root doc told → TellsBy (TellsPossibility root g doc) result }
{
    match told {
        Told::Possible(left) => Ok(possible_line(alloc, left)?),
        Told::Impossible(path) => {
            let places = path.places();
            Err(refuse_path(alloc, Status::Negative, b"impossible ", places))
        }
        Told::TooWide(_) => unreachable!(),
    }
}

// Whether inserting elements can make the document valid for this grammar that these bytes are, or
// why they are none.
fn check_bytes(
    alloc: Global,
    grammar: &Grammar,
    root: &[u8],
    bytes: &[u8],
) -> Result<Response, Stop>
    ensures { TakesCourse
        (AnswersFetched Check root.now (dtd_of grammar.now, bytes.now) false) result }
{
    let plan = Plan::of(alloc, grammar)?;
    let judge = Judge::new(alloc, grammar, &plan);
    match check_any_text(&judge, root, bytes) {
        Ok(told) => respond_told(alloc, told),
        Err(error) => Err(refuse_document(alloc, error)),
    }
}

/// Whether inserting elements can make a document valid whose bytes were fetched, or why they are
/// none. They are read once, without a tree.
pub fn check(alloc: Global, fetched: Fetched, root: &[u8]) -> Result<Response, Stop>
    ensures { TakesCourse (AnswersFetched Check root.now (plain_fetched fetched) false) result }
{
    let Fetched { dtd, bytes } = fetched;
    let grammar = build(alloc, dtd)?;
    check_bytes(alloc, &grammar, root, &bytes)
}
