//! What is told of the elements that are missing in a document: numbers, or a document.

ghost use Rattle.std.specs.Prelude.{IfOk, List, ℕ, ◌≡◌, false};
ghost use Rattle.pv_dtd.specs.Plain.{PlainDtd};
ghost use Rattle.pv_tree.specs.Plain.{PlainDoc};
ghost use Rattle.pv_tree.specs.declared.nodes.Mark.{Mark};
ghost use Rattle.pv_long.specs.BoundAnswers.{IsMissing, TellsNone};
ghost use Rattle.pv_opening.specs.Response.{plain_response, with_line};
ghost use Rattle.pv_opening.specs.Returns.{RefusesWith};
ghost use Rattle.pv_opening.specs.declared.status.Status.TheVariants.{Done};
ghost use Rattle.pvlong.specs.ToldNumbers.{TellsDocument, TellsNothing, TellsNumber};
ghost use Rattle.pvlong.specs.ToldNumbers.{bounds_text};

use pv_long::{Completion, LongError, Missing};
use pv_opening::{Response, Status, Stop, refuse, refuse_path};
use pv_words::push_number;
use std::alloc::{AllocError, Global};

/// What is told: a response, and whether it is a document that may not be least.
#[derive(Drop)]
pub struct Told {
    pub response: Response,
    pub not_least: bool,
}

impl Told {
    /// A response that isn't a document that may not be least.
    pub fn of(response: Response) -> Told
        ensures response { result.response ≡ response }
        ensures least { result.not_least ≡ false }
    {
        Told {
            response,
            not_least: false,
        }
    }

    // A completed document.
    fn document(output: Vec<u8>, not_least: bool) -> Told
        ensures response { plain_response result.response
            ≡ record { status = Done; output = output.items } }
        ensures least { result.not_least ≡ not_least }
    {
        let status = Status::Done;
        Told {
            response: Response { status, output },
            not_least,
        }
    }
}

// The line of two bounds.
fn bounds_line(alloc: Global, least: u32, most: u32) -> Result<Response, AllocError>
    ensures { IfOk result (λ r. plain_response r ≡ with_line Done (bounds_text least most)) }
{
    let mut line = Vec::from_slice(alloc, b"need ")?;
    push_number(&mut line, u64::from(least))?;
    line.extend_from_slice(b" to ")?;
    push_number(&mut line, u64::from(most))?;
    Response::with_line(alloc, Status::Done, &line)
}

/// The line of what is told.
pub fn number_line(alloc: Global, missing: &Missing) -> Result<Response, AllocError>
    ensures { (root bytes : List ℕ) (g : PlainDtd) (doc : PlainDoc Mark) →
        IsMissing g root doc bytes missing.now →
        IfOk result (λ r. TellsNumber root g doc (plain_response r)) }
{
    match missing {
        Missing::Exactly(c) => {
            Response::with_number(alloc, Status::Done, b"need ", u64::from(c.count))
        }
        Missing::Between(least, c) => bounds_line(alloc, *least, c.count),
    }
}

/// The completed document.
pub fn document_of(missing: Missing) -> Told
    ensures { (root bytes : List ℕ) (g : PlainDtd) (doc : PlainDoc Mark) →
        IsMissing g root doc bytes missing →
        TellsDocument root g doc bytes result.not_least (plain_response result.response) }
{
    match missing {
        Missing::Exactly(Completion { body, .. }) => Told::document(body, false),
        Missing::Between(_, Completion { body, .. }) => Told::document(body, true),
    }
}

/// Refuses a document of which nothing is told, for this reason.
pub fn refuse_missing(alloc: Global, error: LongError) -> Stop
    ensures { (root : List ℕ) (g : PlainDtd) (doc : PlainDoc Mark) → TellsNone g root doc error →
        RefusesWith (TellsNothing root g doc) result }
{
    match error {
        LongError::TooWide(path) => {
            refuse_path(alloc, Status::Limit, b"no wide ", path.places())
        }
        LongError::Impossible(path) => {
            refuse_path(alloc, Status::Negative, b"no impossible ", path.places())
        }
        LongError::TooHeavy => refuse(alloc, Status::Limit, b"no heavy"),
        LongError::TooMany => refuse(alloc, Status::Limit, b"no limit"),
        LongError::Unproved => refuse(alloc, Status::Limit, b"no proof"),
        LongError::NoMemory => Stop::NoMemory,
    }
}
