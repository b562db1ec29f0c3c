//! All that the program does.

ghost use Rattle.std.specs.Prelude.{◌≡◌, codes, true, Contains};
ghost use Rattle.pv_dtd.specs.PlainForms.{plain_dtd};
ghost use Rattle.pv_io.specs.Files.{byte_lists, fetch_names};
ghost use Rattle.pv_many.specs.Many.{AnswersAsked, AnswersOver, AnswersMany};
ghost use Rattle.pv_many.specs.Requests.{request_told};
ghost use Rattle.std.specs.Prelude.{Some};
ghost use Rattle.pv_opening.specs.Devices.{input_at, output_at};
ghost use Rattle.pv_opening.specs.Response.{with_line};
ghost use Rattle.pv_opening.specs.Returns.{TellsBy};
ghost use Rattle.pv_opening.specs.declared.status.Status.TheVariants.{Usage};

use crate::archive::Archive;
use crate::input::answer_input;
use crate::inquiry::Validation;
use crate::missing::Missing;
use crate::planner::Planner;
use crate::possibility::Possibility;
use crate::requests::{Question, Request, request_of};
use pv_dtd::Dtd;
use pv_io::{Shelf, Sink, Source};
use pv_opening::{Response, Status, Stop, open_dtd, respond};
use pv_steps::Steps;
use std::alloc::Global;
use std::sync::ledger::Ledger;
use std::thread::Threads;

fn usage(alloc: Global) -> Result<Response, Stop>
    ensures { TellsBy (λ r. r ≡ with_line Usage (codes "usage")) result }
{
    Ok(Response::with_line(alloc, Status::Usage, b"usage")?)
}

// Answers a question of the documents that the input names, by a DTD.
fn answer_by<L: Ledger, F: Archive, S: Source, K: Sink>(
    rt: &(impl Threads + Sync),
    alloc: Global,
    question: Question,
    dtd: Dtd,
    root: &[u8],
    steps: Steps<L>,
    archive: &mut F,
    input: &mut S,
    out: &mut K,
) -> Status
    requires { K.ready out.old ≡ true }
    ensures { AnswersOver question root.now (plain_dtd dtd)
        (F.moment archive.old) (F.moment archive.new)
        (input_at input.old (S.left input.old) (S.calls input.old) (S.faults input.old))
        (input_at input.new (S.left input.new) (S.calls input.new) (S.faults input.new))
        (output_at (K.written out.old) (K.faults out.old))
        (output_at (K.written out.new) (K.faults out.new)) result }
{
    match question {
        Question::Valid => {
            let mut inquiry = Validation::by(alloc, dtd);
            answer_input(rt, alloc, archive, &mut inquiry, root, input, out)
        }
        Question::Check => {
            let Ok(planner) = Planner::of(alloc, dtd) else {
                return Status::NoMemory;
            };
            let mut inquiry = Possibility { planner, steps };
            answer_input(rt, alloc, archive, &mut inquiry, root, input, out)
        }
        Question::Need => {
            let Ok(planner) = Planner::of(alloc, dtd) else {
                return Status::NoMemory;
            };
            let mut inquiry = Missing::by(planner, steps);
            answer_input(rt, alloc, archive, &mut inquiry, root, input, out)
        }
    }
}

// Answers a request: opens its DTD, and answers the names of the input.
fn answer_request<L: Ledger, H: Shelf, F: Archive, S: Source, K: Sink>(
    rt: &(impl Threads + Sync),
    alloc: Global,
    request: &Request<'_>,
    steps: Steps<L>,
    shelf: &mut H,
    archive: &mut F,
    input: &mut S,
    out: &mut K,
) -> Status
    requires named { Contains (H.names shelf.old) request.now.dtd.now }
    requires ready { K.ready out.old ≡ true }
    ensures answers { AnswersAsked (Some (request_told request.now))
        (H.moment shelf.old) (H.moment shelf.new) (F.moment archive.old) (F.moment archive.new)
        (input_at input.old (S.left input.old) (S.calls input.old) (S.faults input.old))
        (input_at input.new (S.left input.new) (S.calls input.new) (S.faults input.new))
        (output_at (K.written out.old) (K.faults out.old))
        (output_at (K.written out.new) (K.faults out.new)) result }
    ensures names { H.names shelf.new ≡ H.names shelf.old }
{
    match open_dtd(alloc, shelf, request.dtd) {
        Ok(dtd) => answer_by(
            rt,
            alloc,
            request.question,
            dtd,
            request.root,
            steps,
            archive,
            input,
            out,
        ),
        Err(stop) => respond(out, Err(stop)),
    }
}

/// All that the program does: the words are those after its name.
///
/// The shelf has the DTD: its names are the words but number 0 and number 2, counted from 0. The
/// archive has the documents.
pub fn pvmany<L: Ledger, H: Shelf, F: Archive, S: Source, K: Sink>(
    rt: &(impl Threads + Sync),
    alloc: Global,
    words: &[String],
    steps: Steps<L>,
    shelf: &mut H,
    archive: &mut F,
    input: &mut S,
    out: &mut K,
) -> Status
    requires names { H.names shelf.old ≡ fetch_names words.now }
    requires ready { K.ready out.old ≡ true }

    // The status, the output, the causes of faults, and how often the devices are asked.
    ensures answers { AnswersMany (byte_lists words.now)
        (H.moment shelf.old) (H.moment shelf.new) (F.moment archive.old) (F.moment archive.new)
        (input_at input.old (S.left input.old) (S.calls input.old) (S.faults input.old))
        (input_at input.new (S.left input.new) (S.calls input.new) (S.faults input.new))
        (output_at (K.written out.old) (K.faults out.old))
        (output_at (K.written out.new) (K.faults out.new)) result }

    // What stays.
    ensures names { H.names shelf.new ≡ H.names shelf.old }
{
    match request_of(words) {
        Some(request) => { answer_request(rt, alloc, &request, steps, shelf, archive, input, out) }
        None => respond(out, usage(alloc)),
    }
}
