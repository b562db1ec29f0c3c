//! All that the program does.

ghost use Rattle.std.specs.Prelude.{[], codes, true, ◌≡◌};
ghost use Rattle.pv_io.specs.Files.{byte_lists, fetch_names};
ghost use Rattle.pv_opening.specs.Devices.{output_at};
ghost use Rattle.pv_opening.specs.Response.{with_line};
ghost use Rattle.pv_opening.specs.Returns.{TellsBy};
ghost use Rattle.pv_opening.specs.declared.status.Status.TheVariants.{Usage};
ghost use Rattle.pvlong.specs.RequestAnswers.{AnswersWords, EndsWith};
ghost use Rattle.pvlong.specs.Requests.{files_asked, request_of};
ghost use Rattle.pvlong.specs.ToldNumbers.{response_in};

use crate::answering::answer;
use crate::exits::Exit;
use crate::requests::request_of;
use crate::telling::Told;
use pv_io::{Shelf, Sink};
use pv_long::Deadline;
use pv_opening::{Response, Status, Stop, respond};
use std::alloc::Global;

fn usage(alloc: Global) -> Result<Told, Stop>
    ensures { TellsBy (λ r. r ≡ with_line Usage (codes "usage")) (response_in result) }
{
    let response = Response::with_line(alloc, Status::Usage, b"usage")?;
    Ok(Told::of(response))
}

// Writes the response, where there is one.
fn end<K: Sink>(out: &mut K, answer: Result<Told, Stop>) -> Exit
    requires { K.ready out.old ≡ true }
    ensures { EndsWith answer (output_at (K.written out.old) (K.faults out.old))
        (output_at (K.written out.new) (K.faults out.new)) result }
{
    match answer {
        Ok(told) => Exit::of(told.not_least, respond(out, Ok(told.response))),
        Err(stop) => Exit::of(false, respond(out, Err(stop))),
    }
}

/// All that the program does: the words are those after its name.
///
/// The shelf's names are the words but number 0 and number 2, counted from 0. The deadline is for
/// the bounds of lists: the answer is right whenever it is past.
pub fn pvlong<H: Shelf, K: Sink, D: Deadline>(
    alloc: Global,
    words: &[String],
    shelf: &mut H,
    out: &mut K,
    deadline: &D,
) -> Exit
    requires names { H.names shelf.old ≡ fetch_names words.now }
    requires ready { K.ready out.old ≡ true }

    // How the program ends, the output, the causes of faults, and how often the shelf is asked.
    ensures answers { AnswersWords (byte_lists words.now)
        (H.moment shelf.old) (H.moment shelf.new)
        (output_at (K.written out.old) (K.faults out.old))
        (output_at (K.written out.new) (K.faults out.new)) result }

    // What stays.
    ensures unasked { files_asked (request_of (byte_lists words.now)) ≡ [] →
        shelf.new ≡ shelf.old }
    ensures names { H.names shelf.new ≡ H.names shelf.old }
    ensures files { (H.moment shelf.new).files ≡ (H.moment shelf.old).files }
{
    match request_of(words) {
        Some(request) => end(out, answer(alloc, shelf, &request, deadline)),
        None => end(out, usage(alloc)),
    }
}
