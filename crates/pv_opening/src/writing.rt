//! Writes a response.

ghost use Rattle.std.specs.Prelude.{◌≡◌, true};
ghost use Rattle.pv_opening.specs.Course.{responds};
ghost use Rattle.pv_opening.specs.ShownCourses.{WritesEnding};
ghost use Rattle.pv_opening.specs.Response.{plain_response};
ghost use Rattle.pv_opening.specs.Returns.{ending_of};

use crate::response::Response;
use crate::status::Status;
use crate::stop::Stop;
use pv_io::{Sink, write_all};

fn write<K: Sink>(out: &mut K, response: &Response) -> Status
    requires { K.ready out.old ≡ true }
    ensures { WritesEnding (responds (plain_response response.now)) (K.written out.old)
        (K.written out.new)
        (K.faults out.old) (K.faults out.new) result }
{
    match write_all(out, &response.output) {
        Ok(()) => response.status,
        Err(_) => Status::WriteFault,
    }
}

/// Writes the response, where there is one, and tells the status.
pub fn respond<K: Sink>(out: &mut K, answer: Result<Response, Stop>) -> Status
    requires { K.ready out.old ≡ true }
    ensures { WritesEnding (ending_of answer) (K.written out.old) (K.written out.new)
        (K.faults out.old) (K.faults out.new) result }
{
    match answer {
        Ok(response) => write(out, &response),
        Err(Stop::Refused(response)) => write(out, &response),
        Err(Stop::ShelfFault) => Status::ReadFault,
        Err(Stop::NoMemory) => Status::NoMemory,
    }
}
