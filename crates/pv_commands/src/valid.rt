//! The command `valid`.

ghost use Rattle.pv_commands.specs.Returns.{BehindDocument};
ghost use Rattle.pv_commands.specs.Valid.{IsValidCourse};
ghost use Rattle.pv_opening.specs.Response.{plain_response};
ghost use Rattle.pv_opening.specs.Returns.{TakesCourse, Returns, plain_fetched};
ghost use Rattle.pv_commands.specs.Validity.{validity_stage};
ghost use Rattle.pv_dtd.specs.PlainForms.{plain_dtd};

use pv_dtd::Dtd;
use pv_opening::{Fetched, Response, Status, Stop, refuse_document};
use pv_valid::first_invalid_in;
use std::alloc::Global;

// Whether the document that the bytes are is valid, or else the path of its first list that isn't.
fn tell(alloc: Global, dtd: &Dtd, root: &[u8], bytes: &[u8]) -> Result<Response, Stop>
    ensures { Returns plain_response (validity_stage root.now (plain_dtd dtd.now) bytes.now) 0
        result }
{
    let found = match first_invalid_in(alloc, dtd, root, bytes) {
        Ok(found) => found,
        Err(error) => return Err(refuse_document(alloc, error)),
    };
    match found {
        None => Ok(Response::with_line(alloc, Status::Done, b"valid")?),
        Some(path) => Ok(Response::with_path(alloc, Status::Negative, b"invalid ", path.places())?),
    }
}

/// Whether a document is valid for a DTD.
pub fn valid(alloc: Global, fetched: &Fetched, root: &[u8]) -> Result<Response, Stop>
    ensures { TakesCourse (BehindDocument IsValidCourse root.now (plain_fetched fetched.now))
        result }
{
    tell(alloc, &fetched.dtd, root, &fetched.bytes)
}
