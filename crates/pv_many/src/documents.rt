//! A document: its bytes are fetched, and then it is answered.

ghost use Rattle.std.specs.Prelude.{◌≡◌};
ghost use Rattle.pv_many.specs.Answers.{FindsDocumentAnswer};
ghost use Rattle.pv_opening.specs.Opening.{IsFile, document_fetch_stage};
ghost use Rattle.pv_opening.specs.Returns.{ReturnsOver, ending_of};

use crate::archive::Archive;
use crate::inquiry::Inquiry;
use pv_io::FetchError;
use pv_opening::{Response, Status, Stop, refuse};
use pv_read::MAX_DOC_BYTES;
use std::alloc::Global;
use std::thread::Threads;

// The bytes of the document in the file of this name.
fn fetch_document<F: Archive>(alloc: Global, archive: &mut F, name: &[u8]) -> Result<Vec<u8>, Stop>
    ensures { ReturnsOver (IsFile (F.moment archive.old).files name.now) (λ v. v.items)
        document_fetch_stage (F.moment archive.old) (F.moment archive.new) result }
{
    match archive.fetch(alloc, name, MAX_DOC_BYTES) {
        Ok(bytes) => Ok(bytes),
        Err(FetchError::TooLong) => Err(refuse(alloc, Status::Limit, b"limit document-file")),
        Err(FetchError::Failed) => Err(Stop::ShelfFault),
        Err(FetchError::NoMemory) => Err(Stop::NoMemory),
    }
}

/// The answer for the document in the file of this name. What it took is given back.
pub fn answer_document<F: Archive, I: Inquiry>(
    rt: &(impl Threads + Sync),
    alloc: Global,
    archive: &mut F,
    inquiry: &mut I,
    root: &[u8],
    name: &[u8],
) -> Result<Response, Stop>
    ensures finds { FindsDocumentAnswer (I.question inquiry.old) root.now (I.dtd inquiry.old)
        name.now (F.moment archive.old) (F.moment archive.new) (ending_of result) }
    ensures question { I.question inquiry.new ≡ I.question inquiry.old }
    ensures dtd { I.dtd inquiry.new ≡ I.dtd inquiry.old }
{
    let bytes = fetch_document(alloc, archive, name)?;
    inquiry.answer(rt, alloc, root, bytes)
}
