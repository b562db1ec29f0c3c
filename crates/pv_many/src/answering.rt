//! An answer: the name of a document, a NUL, and a line.

ghost use Rattle.std.specs.Prelude.{◌≡◌, OnErr, OnOk, true};
ghost use Rattle.std.specs.Io.KnownBytes.{Appends};
ghost use Rattle.pv_io.specs.Causes.{AppendsFront, CountsFault};
ghost use Rattle.pv_many.specs.Answers.{AnswersName, line_of};
ghost use Rattle.pv_opening.specs.Returns.{ending_of};

use crate::archive::Archive;
use crate::documents::answer_document;
use crate::inquiry::Inquiry;
use pv_io::{Failed, Sink, write_all};
use pv_opening::{Response, Stop};
use std::alloc::Global;
use std::thread::Threads;

// Writes the line of an answer.
fn write_line<K: Sink>(out: &mut K, answer: Result<Response, Stop>) -> Result<(), Failed>
    requires { K.ready out.old ≡ true }
    ensures ok { OnOk result (Appends (K.written out.old) (K.written out.new)
        (line_of (ending_of answer))) }
    ensures err { OnErr result (AppendsFront (K.written out.old) (K.written out.new)
        (line_of (ending_of answer))) }
    ensures cause { CountsFault (K.faults out.old) (K.faults out.new) result }
    ensures ready { OnOk result (K.ready out.new ≡ true) }
{
    match answer {
        Ok(response) => write_all(out, &response.output),
        Err(Stop::Refused(response)) => write_all(out, &response.output),
        Err(Stop::ShelfFault) => write_all(out, b"no file\n"),
        Err(Stop::NoMemory) => write_all(out, b"no memory\n"),
    }
}

/// Answers the name of a document, which takes no memory but for the document.
pub fn answer_name<F: Archive, I: Inquiry, K: Sink>(
    rt: &(impl Threads + Sync),
    alloc: Global,
    archive: &mut F,
    inquiry: &mut I,
    root: &[u8],
    name: &[u8],
    out: &mut K,
) -> Result<(), Failed>
    requires { K.ready out.old ≡ true }
    ensures ok { OnOk result (AnswersName (I.question inquiry.old) root.now (I.dtd inquiry.old)
        name.now (F.moment archive.old) (F.moment archive.new)
        (λ text. Appends (K.written out.old) (K.written out.new) text)) }
    ensures err { OnErr result (AnswersName (I.question inquiry.old) root.now (I.dtd inquiry.old)
        name.now (F.moment archive.old) (F.moment archive.new)
        (λ text. AppendsFront (K.written out.old) (K.written out.new) text)) }
    ensures question { I.question inquiry.new ≡ I.question inquiry.old }
    ensures dtd { I.dtd inquiry.new ≡ I.dtd inquiry.old }
    ensures cause { CountsFault (K.faults out.old) (K.faults out.new) result }
    ensures ready { OnOk result (K.ready out.new ≡ true) }
{
    let answer = answer_document(rt, alloc, archive, inquiry, root, name);
    write_all(out, name)?;
    write_all(out, b"\0")?;
    write_line(out, answer)
}
