//! The names of an input: each is answered before more of it is asked for.

ghost use Rattle.std.specs.Prelude.{◌≡◌, ◌≤◌, ◌++◌, List, ℕ, [], Option, IfErr, IfOk, OnOk, true};
ghost use Rattle.std.specs.Prelude.{OnErr, codes, vec_len};
ghost use Rattle.std.specs.Io.KnownBytes.{Appends};
ghost use Rattle.pv_io.specs.Causes.{AppendsFront, CountsFault};
ghost use Rattle.pv_many.specs.Many.{AnswersOver, AnswersPiece, AnswersThese, HaltCounts};
ghost use Rattle.pv_many.specs.Many.{HaltShows, StopsWithin};
ghost use Rattle.pv_many.specs.Names.{HasNoNul, last_name};
ghost use Rattle.pv_opening.specs.Course.{responds};
ghost use Rattle.pv_opening.specs.Devices.{input_at, output_at};
ghost use Rattle.pv_opening.specs.ShownCourses.{WritesEnding};

use crate::answering::answer_name;
use crate::archive::Archive;
use crate::inquiry::Inquiry;
use pv_io::{Failed, Sink, Source, write_all};
use pv_opening::Status;
use std::alloc::{AllocError, Global};
use std::thread::Threads;

/// The bytes that one `fill` is asked for.
const READ_BYTES: usize = 65_536;

/// The most bytes of all names.
const MAX_NAMES_BYTES: u64 = 1_099_511_627_776;

/// Why a run halts within a piece of the input.
#[derive(Clone, Copy, Debug, PartialEq, Eq)]
pub enum Halt {
    /// There was no memory for a name.
    OutOfMemory,
    /// The output couldn't be written.
    OutputFault,
}

// Answers the names that the piece ends, and holds its bytes after the last of them.
fn answer_piece<F: Archive, I: Inquiry, K: Sink>(
    rt: &(impl Threads + Sync),
    alloc: Global,
    archive: &mut F,
    inquiry: &mut I,
    root: &[u8],
    held: &mut Vec<u8>,
    piece: &[u8],
    out: &mut K,
) -> Result<(), Halt>
    requires ready { K.ready out.old ≡ true }
    requires unended { HasNoNul held.old.items }
    ensures ok { OnOk result (AnswersPiece (I.question inquiry.old) root.now (I.dtd inquiry.old)
        (F.moment archive.old) (F.moment archive.new) held.old.items piece.now held.new.items
        (λ text. Appends (K.written out.old) (K.written out.new) text)) }
    ensures err { IfErr result (λ halt. StopsWithin (I.question inquiry.old) root.now
        (I.dtd inquiry.old) (F.moment archive.old) (F.moment archive.new) held.old.items piece.now
        (λ text. HaltShows halt (K.written out.old) (K.written out.new) text)) }
    ensures stays { OnOk result (K.faults out.new ≡ K.faults out.old) }
    ensures cause { IfErr result (λ halt. HaltCounts halt (K.faults out.old) (K.faults out.new)) }
    ensures question { I.question inquiry.new ≡ I.question inquiry.old }
    ensures dtd { I.dtd inquiry.new ≡ I.dtd inquiry.old }
    ensures ready { OnOk result (K.ready out.new ≡ true) }
{
    for byte in piece {
        if *byte == 0 {
            let Ok(()) = answer_name(rt, alloc, archive, inquiry, root, held.as_slice(), out) else {
                return Err(Halt::OutputFault);
            };
            held.clear();
        } else {
            let Ok(()) = held.push(*byte) else {
                return Err(Halt::OutOfMemory);
            };
        }
    }
    Ok(())
}

// Answers the name that these bytes are at the end of the input, where there are some.
fn answer_last<F: Archive, I: Inquiry, K: Sink>(
    rt: &(impl Threads + Sync),
    alloc: Global,
    archive: &mut F,
    inquiry: &mut I,
    root: &[u8],
    held: &[u8],
    out: &mut K,
) -> Result<(), Failed>
    requires { K.ready out.old ≡ true }
    ensures ok { OnOk result (AnswersThese (I.question inquiry.old) root.now (I.dtd inquiry.old)
        (F.moment archive.old) (F.moment archive.new) (last_name held.now)
        (λ text. Appends (K.written out.old) (K.written out.new) text)) }
    ensures err { OnErr result (AnswersThese (I.question inquiry.old) root.now (I.dtd inquiry.old)
        (F.moment archive.old) (F.moment archive.new) (last_name held.now)
        (λ text. AppendsFront (K.written out.old) (K.written out.new) text)) }
    ensures cause { CountsFault (K.faults out.old) (K.faults out.new) result }
{
    if held.is_empty() {
        return Ok(());
    }
    answer_name(rt, alloc, archive, inquiry, root, held, out)
}

// Writes, after the answers, that there are too many names; the status.
fn announce_limit<K: Sink>(out: &mut K) -> Status
    requires { K.ready out.old ≡ true }
    ensures { (old : Option (List ℕ)) → (answers : List ℕ) →
        Appends old (K.written out.old) answers →
        WritesEnding (responds (record {
          status = Status.Limit;
          output = answers ++ codes "limit names\n";
        })) old (K.written out.new) (K.faults out.old) (K.faults out.new) result }
{
    match write_all(out, b"limit names\n") {
        Ok(()) => Status::Limit,
        Err(_) => Status::WriteFault,
    }
}

// So many zeros.
fn zeros(alloc: Global, count: usize) -> Result<Vec<u8>, AllocError>
    ensures { IfOk result (λ v. vec_len v ≡ count) }
{
    vec![in alloc; 0u8; count]
}

/// Answers the names of the input, each before more of it is asked for.
pub fn answer_input<F: Archive, I: Inquiry, S: Source, K: Sink>(
    rt: &(impl Threads + Sync),
    alloc: Global,
    archive: &mut F,
    inquiry: &mut I,
    root: &[u8],
    input: &mut S,
    out: &mut K,
) -> Status
    requires { K.ready out.old ≡ true }
    ensures { AnswersOver (I.question inquiry.old) root.now (I.dtd inquiry.old)
        (F.moment archive.old) (F.moment archive.new)
        (input_at input.old (S.left input.old) (S.calls input.old) (S.faults input.old))
        (input_at input.new (S.left input.new) (S.calls input.new) (S.faults input.new))
        (output_at (K.written out.old) (K.faults out.old))
        (output_at (K.written out.new) (K.faults out.new)) result }
{
    let Ok(mut piece) = zeros(alloc, READ_BYTES) else {
        return Status::NoMemory;
    };
    let mut held = Vec::new(alloc);
    let mut left = MAX_NAMES_BYTES;
    'pieces: loop {
        let Ok(count) = input.fill(&mut piece) else {
            return Status::ReadFault;
        };
        if count == 0 {
            return match answer_last(rt, alloc, archive, inquiry, root, &held, out) {
                Ok(()) => Status::Done,
                Err(_) => Status::WriteFault,
            };
        }
        if count as u64 > left {
            return announce_limit(out);
        }
        left -= count as u64;
        let taken = &piece[..count];
        match answer_piece(rt, alloc, archive, inquiry, root, &mut held, taken, out) {
            Ok(()) => {}
            Err(Halt::OutOfMemory) => return Status::NoMemory,
            Err(Halt::OutputFault) => return Status::WriteFault,
        }
    }
}
