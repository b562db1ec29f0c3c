//! The conversation of a session: each line is answered before more of the script is asked for.

ghost use Rattle.std.specs.Prelude.{◌≡◌, ◌≤◌, ◌<◌, ◌+◌, ◌^◌, ◌++◌, List, [], ℕ, Option, true};
ghost use Rattle.std.specs.Prelude.{IfOk, OnErr, OnOk, length, vec_len, codes, decimal};
ghost use Rattle.std.specs.Io.KnownBytes.{Appends};
ghost use Rattle.pv_conversation.specs.Conversation.{AnswersLine, ComesOrFails, Conversed};
ghost use Rattle.pv_conversation.specs.Conversation.{Finishes, IsBeyond, IsNext, IsWithinScript};
ghost use Rattle.pv_conversation.specs.Conversation.{RepliesWith, Talked};
ghost use Rattle.pv_conversation.specs.CountedLines.{CountedSession, counted};
ghost use Rattle.pv_opening.specs.Course.{responds};
ghost use Rattle.pv_opening.specs.Devices.{input_at, output_at};
ghost use Rattle.pv_opening.specs.ShownCourses.{WritesEnding};
ghost use Rattle.pv_conversation.specs.ReplyBuffer.{HoldsReplies};
ghost use Rattle.pv_conversation.specs.Script.{MAX_SCRIPT_BYTES as MAX_BYTES};
ghost use Rattle.pv_conversation.specs.Session.{limited};
ghost use Rattle.pv_io.specs.Causes.{CountsFault, AppendsFront};

use crate::opened_session::OpenedSession;
use crate::reply_buffer::ReplyBuffer;
use crate::turns::turn;
use crate::verdict_lines::{asks_verdicts, put_verdicts};
use pv_chars::NoMemory;
use pv_io::{Failed, Sink, Source, write_all};
use pv_opening::Status;
use pv_script::{Lines, MAX_LINE_BYTES, Took, limit_line_text, no_memory_text};
use pv_steps::Steps;
use std::alloc::{AllocError, Global};
use std::sync::ledger::Ledger;
use std::thread::Threads;

/// The most bytes of a script.
const MAX_SCRIPT_BYTES: usize = 268_435_456;

/// The bytes that one `fill` is asked for.
const READ_BYTES: usize = 65_536;

/// How far a script was read and answered: the line that is being taken, its number, counted from
/// 1, how many bytes the script may still have, and the replies that wait to be written.
#[derive(Drop)]
pub struct Reading {
    pub lines: Lines,
    pub number: u64,
    pub left: usize,
    pub buffer: ReplyBuffer,
}

/// What comes after a piece of a script.
#[derive(Clone, Copy)]
pub enum Next {
    /// More of the script is asked for.
    More,
    /// A line ended the session.
    Quit,
    /// A line is too long.
    LineLimit,
    /// The script is too long.
    ScriptLimit,
}

// Answers a line, its reply held or written, and tells whether the session goes on. A line that
// there is no memory for answers so, and changes nothing.
fn answer_line<K: Sink, L: Ledger>(
    rt: &(impl Threads + Sync),
    alloc: Global,
    session: &mut OpenedSession,
    line: &[u8],
    buffer: &mut ReplyBuffer,
    out: &mut K,
    steps: &mut Steps<L>,
) -> Result<bool, Failed>
    requires { K.ready out.old ≡ true }
    ensures ok { IfOk result (AnswersLine (counted session.old steps.old) line.now
        (counted session.new steps.new)
        (λ text. HoldsReplies (K.written out.old) (K.written out.new) buffer.new
        (buffer.old ++ text))) }
    ensures err { OnErr result (RepliesWith (counted session.old steps.old) line.now
        (counted session.new steps.new)
        (λ text. AppendsFront (K.written out.old) (K.written out.new) (buffer.old ++ text))) }
    ensures cause { CountsFault (K.faults out.old) (K.faults out.new) result }
    ensures ready { OnOk result (K.ready out.new ≡ true) }
{
    if asks_verdicts(line) {
        put_verdicts(alloc, session.session(), buffer, out)?;
        return Ok(true);
    }
    match turn(rt, alloc, session, line, steps) {
        Ok(Some(answer)) => answer.text.put(buffer, out)?,
        Ok(None) => return Ok(false),
        Err(NoMemory) => buffer.push(out, no_memory_text())?,
    }
    Ok(true)
}

// Answers the lines that the piece ends.
fn answer_lines<K: Sink, L: Ledger>(
    rt: &(impl Threads + Sync),
    alloc: Global,
    session: &mut OpenedSession,
    reading: &mut Reading,
    piece: &[u8],
    out: &mut K,
    steps: &mut Steps<L>,
) -> Result<Next, Failed>
    requires few { reading.old.number + length piece.now < 2 ^ 64 }
    requires none { reading.old.buffer ≡ [] }
    requires ready { K.ready out.old ≡ true }
    ensures next { (old : Option (List ℕ)) → (script : List ℕ) → (first : CountedSession) →
        length script + length piece.now ≤ MAX_BYTES →
        Conversed (Appends old (K.written out.old)) first script
        (counted session.old steps.old) reading.old.lines reading.old.number →
        ComesOrFails (HoldsReplies old (K.written out.new) reading.new.buffer)
        (AppendsFront old (K.written out.new))
        first (script ++ piece.now) (counted session.new steps.new) reading.new result }
    ensures left { reading.new.left ≡ reading.old.left }
    ensures cause { CountsFault (K.faults out.old) (K.faults out.new) result }
    ensures ready { OnOk result (K.ready out.new ≡ true) }
{
    let mut rest = piece;
    'lines: loop {
        match reading.lines.take(rest) {
            Took::More => return Ok(Next::More),
            Took::TooLong => return Ok(Next::LineLimit),
            Took::Line(eaten) => {
                let line = reading.lines.line();
                if !answer_line(rt, alloc, session, line, &mut reading.buffer, out, steps)? {
                    return Ok(Next::Quit);
                }
                reading.lines.clear();
                reading.number += 1;
                rest = &rest[eaten..];
            }
        }
    }
}

// The limit that a byte passes after the longest script.
fn limit_at(lines: &Lines, byte: u8) -> Next
    ensures { IsNext lines.now byte result }
{
    if byte != b'\n' && lines.held() == MAX_LINE_BYTES {
        Next::LineLimit
    } else {
        Next::ScriptLimit
    }
}

// What comes after `next`, where one more byte stands after the longest script.
fn beyond(next: Next, lines: &Lines, byte: u8) -> Next
    ensures { IsBeyond lines.now byte next result }
{
    match next {
        Next::More => limit_at(lines, byte),
        Next::Quit => Next::Quit,
        Next::LineLimit => Next::LineLimit,
        Next::ScriptLimit => Next::ScriptLimit,
    }
}

// Answers the lines that the piece ends, up to the limit on the script.
fn answer_within<K: Sink, L: Ledger>(
    rt: &(impl Threads + Sync),
    alloc: Global,
    session: &mut OpenedSession,
    reading: &mut Reading,
    piece: &[u8],
    out: &mut K,
    steps: &mut Steps<L>,
) -> Result<Next, Failed>
    requires few { reading.old.number + length piece.now < 2 ^ 64 }
    requires none { reading.old.buffer ≡ [] }
    requires ready { K.ready out.old ≡ true }
    ensures next { (old : Option (List ℕ)) → (script : List ℕ) → (first : CountedSession) →
        length script + reading.old.left ≡ MAX_BYTES →
        Conversed (Appends old (K.written out.old)) first script
        (counted session.old steps.old) reading.old.lines reading.old.number →
        ComesOrFails (HoldsReplies old (K.written out.new) reading.new.buffer)
        (AppendsFront old (K.written out.new))
        first (script ++ piece.now) (counted session.new steps.new) reading.new result }
    ensures fits { IfOk result (IsWithinScript (length piece.now) reading.old.left) }
    ensures left { reading.new.left ≡ reading.old.left }
    ensures cause { CountsFault (K.faults out.old) (K.faults out.new) result }
    ensures ready { OnOk result (K.ready out.new ≡ true) }
{
    let left = reading.left;
    if piece.len() <= left {
        return answer_lines(rt, alloc, session, reading, piece, out, steps);
    }
    let next = answer_lines(rt, alloc, session, reading, &piece[..left], out, steps)?;
    Ok(beyond(next, &reading.lines, piece[left]))
}

// Answers the lines that the piece ends, and writes what is held.
fn answer_piece<K: Sink, L: Ledger>(
    rt: &(impl Threads + Sync),
    alloc: Global,
    session: &mut OpenedSession,
    reading: &mut Reading,
    piece: &[u8],
    out: &mut K,
    steps: &mut Steps<L>,
) -> Result<Next, Failed>
    requires few { reading.old.number + length piece.now < 2 ^ 64 }
    requires none { reading.old.buffer ≡ [] }
    requires ready { K.ready out.old ≡ true }
    ensures next { (old : Option (List ℕ)) → (script : List ℕ) → (first : CountedSession) →
        length script + reading.old.left ≡ MAX_BYTES →
        Conversed (Appends old (K.written out.old)) first script
        (counted session.old steps.old) reading.old.lines reading.old.number →
        ComesOrFails (Appends old (K.written out.new)) (AppendsFront old (K.written out.new))
        first (script ++ piece.now) (counted session.new steps.new) reading.new result }
    ensures fits { IfOk result (IsWithinScript (length piece.now) reading.old.left) }
    ensures left { reading.new.left ≡ reading.old.left }
    ensures none { IfOk result (λ _. reading.new.buffer ≡ []) }
    ensures cause { CountsFault (K.faults out.old) (K.faults out.new) result }
    ensures ready { OnOk result (K.ready out.new ≡ true) }
{
    let next = answer_within(rt, alloc, session, reading, piece, out, steps)?;
    reading.buffer.flush(out)?;
    Ok(next)
}

// Answers a last line, which no LF ends.
fn finish<K: Sink, L: Ledger>(
    rt: &(impl Threads + Sync),
    alloc: Global,
    session: &mut OpenedSession,
    reading: &mut Reading,
    out: &mut K,
    steps: &mut Steps<L>,
) -> Result<(), Failed>
    requires none { reading.old.buffer ≡ [] }
    requires ready { K.ready out.old ≡ true }
    ensures finished { (old : Option (List ℕ)) → (script : List ℕ) → (first : CountedSession) →
        length script ≤ MAX_BYTES →
        Conversed (Appends old (K.written out.old)) first script
        (counted session.old steps.old) reading.old.lines reading.old.number →
        Finishes old first steps.new script (K.written out.new) result }
    ensures cause { CountsFault (K.faults out.old) (K.faults out.new) result }
    ensures ready { OnOk result (K.ready out.new ≡ true) }
{
    if reading.lines.held() > 0 {
        let line = reading.lines.line();
        answer_line(rt, alloc, session, line, &mut reading.buffer, out, steps)?;
        reading.buffer.flush(out)?;
    }
    Ok(())
}

// Writes the line of a limit after the replies; the status.
fn announce<K: Sink>(text: &[u8], out: &mut K) -> Status
    requires { K.ready out.old ≡ true }
    ensures { (old : Option (List ℕ)) → (replies : List ℕ) →
        Appends old (K.written out.old) replies →
        WritesEnding (responds (record { status = Status.Limit; output = replies ++ text.now }))
        old (K.written out.new) (K.faults out.old) (K.faults out.new) result }
{
    match write_all(out, text) {
        Ok(()) => Status::Limit,
        Err(_) => Status::WriteFault,
    }
}

// Writes, after the replies, that the line of this number is too long; the status.
fn announce_line<K: Sink>(number: u64, out: &mut K) -> Status
    requires { K.ready out.old ≡ true }
    ensures { (old : Option (List ℕ)) → (replies : List ℕ) →
        Appends old (K.written out.old) replies →
        WritesEnding (limited replies (codes "limit line " ++ decimal number))
        old (K.written out.new) (K.faults out.old) (K.faults out.new) result }
{
    let mut room = [0u8; 64];
    let end = limit_line_text(number, &mut room);
    announce(&room[..end], out)
}

// So many zeros.
fn zeros(alloc: Global, count: usize) -> Result<Vec<u8>, AllocError>
    ensures { IfOk result (λ v. vec_len v ≡ count) }
{
    vec![in alloc; 0u8; count]
}

/// Answers the lines of the input, each before more of it is asked for.
pub fn converse<S: Source, K: Sink, L: Ledger>(
    rt: &(impl Threads + Sync),
    alloc: Global,
    session: &mut OpenedSession,
    input: &mut S,
    out: &mut K,
    steps: &mut Steps<L>,
) -> Status
    requires { K.ready out.old ≡ true }
    ensures { Talked session.old
        (input_at input.old (S.left input.old) (S.calls input.old) (S.faults input.old))
        (input_at input.new (S.left input.new) (S.calls input.new) (S.faults input.new))
        (output_at (K.written out.old) (K.faults out.old))
        (output_at (K.written out.new) (K.faults out.new)) steps.old steps.new result }
{
    let Ok(lines) = Lines::new(alloc) else {
        return Status::NoMemory;
    };
    let Ok(mut piece) = zeros(alloc, READ_BYTES) else {
        return Status::NoMemory;
    };
    let Ok(buffer) = ReplyBuffer::new(alloc) else {
        return Status::NoMemory;
    };
    let mut reading = Reading {
        lines,
        number: 1,
        left: MAX_SCRIPT_BYTES,
        buffer,
    };
    'pieces: loop {
        let Ok(count) = input.fill(&mut piece) else {
            return Status::ReadFault;
        };
        if count == 0 {
            return match finish(rt, alloc, session, &mut reading, out, steps) {
                Ok(()) => Status::Done,
                Err(_) => Status::WriteFault,
            };
        }
        let taken = &piece[..count];
        match answer_piece(rt, alloc, session, &mut reading, taken, out, steps) {
            Ok(Next::More) => reading.left -= count,
            Ok(Next::Quit) => return Status::Done,
            Ok(Next::LineLimit) => return announce_line(reading.number, out),
            Ok(Next::ScriptLimit) => return announce(b"limit script\n", out),
            Err(_) => return Status::WriteFault,
        }
    }
}
