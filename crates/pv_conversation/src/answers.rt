//! Replies as they are told: their texts, and what was done.

ghost use Rattle.std.specs.Prelude.{◌≡◌, ◌≤◌, ◌++◌, codes, true, IfOk, None, OnErr, OnOk, vec_len};
ghost use Rattle.pv_conversation.specs.ReplyBuffer.{HoldsReplies};
ghost use Rattle.pv_conversation.specs.Session.{done_of};
ghost use Rattle.pv_conversation.specs.Turns.{IsAnswerOf, text_of_reply};
ghost use Rattle.pv_io.specs.Causes.{AppendsFront, CountsFault};

use crate::reply_buffer::ReplyBuffer;
use pv_chars::{Bytes, NoMemory};
use pv_edit::Done;
use pv_io::{Failed, Sink};
use pv_script::{Reply, no_command_text, okay_text, push_number, reply_text};
use std::alloc::{AllocError, Global};

/// The text of a reply.
#[derive(Drop)]
pub enum ReplyText {
    /// Text that was made.
    Made(Vec<u8>),
    /// Text that is always the same.
    Fixed(&'static [u8]),
    /// A first line, and after it a document with an LF.
    Shown(Vec<u8>, Bytes),
}

// Puts the first line of a reply, and the document after it, which isn't copied.
fn put_shown<K: Sink>(
    head: &[u8],
    body: &[u8],
    buffer: &mut ReplyBuffer,
    out: &mut K,
) -> Result<(), Failed>
    requires { K.ready out.old ≡ true }
    ensures ok { OnOk result (HoldsReplies (K.written out.old) (K.written out.new) buffer.new
        (buffer.old ++ (head.now ++ (body.now ++ codes "\n")))) }
    ensures err { OnErr result (AppendsFront (K.written out.old) (K.written out.new)
        (buffer.old ++ (head.now ++ (body.now ++ codes "\n")))) }
    ensures cause { CountsFault (K.faults out.old) (K.faults out.new) result }
    ensures ready { OnOk result (K.ready out.new ≡ true) }
{
    buffer.push(out, head)?;
    buffer.push(out, body)?;
    buffer.push(out, b"\n")
}

impl ReplyText {
    /// Puts its bytes after the replies that are held.
    pub(crate) fn put<K: Sink>(&self, buffer: &mut ReplyBuffer, out: &mut K) -> Result<(), Failed>
        requires { K.ready out.old ≡ true }
        ensures ok { OnOk result (HoldsReplies (K.written out.old) (K.written out.new) buffer.new
            (buffer.old ++ text_of_reply self.now)) }
        ensures err { OnErr result (AppendsFront (K.written out.old) (K.written out.new)
            (buffer.old ++ text_of_reply self.now)) }
        ensures cause { CountsFault (K.faults out.old) (K.faults out.new) result }
        ensures ready { OnOk result (K.ready out.new ≡ true) }
    {
        match self {
            ReplyText::Made(text) => buffer.push(out, text),
            ReplyText::Fixed(text) => buffer.push(out, text),
            ReplyText::Shown(head, body) => put_shown(head, body.as_slice(), buffer, out),
        }
    }
}

/// A reply: its text, and what was done where it is `ok`.
#[derive(Drop)]
pub struct Answer {
    pub text: ReplyText,
    pub done: Option<Done>,
}

// The bytes that are taken for an `ok` reply.
const OKAY_BYTES: usize = 64;

/// Room for an `ok` reply.
pub fn take_room(alloc: Global) -> Result<Vec<u8>, AllocError>
    ensures { IfOk result (λ room. vec_len room ≡ 64) }
{
    vec![in alloc; 0u8; OKAY_BYTES]
}

/// The reply to a move that was made, in the room that was taken for it.
pub fn okay(done: Done, mut room: Vec<u8>) -> Answer
    requires { 64 ≤ vec_len room }
    ensures { IsAnswerOf (Reply.Okay done) result }
{
    let count = okay_text(&done, &mut room);
    room.truncate(count);
    Answer {
        text: ReplyText::Made(room),
        done: Some(done),
    }
}

/// The reply to `show`.
pub fn shown(alloc: Global, body: Bytes) -> Result<Answer, NoMemory>
    ensures { IfOk result (IsAnswerOf (Reply.Show body)) }
{
    let mut head = Vec::new(alloc);
    head.extend_from_slice(b"show ")?;
    push_number(&mut head, body.as_slice().len() as u64)?;
    head.push(b'\n')?;
    Ok(Answer {
        text: ReplyText::Shown(head, body),
        done: None,
    })
}

/// The reply to `complete`, where so many elements are missing and this is the document with them.
pub fn completed(alloc: Global, count: u64, body: Bytes) -> Result<Answer, NoMemory>
    ensures { IfOk result (IsAnswerOf (Reply.Completed count body)) }
{
    let mut head = Vec::new(alloc);
    head.extend_from_slice(b"completed ")?;
    push_number(&mut head, count)?;
    head.push(b' ')?;
    push_number(&mut head, body.as_slice().len() as u64)?;
    head.push(b'\n')?;
    Ok(Answer {
        text: ReplyText::Shown(head, body),
        done: None,
    })
}

/// Any other reply.
pub fn other(alloc: Global, reply: &Reply) -> Result<Answer, NoMemory>
    requires { done_of reply.now ≡ None }
    ensures { IfOk result (IsAnswerOf reply.now) }
{
    Ok(Answer {
        text: ReplyText::Made(reply_text(alloc, reply)?),
        done: None,
    })
}

/// The reply to a line that is no command, which takes no memory.
pub fn no_command() -> Answer
    ensures { IsAnswerOf Reply.NoCommand result }
{
    Answer {
        text: ReplyText::Fixed(no_command_text()),
        done: None,
    }
}
