//! Replies that are held before they are written.

ghost use Rattle.std.specs.Prelude.{◌≡◌, ◌≤◌, ◌++◌, [], IfOk, OnOk, OnErr, length, true};
ghost use Rattle.std.specs.Io.KnownBytes.{Appends};
ghost use Rattle.pv_conversation.specs.ReplyBuffer.{HoldsReplies};
ghost use Rattle.pv_io.specs.Causes.{AppendsFront, CountsFault};

use pv_io::{Failed, Sink, write_all};
use std::alloc::{AllocError, Global};
use std::marker::Model;

/// The most bytes of replies that are held.
const ROOM: usize = 65_536;

/// Replies that are held before they are written, in room that is taken once.
#[derive(Drop)]
pub struct ReplyBuffer {
    held: Vec<u8>,
}

impl Model for ReplyBuffer {
    ghost use Rattle.std.specs.Prelude.{◌≤◌, ℕ, List, vec_len, vec_capacity};

    ghost Value = { List ℕ };

    ghost view = { λ b. b.held.items };

    ghost invariant = { λ b. (vec_len b.held ≤ 65536) × (65536 ≤ vec_capacity b.held) };
}

impl ReplyBuffer {
    /// Takes the room. Nothing is held.
    pub fn new(alloc: Global) -> Result<ReplyBuffer, AllocError>
        ensures { IfOk result (λ buffer. buffer ≡ []) }
    {
        Ok(ReplyBuffer {
            held: Vec::with_capacity(alloc, ROOM)?,
        })
    }

    /// Writes what is held, or a front of it where the output fails. Nothing is held then.
    pub fn flush<K: Sink>(&mut self, out: &mut K) -> Result<(), Failed>
        requires { K.ready out.old ≡ true }
        ensures ok { OnOk result (Appends (K.written out.old) (K.written out.new) self.old) }
        ensures err { OnErr result (AppendsFront (K.written out.old) (K.written out.new) self.old) }
        ensures none { self.new ≡ [] }
        ensures cause { CountsFault (K.faults out.old) (K.faults out.new) result }
        ensures ready { OnOk result (K.ready out.new ≡ true) }
    {
        let flushed = write_all(out, &self.held);
        self.held.clear();
        flushed
    }

    // Holds the bytes after the others, which leave room for them.
    fn hold(&mut self, bytes: &[u8])
        requires { length (self.old ++ bytes.now) ≤ 65536 }
        ensures { self.new ≡ self.old ++ bytes.now }
    {
        match self.held.extend_from_slice(bytes) {
            Ok(()) => {}
            Err(_) => unreachable!(),
        }
    }

    /// Holds a reply after the others. Where there is no room left for it, they are written first;
    /// and it is written too, where it is longer than the room.
    pub fn push<K: Sink>(&mut self, out: &mut K, reply: &[u8]) -> Result<(), Failed>
        requires { K.ready out.old ≡ true }
        ensures ok { OnOk result (HoldsReplies (K.written out.old) (K.written out.new) self.new
            (self.old ++ reply.now)) }
        ensures err { OnErr result (AppendsFront (K.written out.old) (K.written out.new)
            (self.old ++ reply.now)) }
        ensures cause { CountsFault (K.faults out.old) (K.faults out.new) result }
        ensures ready { OnOk result (K.ready out.new ≡ true) }
    {
        if reply.len() <= ROOM - self.held.len() {
            self.hold(reply);
            return Ok(());
        }
        self.flush(out)?;
        if reply.len() > ROOM {
            write_all(out, reply)?;
            return Ok(());
        }
        self.hold(reply);
        Ok(())
    }
}
