//! A sink in memory.

ghost use Rattle.std.specs.Prelude.{◌≡◌, ◌≤◌, ◌<◌, ◌-◌, ◌↔◌, ◌⊎◌, min, length, Some, IfOk, IsErr};
ghost use Rattle.std.specs.Prelude.{is_err, true, []};
ghost use Rattle.std.specs.Io.KnownBytes.{WriteAppends};
ghost use Rattle.pv_io.specs.Causes.{CountsFault, TakesSome};
ghost use Rattle.pv_io.specs.Memory.{no_calls, after_call, FailsNow};

use super::calls::Calls;
use crate::sink::Sink;
use crate::source::Failed;
use pv_chars::NoMemory;
use std::alloc::Global;
use std::marker::Model;

/// A sink that keeps at most so many bytes in memory, and of which any call may be made to fail.
#[derive(Drop)]
pub struct MemSink {
    bytes: Vec<u8>,
    room: usize,
    most: usize,
    calls: Calls,
}

impl Model for MemSink {
    ghost use Rattle.std.specs.Prelude.{◌≤◌, ◌<◌, vec_len, vec_capacity};
    ghost use Rattle.pv_io.specs.Memory.{HeldOutput};

    ghost Value = { HeldOutput };

    ghost view = { λ s. record {
      bytes = s.bytes.items;
      room = s.room;
      most = s.most;
      calls = s.calls;
    } };

    ghost invariant = { λ s. (vec_len s.bytes ≤ s.room) × (s.room ≤ vec_capacity s.bytes) ×
        (0 < s.most) };
}

impl MemSink {
    /// `room` is the most bytes that the sink holds, all taken here. `most` is the most bytes of
    /// a call, and `failing` has the numbers, from 0, of the calls that fail.
    pub fn new(
        alloc: Global,
        room: usize,
        most: usize,
        failing: &[u64],
    ) -> Result<MemSink, NoMemory>
        requires { 0 < most }
        ensures { IfOk result
            (λ s. s ≡
            record { bytes = []; room = room; most = most; calls = no_calls failing.now }) }
    {
        Ok(MemSink {
            bytes: Vec::with_capacity(alloc, room)?,
            room,
            most,
            calls: Calls::new(alloc, failing)?,
        })
    }

    /// The bytes that were written.
    pub fn written(&self) -> &[u8]
        ensures bytes { result.now ≡ self.now.bytes }
        ensures within { length result.now ≤ self.now.room }
    {
        &self.bytes
    }
}

impl Sink for MemSink {
    ghost written = { λ s. Some s.bytes };

    ghost faults = { λ s. s.calls.faults };

    ghost ready = { λ _. true };

    fn put(&mut self, piece: &[u8]) -> Result<usize, Failed>
        ensures bound { IfOk result (λ n. TakesSome n piece.now) }
        ensures bytes { WriteAppends (Some self.old.bytes) (Some self.new.bytes) result piece.now }
        ensures cause { CountsFault self.old.calls.faults self.new.calls.faults result }

        ensures fails { IsErr result ↔
            (FailsNow self.old.calls ⊎
            ((0 < length piece.now) × (self.old.room ≤ length self.old.bytes))) }
        ensures size { IfOk result
            (λ n. n ≡ min (min (length piece.now) self.old.most)
            (self.old.room - length self.old.bytes)) }
        ensures room { self.new.room ≡ self.old.room }
        ensures most { self.new.most ≡ self.old.most }
        ensures counted { self.new.calls ≡ after_call (is_err result) self.old.calls }
        ensures quiet { self.old.calls.failing ≡ [] → length self.old.bytes < self.old.room →
            self.new.calls.faults ≡ self.old.calls.faults }
    {
        let failing = self.calls.begin();
        let left = self.room - self.bytes.len();
        let count = piece.len().min(self.most).min(left);
        if failing || (count == 0 && !piece.is_empty()) {
            self.calls.fail();
            return Err(Failed);
        }
        match self.bytes.extend_from_slice(&piece[..count]) {
            Ok(()) => Ok(count),
            Err(_) => unreachable!(),
        }
    }
}
