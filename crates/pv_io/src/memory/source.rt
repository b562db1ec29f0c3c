//! A source of bytes in memory.

ghost use Rattle.std.specs.Prelude.{◌≡◌, ◌≤◌, ◌<◌, ◌↔◌, min, length, Some, IfOk, IsErr, is_err};
ghost use Rattle.std.specs.Prelude.{OnErr, ◌++◌, take, drop, []};
ghost use Rattle.std.specs.Io.{ReadsAtMost};
ghost use Rattle.std.specs.Io.KnownBytes.{ReadConsumes};
ghost use Rattle.pv_io.specs.Causes.{CountsFault, WasAsked, empty_in};
ghost use Rattle.pv_io.specs.Memory.{no_calls, after_call, FailsNow};

use super::calls::Calls;
use crate::source::{Failed, Source};
use pv_chars::NoMemory;
use std::alloc::Global;
use std::marker::Model;

/// A source of bytes in memory, a few at a time, of which any call may be made to fail.
#[derive(Drop)]
pub struct MemSource {
    bytes: Vec<u8>,
    at: usize,
    most: usize,
    empty: u64,
    calls: Calls,
}

impl Model for MemSource {
    ghost use Rattle.std.specs.Prelude.{drop, ◌≤◌, ◌<◌, vec_len};
    ghost use Rattle.pv_io.specs.Memory.{HeldInput};

    ghost Value = { HeldInput };

    ghost view = { λ s. record {
      left = drop s.at s.bytes.items;
      most = s.most;
      empty = s.empty;
      calls = s.calls;
    } };

    ghost invariant = { λ s. (s.at ≤ vec_len s.bytes) × (0 < s.most) };
}

impl MemSource {
    /// `most` is the most bytes of a call, and `failing` has the numbers, from 0, of the calls
    /// that fail.
    pub fn new(
        alloc: Global,
        bytes: &[u8],
        most: usize,
        failing: &[u64],
    ) -> Result<MemSource, NoMemory>
        requires { 0 < most }
        ensures { IfOk result
            (λ s. s ≡ record {
              left = bytes.now;
              most = most;
              empty = 0;
              calls = no_calls failing.now;
            }) }
    {
        Ok(MemSource {
            bytes: bytes.to_vec(alloc)?,
            at: 0,
            most,
            empty: 0,
            calls: Calls::new(alloc, failing)?,
        })
    }
}

impl Source for MemSource {
    ghost left = { λ s. Some s.left };

    ghost faults = { λ s. s.calls.faults };

    ghost calls = { λ s. record { calls = s.calls.made; empty = s.empty } };

    fn fill(&mut self, buf: &mut [u8]) -> Result<usize, Failed>
        ensures bound { ReadsAtMost result buf.new }
        ensures bytes { ReadConsumes (Some self.old.left) (Some self.new.left) result buf.new }
        ensures cause { CountsFault self.old.calls.faults self.new.calls.faults result }
        ensures calls { WasAsked 1 (empty_in result)
            (record { calls = self.old.calls.made; empty = self.old.empty })
            (record { calls = self.new.calls.made; empty = self.new.empty }) }

        ensures fails { IsErr result ↔ FailsNow self.old.calls }
        ensures size { IfOk result
            (λ n. n ≡ min (min (length self.old.left) (length buf.old)) self.old.most) }
        ensures given { IfOk result (λ n. buf.new ≡ take n self.old.left ++ drop n buf.old) }
        ensures kept { OnErr result (buf.new ≡ buf.old) }
        ensures most { self.new.most ≡ self.old.most }
        ensures counted { self.new.calls ≡ after_call (is_err result) self.old.calls }
        ensures quiet { self.old.calls.failing ≡ [] →
            self.new.calls.faults ≡ self.old.calls.faults }
    {
        if self.calls.begin() {
            self.calls.fail();
            self.empty = self.empty.saturating_add(1);
            return Err(Failed);
        }
        let left = &self.bytes[self.at..];
        let count = left.len().min(buf.len()).min(self.most);
        if count == 0 {
            self.empty = self.empty.saturating_add(1);
        }
        buf[..count].copy_from_slice(&left[..count]);
        self.at += count;
        Ok(count)
    }
}
