//! A line that is put together with no memory but the room that was taken for it.

ghost use Rattle.std.specs.Prelude.{◌≡◌, ◌≤◌, ◌+◌, ◌++◌, [], IfOk, decimal, length, take};

use itoa::Buffer;
use std::alloc::{AllocError, Global};
use std::marker::Model;

/// The most bytes of a line: a path of 512 places, each with its dot, and 64 more.
const LINE_ROOM: usize = 16_384;

/// The bytes of a line so far.
#[derive(Drop)]
pub struct LineRoom {
    text: Vec<u8>,
}

impl Model for LineRoom {
    ghost use Rattle.std.specs.Prelude.{◌≤◌, ℕ, List, vec_capacity};

    ghost Value = { List ℕ };

    ghost view = { λ l. l.text.items };

    ghost invariant = { λ l. 16384 ≤ vec_capacity l.text };
}

impl LineRoom {
    /// Takes the room. The line is empty.
    pub fn new(alloc: Global) -> Result<LineRoom, AllocError>
        ensures { IfOk result (λ line. line ≡ []) }
    {
        Ok(LineRoom {
            text: Vec::with_capacity(alloc, LINE_ROOM)?,
        })
    }

    /// Its bytes.
    pub fn bytes(&self) -> &[u8]
        ensures { result.now ≡ self.now }
    {
        self.text.as_slice()
    }

    /// The number of its bytes.
    pub fn size(&self) -> usize
        ensures { result ≡ length self.now }
    {
        self.text.len()
    }

    /// Appends bytes, for which there is room.
    pub fn append(&mut self, bytes: &[u8])
        requires { length self.old + length bytes.now ≤ 16384 }
        ensures { self.new ≡ self.old ++ bytes.now }
    {
        match self.text.extend_from_slice(bytes) {
            Ok(()) => {}
            Err(_) => unreachable!(),
        }
    }

    /// Appends a number in decimal digits, of which there are at most 20.
    pub fn append_number(&mut self, number: u64)
        requires { length self.old + 20 ≤ 16384 }
        ensures digits { self.new ≡ self.old ++ decimal number }
        ensures few { length (decimal number) ≤ 20 }
    {
        let mut buffer = Buffer::new();
        self.append(buffer.format(number).as_bytes());
    }

    /// Cuts it after its first bytes.
    pub fn cut(&mut self, count: usize)
        ensures { self.new ≡ take count self.old }
    {
        self.text.truncate(count);
    }
}
