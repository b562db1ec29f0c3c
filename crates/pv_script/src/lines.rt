//! Takes the lines of a script from its pieces.

ghost use Rattle.std.specs.Prelude.{◌≡◌, ◌++◌, IfOk, length, nat_le, false, if◌then◌else◌};
ghost use Rattle.pv_words.specs.Lines.{without_returns};
ghost use Rattle.pv_script.specs.TakenLines.{TakesPiece, MAX_LINE_BYTES as MAX_BYTES, nothing_held};
ghost use Rattle.pv_script.specs.TakenLines.{begun_line};

use memchr::memchr;
use pv_chars::NoMemory;
use pv_words::without_returns;
use std::alloc::Global;
use std::marker::Model;

/// The most bytes of a line, without its LF.
pub const MAX_LINE_BYTES: usize = 1_048_576;

/// What taking a piece gave.
#[derive(Clone, Copy, Debug, PartialEq, Eq)]
pub enum Took {
    /// The piece was eaten whole, and the line goes on.
    More,
    /// The line is whole. So many bytes of the piece were eaten, its LF included.
    Line(usize),
    /// The line would be too long.
    TooLong,
}

/// A line that is taken from pieces, with room for the longest.
#[derive(Drop)]
pub struct Lines {
    bytes: Vec<u8>,
    whole: bool,
}

impl Model for Lines {
    ghost use Rattle.std.specs.Prelude.{◌≤◌, vec_len, vec_capacity};
    ghost use Rattle.pv_script.specs.TakenLines.{HeldLine, MAX_LINE_BYTES as MAX_BYTES};

    ghost Value = { HeldLine };

    ghost view = { λ l. record { bytes = l.bytes.items; whole = l.whole } };

    ghost invariant = { λ l. (vec_len l.bytes ≤ MAX_BYTES) × (MAX_BYTES ≤ vec_capacity l.bytes) };
}

impl Lines {
    /// Takes all the memory that taking lines needs.
    pub fn new(alloc: Global) -> Result<Lines, NoMemory>
        ensures { IfOk result (λ held. held ≡ nothing_held) }
    {
        Ok(Lines {
            bytes: Vec::with_capacity(alloc, MAX_LINE_BYTES)?,
            whole: false,
        })
    }

    // Adds bytes, and tells whether they fit.
    fn add(&mut self, bytes: &[u8]) -> bool
        ensures fits { result ≡ nat_le (length (self.old.bytes ++ bytes.now)) MAX_BYTES }
        ensures added { self.new ≡ record {
          bytes = if result then self.old.bytes ++ bytes.now else self.old.bytes;
          whole = self.old.whole;
        } }
    {
        if bytes.len() > MAX_LINE_BYTES - self.bytes.len() {
            return false;
        }
        match self.bytes.extend_from_slice(bytes) {
            Ok(()) => true,
            Err(_) => unreachable!(),
        }
    }

    // Drops a whole line that is held.
    fn begin(&mut self)
        ensures { self.new ≡ record { bytes = begun_line self.old; whole = false } }
    {
        if self.whole {
            self.clear();
        }
    }

    /// Drops a whole line that is held. Then takes the piece, up to its first LF.
    pub fn take(&mut self, piece: &[u8]) -> Took
        ensures { TakesPiece self.old piece.now self.new result }
    {
        self.begin();
        match memchr(b'\n', piece) {
            None => {
                if self.add(piece) {
                    Took::More
                } else {
                    Took::TooLong
                }
            }
            Some(at) => {
                if self.add(&piece[..at]) {
                    self.whole = true;
                    Took::Line(at + 1)
                } else {
                    Took::TooLong
                }
            }
        }
    }

    /// How many bytes are held, CR bytes at the end included.
    pub fn held(&self) -> usize
        ensures { result ≡ length self.now.bytes }
    {
        self.bytes.len()
    }

    /// The held bytes without the CR bytes at their end.
    pub fn line(&self) -> &[u8]
        ensures { result.now ≡ without_returns self.now.bytes }
    {
        without_returns(&self.bytes)
    }

    /// Drops what is held.
    pub fn clear(&mut self)
        ensures { self.new ≡ nothing_held }
    {
        self.bytes.clear();
        self.whole = false;
    }
}
