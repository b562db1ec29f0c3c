//! Sources: where input comes from.

ghost use Rattle.std.specs.Prelude.{◌≡◌, List, ℕ, Option, length};
ghost use Rattle.std.specs.Io.{ReadsAtMost};
ghost use Rattle.std.specs.Io.KnownBytes.{ReadConsumes};
ghost use Rattle.pv_io.specs.Causes.{Asked, CountsFault, FILL_BYTES, WasAsked, empty_in};

use thiserror::Error;

/// A device failed to read or to write. Nothing more is known of it.
#[derive(Clone, Copy, Debug, PartialEq, Eq, Error)]
#[error("the outside failed")]
pub struct Failed;

/// Where input comes from, piece by piece, with a count of the calls, of those that gave no byte,
/// and of those that failed.
pub trait Source {
    /// The bytes that are left, where they are known.
    ghost left: { Self → Option (List ℕ) };

    /// How often the source has failed.
    ghost faults: { Self → ℕ };

    /// How often the source was asked, and how often it gave no byte.
    ghost calls: { Self → Asked };

    /// Reads the next bytes into the front of the buffer, and answers how many. None are the end.
    /// The buffer has one size, so that who reads a long input asks seldom.
    fn fill(&mut self, buf: &mut [u8]) -> Result<usize, Failed>
        requires { length buf.old ≡ FILL_BYTES }
        ensures bound { ReadsAtMost result buf.new }
        ensures bytes { ReadConsumes (left self.old) (left self.new) result buf.new }
        ensures cause { CountsFault (faults self.old) (faults self.new) result }
        ensures calls { WasAsked 1 (empty_in result) (calls self.old) (calls self.new) };
}
