//! Sinks: where output goes.

ghost use Rattle.std.specs.Prelude.{◌≡◌, ◌≤◌, ◌<◌, List, ℕ, length, Option, IfOk, OnOk, OnErr};
ghost use Rattle.std.specs.Prelude.{Bool, Some, true};
ghost use Rattle.std.specs.Io.KnownBytes.{WriteAppends, Appends};
ghost use Rattle.pv_io.specs.Causes.{CountsFault, TakesSome, AppendsFront};

use crate::source::Failed;

/// Where output goes, piece by piece, with a count of the calls that failed. After a failure a sink
/// may refuse to be asked again.
pub trait Sink {
    /// The bytes that were written, where they are known.
    ghost written: { Self → Option (List ℕ) };

    /// How often the sink has failed.
    ghost faults: { Self → ℕ };

    /// Whether it may be asked. Of a sink that failed nothing is known, so that nothing may be put
    /// after a `put` that failed.
    ghost ready: { Self → Bool };

    /// Writes a front of the piece, and answers how many bytes that is: at least one, unless the
    /// piece is empty.
    fn put(&mut self, piece: &[u8]) -> Result<usize, Failed>
        requires { ready self.old ≡ true }
        ensures bound { IfOk result (λ n. TakesSome n piece.now) }
        ensures bytes { WriteAppends (written self.old) (written self.new) result piece.now }
        ensures cause { CountsFault (faults self.old) (faults self.new) result }
        ensures ready { OnOk result (ready self.new ≡ true) };
}

/// Writes all of the bytes, in as many calls as the sink wants, or a front of them up to a call
/// that failed.
pub fn write_all<K: Sink>(sink: &mut K, bytes: &[u8]) -> Result<(), Failed>
    requires { K.ready sink.old ≡ true }
    ensures ok { OnOk result (Appends (K.written sink.old) (K.written sink.new) bytes.now) }
    ensures err { OnErr result (AppendsFront (K.written sink.old) (K.written sink.new) bytes.now) }
    ensures cause { CountsFault (K.faults sink.old) (K.faults sink.new) result }
    ensures ready { OnOk result (K.ready sink.new ≡ true) }
{
    let mut at = 0;
    while at < bytes.len() {
        at += sink.put(&bytes[at..])?;
    }
    Ok(())
}
