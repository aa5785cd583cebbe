ghost use Rattle.std.specs.Prelude.{◌≡◌, ℕ, ◌<◌, ◌≤◌, List, Option, Result, length, IfOk, OnOk, OnErr};
ghost use Rattle.std.specs.Io.KnownBytes.{Appends, WriteAppends};
ghost use Rattle.std.specs.Io.{WritesAtMost};
ghost use Rattle.px_io.specs.declared.sink.Failed.{Failed};
ghost use Rattle.px_io.specs.Faults.{HasCause};
ghost use Rattle.px_io.specs.Pieces.{WritesPieces};
ghost use Rattle.px_io.specs.Told.{AppendsPrefix};

use thiserror::Error;

/// A write or a read has failed, and its object has counted it.
#[derive(Clone, Copy, Debug, PartialEq, Eq, Error)]
#[error("the write or read failed")]
pub struct Failed;

/// A sink of bytes, with a count of faults.
pub trait Sink {
    /// The bytes that were written, where the object tells them.
    ghost told: { Self → Option (List ℕ) };

    /// What a write of a piece may answer, and the object that it leaves: the record of writes is a chain of these.
    ghost takes: { Self → List ℕ → Result ℕ Failed → Self → Type 0 };

    /// How often a write has failed.
    ghost count: { Self → ℕ };

    /// How often a write has failed, or 2^64 - 1 where it was oftener. Takes no memory.
    fn faults(&self) -> u64
        ensures { result ≡ count self.now };

    /// Writes bytes from the front of the piece, at least one where it isn't empty, and says how many.
    /// After `Failed` nothing of the piece was written.
    fn write(&mut self, piece: &[u8]) -> Result<usize, Failed>
        ensures bound { WritesAtMost result piece.now }
        ensures some { 0 < length piece.now → IfOk result (λ n. 0 < n) }
        ensures bytes { WriteAppends (told self.old) (told self.new) result piece.now }
        ensures taken { takes self.old piece.now result self.new }

        // The count rises by one where the write failed, and else stays.
        ensures cause { HasCause (count self.old) (count self.new) result };
}

/// A sink for what a program puts out. Of the two real streams only standard output is one, so exchanged streams
/// don't compile.
pub trait Output: Sink {}

/// A sink for what a program says beside that. Of the two real streams only standard error is one.
pub trait ErrorOutput: Sink {}

/// The most bytes that `write_all` offers in one call.
const PIECE: usize = 4096;

/// Writes all the bytes, in pieces of at most 4,096. After `Failed` a prefix of them was written.
/// Takes no memory.
pub fn write_all<K: Sink>(sink: &mut K, bytes: &[u8]) -> Result<(), Failed>
    ensures all { OnOk result (Appends (K.told sink.old) (K.told sink.new) bytes.now) }
    ensures part { OnErr result (AppendsPrefix (K.told sink.old) (K.told sink.new) bytes.now) }
    ensures pieces { (pieces : List (List ℕ)) × WritesPieces K.takes sink.old pieces sink.new }
    ensures cause { HasCause (K.count sink.old) (K.count sink.new) result }
{
    let mut from = 0;
    while from < bytes.len() {
        let end = bytes.len().min(from.saturating_add(PIECE));
        let count = sink.write(&bytes[from..end])?;
        from += count;
    }
    Ok(())
}
