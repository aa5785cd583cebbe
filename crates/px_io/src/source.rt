ghost use Rattle.std.specs.Prelude.{◌≡◌, ℕ, List, Option, Result, length};
ghost use Rattle.std.specs.Io.{ReadsAtMost};
ghost use Rattle.std.specs.Io.KnownBytes.{ReadConsumes};
ghost use Rattle.px_io.specs.declared.sink.Failed.{Failed};
ghost use Rattle.px_io.specs.Faults.{HasCause};
ghost use Rattle.px_io.specs.Sources.{bytes_of};

use crate::sink::Failed;

/// A source of bytes, with a count of faults.
pub trait Source {
    /// The bytes that are still to come, where the object tells them.
    ghost told: { Self → Option (List ℕ) };

    /// What a read with room for so many bytes may give, and the object that it leaves: the record of reads is a chain
    /// of these.
    ghost gives: { Self → ℕ → Result (List ℕ) Failed → Self → Type 0 };

    /// How often a read has failed.
    ghost count: { Self → ℕ };

    /// How often a read has failed, or 2^64 - 1 where it was oftener. Takes no memory.
    fn faults(&self) -> u64
        ensures { result ≡ count self.now };

    /// Puts the next bytes at the front of the slice, at least one where it isn't empty and the source isn't at its
    /// end, and says how many. After `Failed` no byte was taken.
    fn read(&mut self, into: &mut [u8]) -> Result<usize, Failed>
        ensures bound { ReadsAtMost result into.new }
        ensures bytes { ReadConsumes (told self.old) (told self.new) result into.new }
        ensures given { gives self.old (length into.old) (bytes_of result into.new) self.new }

        // The count rises by one where the read failed, and else stays.
        ensures cause { HasCause (count self.old) (count self.new) result };
}
