ghost use Rattle.std.specs.Prelude.{◌≡◌, ℕ, ◌<◌, ◌≤◌, List, Option, length, IfOk, IfSome, IsErrOf};
ghost use Rattle.px_io.specs.Faults.{HasCauseOf};
ghost use Rattle.px_io.specs.Reads.{Given, given_of};
ghost use Rattle.px_io.specs.declared.files.FileFault.TheVariants.{Failed, Long};

use thiserror::Error;

/// Why a file isn't read.
#[derive(Clone, Copy, Debug, PartialEq, Eq, Error)]
pub enum FileFault {
    /// The file isn't there or can't be read; the object has counted the fault.
    #[error("the file can't be read")]
    Failed,
    /// The contents are longer than the limit.
    #[error("the file is too long")]
    Long,
    #[error("out of memory")]
    NoMemory,
}

/// Files by their paths, with a count of faults.
pub trait Files {
    /// The contents of a path, where the object tells them.
    ghost told: { Self → List ℕ → Option (List ℕ) };

    /// How often a read has failed.
    ghost count: { Self → ℕ };

    /// Whether the path may be read. No call changes it.
    ghost allows: { Self → List ℕ → Type 0 };

    /// What a read of a path may give, and the object that it leaves. The record of reads, `Reads`, is a chain of
    /// these: no code can claim a read that it didn't make.
    ghost gives: { Self → List ℕ → Given → Self → Type 0 };

    /// How often a read has failed, or 2^64 - 1 where it was oftener. Takes no memory.
    fn faults(&self) -> u64
        ensures { result ≡ count self.now };

    /// The whole contents of a path, where they have at most `limit` bytes.
    fn read(&mut self, path: &str, limit: u64) -> Result<Vec<u8>, FileFault>
        requires { allows self.old path.now }

        ensures contents { IfOk result (λ bytes. IfSome (told self.old path.now) (λ c. bytes.items ≡ c)) }
        ensures within { IfOk result (λ bytes. length bytes.items ≤ limit) }
        ensures long { IsErrOf result Long → IfSome (told self.old path.now) (λ c. limit < length c) }
        ensures given { gives self.old path.now (given_of result) self.new }

        // The count rises by one where the read failed, and else stays.
        ensures cause { HasCauseOf Failed (count self.old) (count self.new) result }

        // What is told and what is allowed stay as they were.
        ensures same { (p : List ℕ) → told self.new p ≡ told self.old p }
        ensures allowed { (p : List ℕ) → allows self.old p → allows self.new p };
}
