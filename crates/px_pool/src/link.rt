ghost use Rattle.std.specs.Prelude.{◌≡◌, ℕ, ◌≤◌, ⊤, List, Option, Result, length, IfOk, OnErr, OnOk};
ghost use Rattle.std.specs.Io.{ReadsAtMost};
ghost use Rattle.px_io.specs.declared.sink.Failed.{Failed};
ghost use Rattle.px_io.specs.Faults.{HasCause};
ghost use Rattle.px_io.specs.Sources.{bytes_of};
ghost use Rattle.px_pool.specs.Talks.{Talk, Passes, nothing, sends, gives, SendsPart};
ghost use Rattle.px_pool.specs.Words.{IsWordKept};

use px_io::Failed;
use px_pieces::Honesty;
use std::sync::Wait;

/// A link to a worker, with a count of faults. It moves between threads.
///
/// A call may wait for the other side for ever.
pub trait Link: Send {
    /// Whose word the replies are: of a job that was sent it says the table of the reply that was given in its turn. What
    /// holds pieces of this word may be shared by threads.
    type Word: Honesty + Send + Sync;

    /// What passed over the link so far, where the object tells it.
    ghost told: { Self → Option Talk };

    /// What a call of `send` with these bytes may answer, and the object that it leaves.
    ghost takes: { Self → List ℕ → Result ⊤ Failed → Self → Type 0 };

    /// What a call of `receive` with room for so many bytes may answer, and the object that it leaves.
    ghost answers: { Self → ℕ → Result (List ℕ) Failed → Self → Type 0 };

    /// How often a call has failed.
    ghost count: { Self → ℕ };

    /// How often a call has failed, or 2^64 - 1 where it was oftener. Takes no memory.
    fn faults(&self) -> u64
        ensures { result ≡ count self.now };

    /// Sends all the bytes. After `Failed` a part of them was sent, from their front.
    fn send<R: Wait>(&mut self, rt: &R, bytes: &[u8]) -> Result<(), Failed>
        ensures sent { OnOk result (Passes (told self.old) (told self.new) (sends bytes.now)) }
        ensures part { OnErr result (SendsPart (told self.old) (told self.new) bytes.now) }
        ensures taken { takes self.old bytes.now result self.new }

        // The count rises by one where the call failed, and else stays.
        ensures cause { HasCause (count self.old) (count self.new) result };

    /// Puts the next bytes at the front of the slice, and says how many. None, where the slice has room, is the end. After
    /// `Failed` no byte was given.
    fn receive<R: Wait>(&mut self, rt: &R, into: &mut [u8]) -> Result<usize, Failed>
        ensures bound { ReadsAtMost result into.new }
        ensures given { IfOk result (λ n. Passes (told self.old) (told self.new) (gives n into.new)) }
        ensures none { OnErr result (Passes (told self.old) (told self.new) nothing) }
        ensures word { IsWordKept Self.Word.says (told self.new) }
        ensures answer { answers self.old (length into.old) (bytes_of result into.new) self.new }

        // The count rises by one where the call failed, and else stays.
        ensures cause { HasCause (count self.old) (count self.new) result };
}
