ghost use Rattle.std.specs.Prelude.{◌≡◌, ℕ, ◌+◌, ◌-◌, ◌^◌, ◌<◌, Option, Result, IfOk, OnErr, OnOk, IsErr};
ghost use Rattle.px_io.specs.declared.sink.Failed.{Failed};
ghost use Rattle.px_io.specs.Faults.{HasCause};
ghost use Rattle.px_pool.specs.Talks.{IsFresh};
ghost use Rattle.px_pool.specs.Starts.{Numbers, Counts, CountsEnded, TellsAlike};

use crate::Link;
use px_io::Failed;
use std::sync::Wait;

/// Starts links to workers and ends them, with a count of faults. A link is spent by `end` alone.
pub trait Spawner {
    type Link: Link;

    /// How many whole frames its ended links gave, and how many links it started, where the object tells it. Its links tell
    /// what passes over them exactly then.
    ghost told: { Self → Option Numbers };

    /// How many links were started and not ended.
    ghost links: { Self → ℕ };

    /// What a start may answer, and the object that it leaves.
    ghost starts: { Self → Result Self.Link Failed → Self → Type 0 };

    /// The object that the end of a link may leave.
    ghost ends: { Self → Self → Type 0 };

    /// How often a start has failed.
    ghost count: { Self → ℕ };

    /// How often a start has failed, or 2^64 - 1 where it was oftener. Takes no memory.
    fn faults(&self) -> u64
        ensures { result ≡ count self.now };

    /// How many links were started and not ended. Takes no memory.
    fn running(&self) -> u64
        ensures { result ≡ links self.now };

    /// A new link to the worker with this number, which runs this program where it is a child. `Failed` comes too where
    /// 2^64 - 1 links are running.
    fn start<R: Wait>(&mut self, rt: &R, program: &str, number: u32) -> Result<Self::Link, Failed>
        ensures fresh { IfOk result (λ l. IsFresh (Self.Link.told l)) }
        ensures alike { IfOk result (λ l. TellsAlike (told self.new) (Self.Link.told l)) }
        ensures running { OnOk result (links self.new ≡ links self.old + 1) }
        ensures same { OnErr result (links self.new ≡ links self.old) }
        ensures full { links self.old ≡ 2 ^ 64 - 1 → IsErr result }
        ensures started { OnOk result (Counts (told self.old) (told self.new) 0 1) }
        ensures unstarted { OnErr result (Counts (told self.old) (told self.new) 0 0) }
        ensures answer { starts self.old result self.new }

        // The count rises by one where the start failed, and else stays.
        ensures cause { HasCause (count self.old) (count self.new) result };

    /// Ends a link. Takes no memory.
    fn end<R: Wait>(&mut self, rt: &R, link: Self::Link)
        requires running { 0 < links self.old }
        ensures fewer { links self.new + 1 ≡ links self.old }
        ensures given { CountsEnded (told self.old) (told self.new) (Self.Link.told link) }
        ensures left { ends self.old self.new }
        ensures count { count self.new ≡ count self.old };
}
