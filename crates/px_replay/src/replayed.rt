ghost use Rattle.std.specs.Prelude.{◌≡◌};
ghost use Rattle.px_replay.specs.declared.replayed.ReplayFault.TheVariants as fault;

use crate::Heap;
use px_entry::Exit;
use px_terms::{NoMemory, Value};

/// How an execution ended: its result is `Unwritten` where there is none.
#[derive(Drop)]
pub struct Replayed {
    pub exit: Exit,
    pub result: Value,
    pub heap: Heap,
}

/// Why a trace isn't replayed.
#[derive(Clone, Copy, Debug, PartialEq, Eq)]
pub enum ReplayFault {
    /// No execution follows the trace, and none that is under way has more of its marks than these.
    Departs { mark: u32 },
    NoMemory,
}

impl From<NoMemory> for ReplayFault {
    ghost from_gives = { λ _ e. e ≡ fault.NoMemory };

    fn from(_: NoMemory) -> ReplayFault {
        ReplayFault::NoMemory
    }
}
