ghost use Rattle.std.specs.Prelude.{◌≡◌};
ghost use Rattle.px_replay.specs.declared.stop.Stop.TheVariants as stop;

use px_base::{Kind, Site};
use px_terms::NoMemory;
use std::alloc::{AllocError, AllocFailed};

/// Why a replay goes no further.
#[derive(Clone, Copy, Debug, PartialEq, Eq)]
pub enum Stop {
    /// The execution ends in a memory error.
    Failed(Kind, Site),
    /// The execution can't be followed further.
    Departs,
    NoMemory,
}

impl From<NoMemory> for Stop {
    ghost from_gives = { λ _ e. e ≡ stop.NoMemory };

    fn from(_: NoMemory) -> Stop {
        Stop::NoMemory
    }
}

impl From<AllocError> for Stop {
    ghost from_gives = { λ _ e. e ≡ stop.NoMemory };

    fn from(_: AllocError) -> Stop {
        Stop::NoMemory
    }
}

impl<T: Drop> From<AllocFailed<T>> for Stop {
    ghost from_gives = { λ _ e. e ≡ stop.NoMemory };

    fn from(_: AllocFailed<T>) -> Stop {
        Stop::NoMemory
    }
}
