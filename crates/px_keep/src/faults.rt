ghost use Rattle.std.specs.Prelude.{◌≡◌};
ghost use Rattle.px_keep.specs.declared.faults.KeepFault.TheVariants as fault;

use px_terms::NoMemory as OutOfMemory;
use std::alloc::AllocFailed;
use thiserror::Error;

/// Why bytes aren't kept items.
#[derive(Clone, Copy, Debug, PartialEq, Eq, Error)]
pub enum KeepFault {
    /// The first item that isn't whole, or not so formed, begins at this byte; or the first eight bytes are others, and it
    /// is 0.
    #[error("bad item at byte {0}")]
    Bad(u64),
    #[error("out of memory")]
    NoMemory,
}

impl<T: Drop> From<AllocFailed<T>> for KeepFault {
    ghost from_gives = { λ _ e. e ≡ fault.NoMemory };

    fn from(_: AllocFailed<T>) -> KeepFault {
        KeepFault::NoMemory
    }
}

impl From<OutOfMemory> for KeepFault {
    ghost from_gives = { λ _ e. e ≡ fault.NoMemory };

    fn from(_: OutOfMemory) -> KeepFault {
        KeepFault::NoMemory
    }
}
