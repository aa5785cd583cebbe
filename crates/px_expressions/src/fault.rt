ghost use Rattle.std.specs.Prelude.{◌≡◌};
ghost use Rattle.px_expressions.specs.declared.fault.Fault.TheVariants.{NoMemory};

use px_terms::NoMemory as OutOfMemory;
use std::alloc::{AllocError, AllocFailed};

/// Why nothing was read at a place.
#[derive(Clone, Copy)]
pub enum Fault {
    NoMemory,
    NoParse,
}

impl From<OutOfMemory> for Fault {
    ghost from_gives = { λ _ e. e ≡ NoMemory };

    fn from(_error: OutOfMemory) -> Fault {
        Fault::NoMemory
    }
}

impl From<AllocError> for Fault {
    ghost from_gives = { λ _ e. e ≡ NoMemory };

    fn from(_error: AllocError) -> Fault {
        Fault::NoMemory
    }
}

impl<T: Drop> From<AllocFailed<T>> for Fault {
    ghost from_gives = { λ _ e. e ≡ NoMemory };

    fn from(_error: AllocFailed<T>) -> Fault {
        Fault::NoMemory
    }
}
