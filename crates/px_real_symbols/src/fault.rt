ghost use Rattle.std.specs.Prelude.{◌≡◌};
ghost use Rattle.px_real_symbols.specs.declared.fault.Fault.TheVariants.{NoMemory};

use px_terms::NoMemory as OutOfMemory;
use std::alloc::{AllocError, AllocFailed};

/// Why nothing was read.
#[derive(Clone, Copy)]
pub enum Fault {
    /// There is no memory for it.
    NoMemory,
    /// The grammar has nothing that goes on with the token with this number.
    Wrong(usize),
    /// More would stand within one another than is read, from the token with this number on.
    Deep(usize),
}

impl From<OutOfMemory> for Fault {
    ghost from_gives = { λ _ e. e ≡ NoMemory };

    fn from(_error: OutOfMemory) -> Fault {
        Fault::NoMemory
    }
}

impl From<AllocError> for Fault {
    ghost from_gives = { λ _ e. e ≡ NoMemory };

    fn from(_error: AllocError) -> Fault {
        Fault::NoMemory
    }
}

impl<T: Drop> From<AllocFailed<T>> for Fault {
    ghost from_gives = { λ _ e. e ≡ NoMemory };

    fn from(_error: AllocFailed<T>) -> Fault {
        Fault::NoMemory
    }
}
