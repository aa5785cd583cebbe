ghost use Rattle.std.specs.Prelude.{◌≡◌};
ghost use Rattle.px_bodies.specs.declared.refusal.Refusal.TheVariants.{NoMemory};

use px_terms::NoMemory as OutOfMemory;
use std::alloc::{AllocError, AllocFailed};

/// Why there is no typed tree.
#[derive(Clone, Copy)]
pub enum Refusal {
    /// A typing rule fails.
    Rule,
    NoMemory,
}

impl From<OutOfMemory> for Refusal {
    ghost from_gives = { λ _ e. e ≡ NoMemory };

    fn from(_error: OutOfMemory) -> Refusal {
        Refusal::NoMemory
    }
}

impl From<AllocError> for Refusal {
    ghost from_gives = { λ _ e. e ≡ NoMemory };

    fn from(_error: AllocError) -> Refusal {
        Refusal::NoMemory
    }
}

impl<T: Drop> From<AllocFailed<T>> for Refusal {
    ghost from_gives = { λ _ e. e ≡ NoMemory };

    fn from(_error: AllocFailed<T>) -> Refusal {
        Refusal::NoMemory
    }
}
